use crate::example::is_wanted;
use crate::shown_step::ShownStep;
use crate::step::Step;
use dn_shaper::{HashKey, Shaper};
use dn_types::{Call, Reply, Rule, Statuses};
use std::alloc::Global;
use std::io::Print;
use std::process::Abort;
use std::test::Fail;

/// A shaper that is shown after each call.
///
/// A call that is refused memory has to leave it as it was, and is then made again.
#[derive(Drop)]
pub struct Trial {
    alloc: Global,
    shaper: Shaper,
    // The last reply to a Show.
    shown: Reply,
}

impl Trial {
    /// A shaper before its first call, with a key, where the list of an example is run without one.
    fn new(alloc: Global) -> Trial {
        Trial {
            alloc,
            shaper: Shaper::with_key(alloc, Rule::Ordered, HashKey(7)),
            shown: Reply::Status {
                list: Statuses::from_vec(Vec::new(alloc)),
            },
        }
    }

    // A Show is answered as the last one was. It is made twice more if it is refused memory.
    fn is_as_shown(&mut self, rt: &impl Abort) -> Result<(), Fail> {
        for _ in 0..2u64 {
            if let Ok(reply) = self.shaper.apply(&Call::Show) {
                assert!(rt; reply == self.shown);
                return Ok(());
            }
        }
        let reply = self.shaper.apply(&Call::Show)?;
        assert!(rt; reply == self.shown);
        Ok(())
    }

    // A call that was refused is not counted and has changed nothing that is shown.
    fn is_as_before(
        &mut self,
        rt: &(impl Abort + Print),
        call: &Call,
        calls: u64,
    ) -> Result<(), Fail> {
        println!(rt; "a growth was refused")?;
        assert_eq!(rt; self.shaper.calls(), calls);
        // A Show that is refused comes after a call that was answered.
        if *call == Call::Show {
            return Ok(());
        }
        self.is_as_shown(rt)
    }

    // The reply to a call. If it is refused memory, it is made twice more at most.
    fn answer(&mut self, rt: &(impl Abort + Print), call: &Call) -> Result<Reply, Fail> {
        for _ in 0..2u64 {
            let calls = self.shaper.calls();
            if let Ok(reply) = self.shaper.apply(call) {
                return Ok(reply);
            }
            self.is_as_before(rt, call, calls)?;
        }
        Ok(self.shaper.apply(call)?)
    }

    // The reply to a step, which is the one that it wants.
    fn reply(
        &mut self,
        rt: &(impl Abort + Print),
        place: usize,
        step: &Step<'_>,
    ) -> Result<Reply, Fail> {
        let reply = self.answer(rt, &step.asked.call()?)?;
        is_wanted(rt, self.alloc, place, &reply, step)?;
        Ok(reply)
    }

    // A step and the Show after it. The shaper stands behind a reference: a `?` where it is owned
    // would drop it there.
    fn step(
        &mut self,
        rt: &(impl Abort + Print),
        place: usize,
        shown: &ShownStep<'_>,
    ) -> Result<(), Fail> {
        self.reply(rt, place, &shown.step)?;
        self.shown = self.reply(rt, place, &shown.show)?;
        Ok(())
    }

    fn steps(&mut self, rt: &(impl Abort + Print), steps: &[ShownStep<'_>]) -> Result<(), Fail> {
        for (place, shown) in steps.iter().enumerate() {
            self.step(rt, place, shown)?;
        }
        Ok(())
    }
}

/// A shaper returns the replies of the steps, by `apply`, and shows these flows after each.
///
/// It does so also if any one growth is refused, or any two in a row.
pub fn holds_when_refused<R: Abort + Print + AllocGlobal>(
    rt: &R,
    steps: &[ShownStep<'_>],
) -> Result<(), Fail> {
    let mut trial = Trial::new(rt.alloc());
    let held = trial.steps(rt, steps);
    // The proof of a drop by a call has one step, where that of a drop at the end has one for each field.
    drop(trial);
    held
}
