ghost use Rattle.std.specs.Prelude.{◌≡◌, [], List, OnOk, false, true};
ghost use Rattle.dn_types.specs.declared.call.Call.{Call as CallValue};
ghost use Rattle.dn_replay.specs.Kept.{CanReport};
ghost use Rattle.dn_replay.specs.Held.{Ends, HasMadeLast, HoldsAnswer, HoldsNothing, has_entries};
ghost use Rattle.dn_replay.specs.declared.report.kept.Kept.{Kept as KeptValue};

use crate::config::run::Run;
use crate::replays::passing::{collect, collect_in_passing};
use crate::report::{Kept, last_delivered};
use dn_types::{Call, Delivery, Entry, Moment, Reply};
use std::alloc::{AllocError, Global};

/// What a pass holds of the answers to its calls, beside the rows of the report.
#[derive(Drop)]
pub(crate) enum Held {
    /// The run's history has the entry of each call.
    Entries,
    /// No Submit is recorded, and these are the packets that the Collects so far gave, in their order.
    Given(Vec<Delivery>),
}

impl Held {
    /// What is held before the first call.
    pub(crate) fn new(alloc: Global, records: bool) -> Held
        ensures nothing { HoldsNothing result }
        ensures records { has_entries result ≡ records }
    {
        if records {
            return Held::Entries;
        }
        Held::Given(Vec::new(alloc))
    }

    /// Holds the answer of the run to a Submit, of which the report's row is kept already.
    ///
    /// That is its entry, or else what a Collect in passing gives behind it. With a history none is made, since the entry of the
    /// last Collect lists all packets.
    pub(crate) fn hold(
        &mut self,
        run: &mut Run,
        kept: &Kept,
        call: Call,
        reply: Reply,
    ) -> Result<(), AllocError>
        ensures { OnOk result (HoldsAnswer call reply kept.now self.old run.old self.new run.new) }
    {
        match self {
            Held::Entries => run.add_entry(call, reply),
            Held::Given(given) => collect_in_passing(&mut run.shaper, given, kept.rows()),
        }
    }

    /// Takes all packets that are due by the last moment.
    pub(crate) fn collect_rest(&mut self, run: &mut Run) -> Result<(), AllocError>
        ensures { OnOk result (Ends self.old run.old self.new run.new) }
    {
        let last = Moment::new(1 << 62).unwrap();
        match self {
            Held::Entries => run.make(Call::Collect(last)),
            Held::Given(given) => collect(&mut run.shaper, given, last),
        }
    }

    /// What all Collects gave, of which that at the last moment was made.
    pub(crate) fn all_given<'a>(&'a self, run: &'a Run) -> &'a [Delivery]
        requires { (kept : KeptValue) × (calls : List CallValue) × HasMadeLast self.now run.now kept calls }
        ensures { (kept : KeptValue) (calls : List CallValue) → HasMadeLast self.now run.now kept calls → CanReport kept result.now calls }
    {
        match self {
            Held::Entries => last_delivered(run.history.as_slice()),
            Held::Given(given) => given.as_slice(),
        }
    }

    /// The history of all calls, which leaves the run none, or an empty one if entries aren't held.
    pub(crate) fn take_history(&self, run: &mut Run, alloc: Global) -> Vec<Entry>
        ensures recorded { has_entries self.now ≡ true → result.items ≡ run.old.history.items }
        ensures unasked { has_entries self.now ≡ false → result.items ≡ [] }
    {
        match self {
            Held::Entries => run.take_history(alloc),
            Held::Given(_) => Vec::new(alloc),
        }
    }
}
