//! The one way that an example is run.
//!
//! What is refused memory is tried twice more, so that an example holds also if any two growths in a row are refused.

use crate::step::Step;
use dn_shaper::{Shaper, run};
use dn_types::{Buckets, Call, Command, Limit, Mask, Packet, Reply, Rule, Target};
use std::alloc::{AllocError, Global};
use std::io::Print;
use std::process::Abort;
use std::test::Fail;

// Lists are filled behind a reference: a `?` where a list is owned would drop it there.

// Appends the calls of the steps.
fn push_calls(calls: &mut Vec<Call>, steps: &[Step<'_>]) -> Result<(), Fail> {
    if calls.reserve(steps.len()).is_err() {
        calls.reserve(steps.len())?;
    }
    // The prover asks that a body that moves a call into a list names the types in it.
    let _command: Option<Command> = None;
    let _target: Option<Target> = None;
    let _packet: Option<Packet> = None;
    let _limit: Option<Limit> = None;
    let _buckets: Option<Buckets> = None;
    let _mask: Option<Mask> = None;
    for step in steps {
        calls.push(step.asked.call()?)?;
    }
    Ok(())
}

// Appends the replies of the shaper to the calls.
fn push_replies(
    shaper: &mut Shaper,
    replies: &mut Vec<Reply>,
    calls: &[Call],
) -> Result<(), AllocError> {
    for call in calls {
        replies.push(shaper.apply(call)?)?;
    }
    Ok(())
}

// The replies to the calls, by the rule Free.
fn run_free(alloc: Global, calls: &[Call]) -> Result<Vec<Reply>, AllocError> {
    let mut shaper = Shaper::with_rule(alloc, Rule::Free);
    let mut replies = Vec::new(alloc);
    let pushed = push_replies(&mut shaper, &mut replies, calls);
    // The proof of a drop by a call has one step, where that of a drop at the end has one for each field.
    drop(shaper);
    pushed?;
    Ok(replies)
}

// The replies to the calls, by a shaper of the rule.
fn replies_by(alloc: Global, rule: Rule, calls: &[Call]) -> Result<Vec<Reply>, AllocError> {
    match rule {
        Rule::Ordered => run(alloc, calls),
        Rule::Free => run_free(alloc, calls),
    }
}

// The reply to a call. If it is refused memory, it is made twice more at most.
fn answer(rt: &impl Print, shaper: &mut Shaper, call: &Call) -> Result<Reply, Fail> {
    for _ in 0..2u64 {
        if let Ok(reply) = shaper.apply(call) {
            return Ok(reply);
        }
        println!(rt; "a growth was refused")?;
    }
    Ok(shaper.apply(call)?)
}

/// The reply to the call at a place is the one that its step wants.
pub fn is_wanted(
    rt: &impl Abort,
    alloc: Global,
    place: usize,
    reply: &Reply,
    step: &Step<'_>,
) -> Result<(), Fail> {
    assert_eq!(rt; *reply, step.wanted.reply(alloc)?, "call {place}");
    Ok(())
}

/// A shaper answers a step as that wants. The reply is dropped here, and not at each `?` of a loop.
pub fn answers_step(
    rt: &(impl Abort + Print),
    alloc: Global,
    shaper: &mut Shaper,
    place: usize,
    step: &Step<'_>,
) -> Result<(), Fail> {
    let reply = answer(rt, shaper, &step.asked.call()?)?;
    is_wanted(rt, alloc, place, &reply, step)
}

// Each reply is the one that its step wants, and there are as many.
fn compare<R: Abort + AllocGlobal>(
    rt: &R,
    replies: &[Reply],
    steps: &[Step<'_>],
) -> Result<(), Fail> {
    for (place, (reply, step)) in replies.iter().zip(steps).enumerate() {
        is_wanted(rt, rt.alloc(), place, reply, step)?;
    }
    assert_eq!(rt; replies.len(), steps.len());
    Ok(())
}

/// A shaper of the rule returns the replies of the steps, from its beginning.
///
/// It is by `run` for Ordered, and by `apply` for Free.
pub fn holds<R: Abort + Print + AllocGlobal>(
    rt: &R,
    rule: Rule,
    steps: &[Step<'_>],
) -> Result<(), Fail> {
    let mut calls = Vec::new(rt.alloc());
    push_calls(&mut calls, steps)?;
    let replies = match replies_by(rt.alloc(), rule, &calls) {
        Ok(replies) => replies,
        Err(_) => {
            println!(rt; "a growth was refused")?;
            replies_by(rt.alloc(), rule, &calls)?
        }
    };
    compare(rt, &replies, steps)
}
