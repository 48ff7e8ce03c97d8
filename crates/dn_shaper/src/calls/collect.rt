ghost use Rattle.std.specs.Prelude.{◌≡◌, ◌+◌, ◌<◌, ◌≤◌, ◌^◌, ◌++◌, List, length, nat_le, nat_lt, IfOk, IsOk, OnErr};
ghost use Rattle.std.specs.List.{filter};
ghost use Rattle.std.specs.Vec.{vec_capacity};
ghost use Rattle.dn_types.specs.Deliveries.{undelivered};
ghost use Rattle.dn_types.specs.Trace.{Event};
ghost use Rattle.dn_types.specs.declared.call.Call.TheVariants.{Collect};
ghost use Rattle.dn_types.specs.declared.reply.Reply.TheVariants.{Delivered};
ghost use Rattle.dn_types.specs.declared.rule.Rule.{Rule as RuleValue};
ghost use Rattle.dn_shaper.specs.Refinement.Calls.{Does};
ghost use Rattle.dn_shaper.specs.Refinement.Sound.{IsSound};
ghost use Rattle.dn_shaper.specs.Room.{KeepsRoom};

use crate::links::settle::settle;
use crate::state::State;
use dn_link::DelayLine;
use dn_types::{Deliveries, Delivery, Moment, Reply};
use std::alloc::{AllocError, Global};
use std::mem;

/// Takes the packets that are due at the moment out of the delay line, in order.
///
/// The list has room for all that are under way.
fn give(line: &mut DelayLine, at: u64, list: &mut Vec<Delivery>)
    requires ordered { (rule : RuleValue) × (trace : List Event) × (line.old.pending ≡ undelivered rule trace) }
    requires room { length list.old.items + length line.old.pending ≤ vec_capacity list.old }
    ensures given { list.new.items ≡ list.old.items ++ filter (λ d. nat_le d.due at) line.old.pending }
    ensures rest { line.new.pending ≡ filter (λ d. nat_lt at d.due) line.old.pending }
    ensures keeps_room { line.old.room ≤ line.new.room }
    ensures pushed { line.new.pushed ≡ line.old.pushed }
{
    while let Some(delivery) = line.pop_due(at) {
        list.push_reserved(delivery);
    }
}

/// A copy of the list in no more memory than it needs.
///
/// If that is refused, the result is the list itself, and the next one is gathered in other memory.
fn own_list(given: &mut Vec<Delivery>, alloc: Global) -> Vec<Delivery>
    ensures { result.items ≡ given.old.items }
{
    match Vec::from_slice(alloc, given) {
        Ok(list) => list,
        Err(_) => mem::replace(given, Vec::new(alloc)),
    }
}

/// Moves the clock, and gathers the packets that are due by then in the list. The result is where the clock is.
///
/// Room for all that wait or are under way is made first.
fn gather(state: &mut State, list: &mut Vec<Delivery>, moment: Moment) -> Result<u64, AllocError>
    requires sound { IsSound state.old }
    requires few { state.old.calls < 2 ^ 62 }
    ensures does { IfOk result (λ at. Does (Collect moment) state.old state.new (Delivered at list.new.items)) }
    ensures succeeds { length state.old.parts.line.pending + state.old.parts.waiting ≤ vec_capacity list.old → IsOk result }
    ensures sound { IsSound state.new }
    ensures err { OnErr result (state.new ≡ state.old) }
    ensures leaves { KeepsRoom state.old state.new }
{
    let at = state.now.max(moment.get());
    list.clear();
    list.reserve(state.parts.line.len() + state.parts.waiting)?;
    settle(&mut state.parts, &mut state.heap, &state.configured, at);
    give(&mut state.parts.line, at, list);
    state.now = at;
    state.calls += 1;
    Ok(at)
}

/// Moves the clock, and gives the packets that are due by then.
///
/// They are gathered in `given`. Its memory stays for the next Collect, since to ask the system for so much each time costs
/// more than the rest of a call.
pub fn collect(
    state: &mut State,
    given: &mut Vec<Delivery>,
    alloc: Global,
    moment: Moment,
) -> Result<Reply, AllocError>
    requires sound { IsSound state.old }
    requires few { state.old.calls < 2 ^ 62 }
    ensures does { IfOk result (λ reply. Does (Collect moment) state.old state.new reply) }
    ensures sound { IsSound state.new }
    ensures err { OnErr result (state.new ≡ state.old) }
    ensures leaves { KeepsRoom state.old state.new }
{
    let at = gather(state, given, moment)?;
    let list = own_list(given, alloc);
    Ok(Reply::Delivered {
        at,
        list: Deliveries::from_vec(list),
    })
}

/// The same in a list that is lent, which is then the reply's.
pub fn collect_lent(
    state: &mut State,
    lent: Vec<Delivery>,
    moment: Moment,
) -> Result<Reply, AllocError>
    requires sound { IsSound state.old }
    requires few { state.old.calls < 2 ^ 62 }
    ensures does { IfOk result (λ reply. Does (Collect moment) state.old state.new reply) }
    ensures succeeds { length state.old.parts.line.pending + state.old.parts.waiting ≤ vec_capacity lent → IsOk result }
    ensures sound { IsSound state.new }
    ensures err { OnErr result (state.new ≡ state.old) }
    ensures leaves { KeepsRoom state.old state.new }
{
    let mut list = lent;
    let at = gather(state, &mut list, moment)?;
    Ok(Reply::Delivered {
        at,
        list: Deliveries::from_vec(list),
    })
}
