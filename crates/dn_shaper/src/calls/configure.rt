ghost use Rattle.std.specs.Prelude.{◌≡◌, ℕ, None, Some, ◌+◌, ◌<◌, ◌≤◌, ◌^◌, true, false, length, slice_get, IfOk, IfSome, IfNone, OnErr};
ghost use Rattle.dn_flows.specs.Table.{OnlyUnreserves, flow_at, places};
ghost use Rattle.dn_types.specs.declared.flow_key.FlowKey.{FlowKey};
ghost use Rattle.dn_shaper.specs.Refinement.Making.{OnlyMakesRoom};
ghost use Rattle.dn_shaper.specs.Refinement.Reordering.{DiscardsSome, NoneActive, active_flows};
ghost use Rattle.dn_types.specs.Calls.{reaches};
ghost use Rattle.dn_types.specs.Configuration.{subject};
ghost use Rattle.dn_types.specs.declared.call.Call.TheVariants.{Configure};
ghost use Rattle.dn_shaper.specs.Refinement.Arriving.{KeepsFlows};
ghost use Rattle.dn_shaper.specs.Refinement.Configuring.{DiscardsReached, IsAnswered};
ghost use Rattle.dn_shaper.specs.Refinement.Settings.{settings_of};
ghost use Rattle.dn_shaper.specs.Refinement.Settling.{AreInStep};
ghost use Rattle.dn_shaper.specs.Refinement.Calls.{Does, StillStands};
ghost use Rattle.dn_shaper.specs.Refinement.Sound.{IsSound};
ghost use Rattle.dn_shaper.specs.Refinement.Starting.{Within};

use crate::links::discard::discard_flow;
use crate::links::link_heap::LinkHeap;
use crate::links::parts::Parts;
use crate::state::State;
use dn_flows::Flows;
use dn_types::{Command, Reply, Target};
use std::alloc::AllocError;

/// An active flow that a delete reaches, if there is one: one of the queue, or one on the pipe.
fn reached(flows: &mut Flows, command: &Command) -> Option<usize>
    ensures keys { flows.new.keys ≡ flows.old.keys }
    ensures many { length flows.new.flows ≡ length flows.old.flows }
    ensures flows { (flow : ℕ) → OnlyUnreserves (flow_at flows.old.flows flow) (flow_at flows.new.flows flow) }
    ensures places { places flows.new.flows ≤ places flows.old.flows }
    ensures within { IfSome result (λ flow. flow < length flows.new.flows) }
    ensures active { IfSome result (λ flow. (flow_at flows.new.flows flow).active ≡ true) }
    ensures reached { IfSome result (λ flow. (key : FlowKey) × (slice_get flows.new.keys flow ≡ Some key) × (reaches command.now key ≡ true)) }
    ensures none { IfNone result ((flow : ℕ) (key : FlowKey) → slice_get flows.new.keys flow ≡ Some key → reaches command.now key ≡ true → (flow_at flows.new.flows flow).active ≡ false) }
{
    match command {
        Command::DeletePipe(number) => flows.active(Target::Pipe(*number)),
        Command::DeleteQueue(number) => flows.active(Target::Queue(*number)),
        Command::Pipe { .. } => None,
        Command::Queue { .. } => None,
    }
}

/// The same among the parts, of which nothing else changes but room.
fn next_reached(parts: &mut Parts, command: &Command) -> Option<usize>
    ensures only { OnlyMakesRoom parts.old parts.new }
    ensures count { active_flows parts.new ≡ active_flows parts.old }
    ensures within { IfSome result (λ flow. flow < length parts.new.flows.flows) }
    ensures active { IfSome result (λ flow. (flow_at parts.new.flows.flows flow).active ≡ true) }
    ensures reached { IfSome result (λ flow. (key : FlowKey) × (slice_get parts.new.flows.keys flow ≡ Some key) × (reaches command.now key ≡ true)) }
    ensures none { IfNone result (NoneActive command.now parts.new) }
{
    reached(&mut parts.flows, command)
}

/// Discards the packets of an active flow that the delete reaches, and answers whether there was one.
fn discard_next(parts: &mut Parts, heap: &mut LinkHeap, command: &Command) -> bool
    requires kept { AreInStep parts.old heap.old }
    ensures discards { DiscardsSome command.now parts.old.flows.keys parts.old parts.new }
    ensures fewer { result ≡ true → active_flows parts.new + 1 ≡ active_flows parts.old }
    ensures none { result ≡ false → NoneActive command.now parts.new }
    ensures kept { AreInStep parts.new heap.new }
    ensures within { (n : ℕ) → Within n parts.old → Within n parts.new }
    ensures moves { heap.new.moves + parts.new.waiting ≤ heap.old.moves + parts.old.waiting }
    ensures keeps { KeepsFlows parts.old parts.new }
{
    match next_reached(parts, command) {
        Some(flow) => {
            discard_flow(parts, heap, flow);
            true
        }
        None => false,
    }
}

/// Discards the packets of all flows that the delete reaches.
///
/// The flows that aren't active have nothing to discard, and cost nothing. Neither do the links that it doesn't reach.
fn discard_reached(parts: &mut Parts, heap: &mut LinkHeap, command: &Command)
    requires kept { AreInStep parts.old heap.old }
    ensures discards { DiscardsReached command.now parts.old parts.new }
    ensures kept { AreInStep parts.new heap.new }
    ensures within { (n : ℕ) → Within n parts.old → Within n parts.new }
    ensures moves { heap.new.moves + parts.new.waiting ≤ heap.old.moves + parts.old.waiting }
    ensures keeps { KeepsFlows parts.old parts.new }
{
    while discard_next(parts, heap, command) {}
}

/// Returns the reply to a command, and changes what an accepted one changes.
///
/// An accepted command changes what is in force, and an accepted delete discards the packets of the flows that it reaches.
/// Memory is taken for a new pipe or queue alone, before any change.
pub fn configure(state: &mut State, command: &Command) -> Result<Reply, AllocError>
    requires sound { IsSound state.old }
    requires few { state.old.calls < 2 ^ 62 }
    ensures does { IfOk result (λ reply. Does (Configure command.now) state.old state.new reply) }
    ensures sound { IsSound state.new }
    ensures err { OnErr result (StillStands state.old state.new) }
    ensures only_new { OnErr result (settings_of state.old.configured (subject command.now) ≡ None) }
    ensures only_accepted { OnErr result (IsAnswered (settings_of state.old.configured) command.now Reply.Configured) }
{
    let reply = state.configured.reply(command);
    match &reply {
        Reply::Configured => state.configured.put(command)?,
        Reply::Deleted => {
            state.configured.remove(command);
            discard_reached(&mut state.parts, &mut state.heap, command);
        }
        _ => {}
    }
    state.calls += 1;
    Ok(reply)
}
