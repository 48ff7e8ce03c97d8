ghost use Rattle.std.specs.Prelude.{◌≡◌, ℕ, ◌<◌, ◌≤◌, ◌^◌, max, true, List, [], is_some, IfOk, IsOk, OnErr};
ghost use Rattle.dn_types.specs.Flows.{treatment};
ghost use Rattle.dn_types.specs.Trace.{Event};
ghost use Rattle.dn_types.specs.declared.call.Call.{Call as CallValue};
ghost use Rattle.dn_types.specs.declared.call.Call.TheVariants.{Submit};
ghost use Rattle.dn_types.specs.declared.rule.Rule.{Rule as RuleValue};
ghost use Rattle.dn_shaper.specs.Refinement.Agreement.{AgreesWith};
ghost use Rattle.dn_shaper.specs.Refinement.Calls.{counted_at, Does, StillStands};
ghost use Rattle.dn_shaper.specs.Refinement.Settings.{settings_of};
ghost use Rattle.dn_shaper.specs.Refinement.Sound.{IsSound};
ghost use Rattle.dn_shaper.specs.Room.{HasRoomBy, KeepsOthersRoom};
ghost use Rattle.dn_shaper.specs.Standing.{StandsAt};

use crate::links::judge::judge;
use crate::links::settle::settle;
use crate::room::prepare::prepare;
use crate::state::State;
use dn_types::{Moment, Packet, Reply, Target};
use std::alloc::{AllocError, Global};

/// Settles up to the moment, and sends a packet to a target.
///
/// The clock stays, and the call isn't counted yet. Memory is taken for the packet, and for its flow if that is new, before
/// any change.
fn send_packet(
    state: &mut State,
    alloc: Global,
    target: &Target,
    packet: &Packet,
    at: u64,
) -> Result<Reply, AllocError>
    requires sound { IsSound state.old }
    requires few { state.old.calls < 2 ^ 62 }
    requires early { at ≤ 2 ^ 62 }
    requires seen { (trace : List Event) × AgreesWith state.old.parts [] trace }
    ensures does { IfOk result (λ reply. (moment : ℕ) → at ≡ max state.old.now moment → Does (Submit target.now packet.now moment) state.old (counted_at at state.new) reply) }
    ensures sound { IfOk result (λ reply. IsSound (counted_at at state.new)) }
    ensures calls { state.new.calls ≡ state.old.calls }
    ensures err { OnErr result (StillStands state.old state.new) }
    ensures still_sound { OnErr result (IsSound state.new) }
    ensures only_treated { OnErr result (is_some (treatment (settings_of state.old.configured target.now)) ≡ true) }
    ensures succeeds { HasRoomBy (treatment (settings_of state.old.configured target.now)) target.now packet.now.tuple state.old.parts → IsOk result }
    ensures leaves { KeepsOthersRoom target.now packet.now.tuple state.old state.new }
{
    match state.configured.treatment(*target) {
        None => {
            settle(&mut state.parts, &mut state.heap, &state.configured, at);
            Ok(Reply::NoTarget { at })
        }
        Some(how) => {
            let flow = prepare(state, alloc, how.key(packet))?;
            let reply = judge(
                &mut state.parts,
                &mut state.heap,
                &state.configured,
                flow,
                packet,
                &how,
                at,
            );
            Ok(reply)
        }
    }
}

/// Moves the clock, settles, and sends a packet to a target.
///
/// Memory is taken for the packet, and for its flow if that is new, before any change.
pub fn submit(
    state: &mut State,
    alloc: Global,
    target: Target,
    packet: &Packet,
    moment: Moment,
) -> Result<Reply, AllocError>
    requires sound { IsSound state.old }
    requires few { state.old.calls < 2 ^ 62 }
    requires stands { (rule : RuleValue) × (calls : List CallValue) × StandsAt rule state.old calls }
    ensures does { IfOk result (λ reply. Does (Submit target packet.now moment) state.old state.new reply) }
    ensures sound { IsSound state.new }
    ensures err { OnErr result (StillStands state.old state.new) }
    ensures only_treated { OnErr result (is_some (treatment (settings_of state.old.configured target)) ≡ true) }
    ensures succeeds { HasRoomBy (treatment (settings_of state.old.configured target)) target packet.now.tuple state.old.parts → IsOk result }
    ensures leaves { KeepsOthersRoom target packet.now.tuple state.old state.new }
{
    let at = state.now.max(moment.get());
    let reply = send_packet(state, alloc, &target, packet, at)?;
    state.now = at;
    state.calls += 1;
    Ok(reply)
}
