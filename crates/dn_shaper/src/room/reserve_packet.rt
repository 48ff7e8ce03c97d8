ghost use Rattle.std.specs.Prelude.{◌≡◌, ℕ, true, false, List, ◌<◌, ◌^◌, IfOk, IsOk};
ghost use Rattle.dn_types.specs.Flows.{treatment};
ghost use Rattle.dn_types.specs.declared.call.Call.{Call as CallValue};
ghost use Rattle.dn_types.specs.declared.rule.Rule.{Rule as RuleValue};
ghost use Rattle.dn_shaper.specs.Refinement.Calls.{StillStands};
ghost use Rattle.dn_shaper.specs.Refinement.Settings.{settings_of};
ghost use Rattle.dn_shaper.specs.Refinement.Sound.{IsSound};
ghost use Rattle.dn_shaper.specs.Room.{HasRoomBy, IsNewBy, KeepsRoom};

use crate::room::reserve::reserve_for;
use crate::state::State;
use dn_types::{Packet, Target};
use std::alloc::AllocError;

/// Makes room for a packet to the target, unless its flow is new, and says whether there is room.
///
/// A packet to a target that isn't configured needs none.
pub fn reserve_packet(
    state: &mut State,
    target: Target,
    packet: &Packet,
) -> Result<bool, AllocError>
    requires sound { IsSound state.old }
    requires few { state.old.calls < 2 ^ 62 }
    ensures room { IfOk result (λ there. there ≡ true → HasRoomBy (treatment (settings_of state.new.configured target)) target packet.now.tuple state.new.parts) }
    ensures succeeds { HasRoomBy (treatment (settings_of state.old.configured target)) target packet.now.tuple state.old.parts → IsOk result }
    ensures known { IfOk result (λ there. there ≡ false → IsNewBy (treatment (settings_of state.old.configured target)) target packet.now.tuple state.old.parts.flows.keys) }
    ensures leaves { KeepsRoom state.old state.new }
    ensures still { StillStands state.old state.new }
    ensures sound { IsSound state.new }
{
    match state.configured.treatment(target) {
        None => Ok(true),
        Some(how) => reserve_for(&mut state.parts, &how.key(packet)),
    }
}
