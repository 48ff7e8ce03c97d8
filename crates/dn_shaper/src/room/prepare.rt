ghost use Rattle.std.specs.Prelude.{◌≡◌, ◌<◌, ◌^◌, List, [], length, IfOk, IsOk, OnOk, OnErr};
ghost use Rattle.dn_types.specs.Flows.{flow_number, with_key};
ghost use Rattle.dn_types.specs.Trace.{Event};
ghost use Rattle.dn_shaper.specs.Refinement.Agreement.{AgreesWith};
ghost use Rattle.dn_shaper.specs.Refinement.Making.{KeepsCalls, Prepares, OnlyMakesRoom};
ghost use Rattle.dn_shaper.specs.Refinement.Sound.{IsSound};
ghost use Rattle.dn_shaper.specs.Refinement.Starting.{IsReady, KeepsReady};
ghost use Rattle.dn_shaper.specs.Refinement.Submitting.{GoesTo};
ghost use Rattle.dn_shaper.specs.Room.{HasRoomOf};

use crate::room::make::house_last;
use crate::room::reserve::reserve_known;
use crate::state::State;
use dn_types::FlowKey;
use std::alloc::{AllocError, Global};

/// The number of the flow with the key, which is made if no flow has it, with room for one more packet.
///
/// A flow that was made for a packet that then finds no memory is taken out again.
pub fn prepare(state: &mut State, alloc: Global, key: FlowKey) -> Result<usize, AllocError>
    requires sound { IsSound state.old }
    requires few { state.old.calls < 2 ^ 62 }
    requires seen { (trace : List Event) × AgreesWith state.old.parts [] trace }
    ensures number { IfOk result (λ flow. flow ≡ flow_number state.old.parts.flows.keys key) }
    ensures within { IfOk result (λ flow. flow < length state.new.parts.flows.keys) }
    ensures keys { OnOk result (state.new.parts.flows.keys ≡ with_key key state.old.parts.flows.keys) }
    ensures goes { IfOk result (λ flow. GoesTo flow key.target state.new.parts) }
    ensures ready { IfOk result (λ flow. IsReady flow state.new.parts) }
    ensures prepares { IfOk result (λ flow. Prepares flow state.old.parts state.new.parts) }
    ensures err { OnErr result (OnlyMakesRoom state.old.parts state.new.parts) }
    ensures succeeds { HasRoomOf key state.old.parts → IsOk result }
    ensures leaves { KeepsReady state.old.parts state.new.parts }
    ensures sound { IsSound state.new }
    ensures keeps { KeepsCalls state.old state.new }
{
    let known = state.parts.flows.len();
    let flow = state.parts.flows.find_or_make(key)?;
    if flow < known {
        reserve_known(&mut state.parts, flow, &key.target)?;
    } else {
        house_last(state, alloc, &key, flow)?;
    }
    Ok(flow)
}
