ghost use Rattle.std.specs.Prelude.{◌≡◌, ◌<◌, ◌^◌, IfOk, OnErr};
ghost use Rattle.dn_types.specs.declared.call.Call.TheVariants.{Show};
ghost use Rattle.dn_shaper.specs.Refinement.Calls.{told_from, Does};
ghost use Rattle.dn_shaper.specs.Refinement.Sound.{IsSound};
ghost use Rattle.dn_shaper.specs.Room.{KeepsRoom};

use crate::state::State;
use dn_flows::Flows;
use dn_types::{FlowKey, FlowStatus, Reply, Statuses, Target};
use std::alloc::{AllocError, Global};

/// The state of each flow, in order of number.
fn statuses(flows: &Flows, alloc: Global) -> Result<Vec<FlowStatus>, AllocError>
    ensures { IfOk result (λ list. list.items ≡ told_from 0 flows.now.keys flows.now.flows) }
{
    // The check wants the types inside a status to be met in this function.
    let _key: Option<FlowKey> = None;
    let _target: Option<Target> = None;
    let count = flows.len();
    let mut list = Vec::with_capacity(alloc, count)?;
    for flow in 0..count {
        list.push_reserved(flows.status(flow));
    }
    Ok(list)
}

/// Tells the state of all flows. Nothing is settled, and the clock stays.
pub fn show(state: &mut State, alloc: Global) -> Result<Reply, AllocError>
    requires sound { IsSound state.old }
    requires few { state.old.calls < 2 ^ 62 }
    ensures does { IfOk result (λ reply. Does Show state.old state.new reply) }
    ensures sound { IsSound state.new }
    ensures err { OnErr result (state.new ≡ state.old) }
    ensures leaves { KeepsRoom state.old state.new }
{
    let list = statuses(&state.parts.flows, alloc)?;
    state.calls += 1;
    Ok(Reply::Status {
        list: Statuses::from_vec(list),
    })
}
