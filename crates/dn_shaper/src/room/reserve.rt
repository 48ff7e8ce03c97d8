ghost use Rattle.std.specs.Prelude.{◌≡◌, ℕ, true, ◌<◌, ◌^◌, length, IfOk, IsOk, OnOk};
ghost use Rattle.dn_flows.specs.Table.{is_known};
ghost use Rattle.dn_shaper.specs.Refinement.Agreement.{Agrees};
ghost use Rattle.dn_shaper.specs.Refinement.Making.{HasSlotRoom, KeepsLink, KeepsPlaces, OnlyMakesRoom};
ghost use Rattle.dn_shaper.specs.Refinement.Starting.{HoldsPlaces, IsReady};
ghost use Rattle.dn_shaper.specs.Refinement.Submitting.{GoesTo};
ghost use Rattle.dn_shaper.specs.Refinement.Views.{view_of};
ghost use Rattle.dn_shaper.specs.Room.{HasRoomOf};

use crate::links::link_parts::{Carries, LinkParts};
use crate::links::parts::Parts;
use dn_types::{FlowKey, Target};
use std::alloc::AllocError;

/// Makes room for one more packet at the slot of a link. A link of one flow needs none.
#[tactic(auto, using(crate::proofs::Scheduled::waits_roomy))]
fn reserve_at(link: &mut LinkParts, slot: usize) -> Result<(), AllocError>
    ensures ok { (queues : ℕ → ℕ) → OnOk result (HasSlotRoom slot (view_of queues link.new) (view_of queues link.new).link) }
    ensures succeeds { (queues : ℕ → ℕ) → HasSlotRoom slot (view_of queues link.old) (view_of queues link.old).link → IsOk result }
    ensures keeps { (queues : ℕ → ℕ) → KeepsLink (view_of queues link.old) (view_of queues link.new) }
{
    match &mut link.carries {
        Carries::Own(_) => Ok(()),
        Carries::Shared(shared) => shared.reserve_slot(slot),
    }
}

/// Makes room for one more packet of a flow that is known.
///
/// The room is in the flow's queue, at its slot if its link is shared, and in the delay line, which also keeps the room of the
/// other flows with a reserved place. It changes nothing but room, also if memory is refused.
pub fn reserve_known(parts: &mut Parts, flow: usize, target: &Target) -> Result<(), AllocError>
    requires agrees { Agrees parts.old }
    requires within { flow < length parts.old.flows.keys }
    requires goes { GoesTo flow target.now parts.old }
    requires few { parts.old.waiting < 2 ^ 62 }
    requires holds { HoldsPlaces parts.old }
    ensures ready { OnOk result (IsReady flow parts.new) }
    ensures succeeds { IsReady flow parts.old → IsOk result }
    ensures only { OnlyMakesRoom parts.old parts.new }
    ensures placed { KeepsPlaces parts.old.flows.flows parts.new.flows.flows }
{
    let home = parts.flows.home(flow);
    let places = parts.flows.places_with(flow);
    parts.line.reserve(parts.waiting + places)?;
    parts.flows.reserve_place(flow)?;
    match target {
        Target::Pipe(_) => Ok(()),
        Target::Queue(_) => {
            reserve_at(&mut parts.links[home.place as usize], home.slot as usize)
        }
    }
}

/// Makes room for one more packet of the flow with the key, if a flow has it, and says whether one has.
///
/// It changes nothing but room, also if memory is refused.
pub fn reserve_for(parts: &mut Parts, key: &FlowKey) -> Result<bool, AllocError>
    requires agrees { Agrees parts.old }
    requires few { parts.old.waiting < 2 ^ 62 }
    requires holds { HoldsPlaces parts.old }
    ensures known { IfOk result (λ known. known ≡ is_known key.now parts.old.flows.keys) }
    ensures room { IfOk result (λ known. known ≡ true → HasRoomOf key.now parts.new) }
    ensures succeeds { HasRoomOf key.now parts.old → IsOk result }
    ensures only { OnlyMakesRoom parts.old parts.new }
    ensures placed { KeepsPlaces parts.old.flows.flows parts.new.flows.flows }
{
    let Some(flow) = parts.flows.find(key) else {
        return Ok(false);
    };
    reserve_known(parts, flow, &key.target)?;
    Ok(true)
}
