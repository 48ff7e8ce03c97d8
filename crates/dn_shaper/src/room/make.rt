//! The making of a flow's home. All growths come before the first change.
ghost use Rattle.std.specs.Prelude.{◌≡◌, ℕ, ◌+◌, ◌-◌, ◌<◌, ◌^◌, false, Some, length, map, slice_get, IfOk, OnErr, OnOk};
ghost use Rattle.dn_types.specs.Calls.{link_of};
ghost use Rattle.dn_types.specs.Trace.{shared as shared_link};
ghost use Rattle.dn_flows.specs.Table.{flow_at, IsUnused};
ghost use Rattle.dn_shaper.specs.Refinement.Agreement.{link_names};
ghost use Rattle.dn_shaper.specs.Refinement.Homing.{GivesHome, HousesFor, IsNewLink, IsNotedAmong, KeepsHeap, KeepsLinks, OnlyReserves, OpensFor, Shares, TakesSlot, NotesFor, without_last};
ghost use Rattle.dn_shaper.specs.Refinement.Making.{KeepsLink};
ghost use Rattle.dn_shaper.specs.Refinement.Views.{queue_lengths, view_of, views_of};

use crate::links::link_heap::LinkHeap;
use crate::links::link_parts::{Carries, LinkParts};
use crate::links::shared_link::SharedLink;
use crate::links::short::short;
use crate::room::shared_places::SharedPlaces;
use crate::state::State;
use dn_flows::Home;
use dn_link::Link;
use dn_types::{FlowKey, Target};
use std::alloc::{AllocError, Global};

/// A new flow takes the next slot of a shared link, with room for a packet.
#[tactic(auto, using(crate::proofs::Scheduled::waits_roomy))]
fn take_slot(link: &mut LinkParts, flow: usize) -> Result<u32, AllocError>
    requires is_shared { (queues : ℕ → ℕ) × (pipe : ℕ) × ((view_of queues link.old).link ≡ shared_link pipe) }
    ensures slot { (queues : ℕ → ℕ) → IfOk result (λ slot. slot ≡ length (view_of queues link.old).slots) }
    ensures takes { (queues : ℕ → ℕ) → OnOk result (TakesSlot flow (view_of queues link.old) (view_of queues link.new)) }
    ensures err { (queues : ℕ → ℕ) → OnErr result (KeepsLink (view_of queues link.old) (view_of queues link.new)) }
{
    match &mut link.carries {
        Carries::Own(_) => unreachable!(),
        Carries::Shared(shared) => shared.take_slot(flow),
    }
}

/// A new flow gets its home on the link at the place, which is shared.
fn share_link(links: &mut Vec<LinkParts>, place: u32, flow: usize) -> Result<Home, AllocError>
    requires is_shared { (queues : ℕ → ℕ) × (pipe : ℕ) × (slice_get (link_names (map (view_of queues) links.old.items)) place ≡ Some (shared_link pipe)) }
    ensures shares { (queues : ℕ → ℕ) → IfOk result (λ home. Shares flow place home (map (view_of queues) links.old.items) (map (view_of queues) links.new.items)) }
    ensures err { (queues : ℕ → ℕ) → OnErr result (KeepsLinks (map (view_of queues) links.old.items) (map (view_of queues) links.new.items)) }
{
    let slot = take_slot(&mut links[place as usize], flow)?;
    Ok(Home { place, slot })
}

/// A link on which nothing has started, for a new flow with the key, with room for a packet.
///
/// It is one of its own, or the one that the queues on its pipe share from now on.
fn new_link(alloc: Global, key: &FlowKey, flow: usize) -> Result<LinkParts, AllocError>
    ensures { (queues : ℕ → ℕ) → queues flow ≡ 0 → IfOk result (λ made. IsNewLink (link_of key.now.target flow key.now.pipe) flow (view_of queues made)) }
{
    let carries = match key.target {
        Target::Pipe(_) => Carries::Own(flow),
        Target::Queue(_) => {
            let mut shared = SharedLink::new(alloc);
            shared.take_slot(flow)?;
            Carries::Shared(Box::new(alloc, shared)?)
        }
    };
    Ok(LinkParts {
        pipe: key.pipe,
        times: Link::new(),
        carries,
    })
}

/// A new flow gets its home on a link that is made for it at the end.
fn make_link(
    links: &mut Vec<LinkParts>,
    heap: &mut LinkHeap,
    shared: &mut SharedPlaces,
    alloc: Global,
    key: &FlowKey,
    flow: usize,
) -> Result<Home, AllocError>
    ensures opens { (queues : ℕ → ℕ) → queues flow ≡ 0 → IfOk result (λ home. OpensFor key.now flow home links.old.items links.new.items heap.new queues) }
    ensures notes { IfOk result (λ home. NotesFor key.now.target key.now.pipe home.place shared.old shared.new) }
    ensures heap { KeepsHeap heap.old heap.new }
    ensures err { OnErr result (links.new.items ≡ links.old.items) }
    ensures unnoted { OnErr result (shared.new ≡ shared.old) }
{
    let place = short(links.len())?;
    links.reserve(1)?;
    heap.reserve(links.len() + 1)?;
    let link = new_link(alloc, key, flow)?;
    shared.note(key, place)?;
    links.push_reserved(link);
    Ok(Home { place, slot: 0 })
}

/// A new flow with the key gets its home.
///
/// The home is on the link that it shares, if there is one, and else on one that is made.
fn find_home(
    links: &mut Vec<LinkParts>,
    heap: &mut LinkHeap,
    shared: &mut SharedPlaces,
    alloc: Global,
    key: &FlowKey,
    flow: usize,
) -> Result<Home, AllocError>
    requires noted { (queues : ℕ → ℕ) × IsNotedAmong key.now shared.old (map (view_of queues) links.old.items) }
    ensures houses { (queues : ℕ → ℕ) → queues flow ≡ 0 → IfOk result (λ home. HousesFor key.now flow home links.old.items links.new.items heap.new shared.old shared.new queues) }
    ensures heap { KeepsHeap heap.old heap.new }
    ensures err { (queues : ℕ → ℕ) → OnErr result (KeepsLinks (map (view_of queues) links.old.items) (map (view_of queues) links.new.items)) }
    ensures unnoted { OnErr result (shared.new ≡ shared.old) }
{
    match shared.place_for(key) {
        Some(place) => share_link(links, place, flow),
        None => make_link(links, heap, shared, alloc, key, flow),
    }
}

/// Gives the last flow, which is new, its home, with room for a packet.
fn make_home(state: &mut State, alloc: Global, key: &FlowKey, flow: usize) -> Result<(), AllocError>
    requires within { flow < length state.old.parts.flows.flows }
    requires empty { queue_lengths state.old.parts.flows.flows flow ≡ 0 }
    requires few { state.old.parts.waiting < 2 ^ 62 }
    requires noted { IsNotedAmong key.now state.old.shared (views_of state.old.parts) }
    ensures gives { OnOk result (GivesHome key.now flow state.old state.new) }
    ensures err { OnErr result (OnlyReserves state.old state.new) }
{
    let places = state.parts.flows.places_with(flow);
    state.parts.line.reserve(state.parts.waiting + places)?;
    state.parts.flows.reserve_place(flow)?;
    let home = find_home(
        &mut state.parts.links,
        &mut state.heap,
        &mut state.shared,
        alloc,
        key,
        flow,
    )?;
    state.parts.flows.set_home(flow, home);
    Ok(())
}

/// Gives the last flow, which was made for a packet, its home, with room for the packet.
///
/// If memory is refused, the flow is taken out again.
pub fn house_last(
    state: &mut State,
    alloc: Global,
    key: &FlowKey,
    flow: usize,
) -> Result<(), AllocError>
    requires last { flow + 1 ≡ length state.old.parts.flows.flows }
    requires unused { IsUnused (flow_at state.old.parts.flows.flows (length state.old.parts.flows.flows - 1)) }
    requires placeless { (flow_at state.old.parts.flows.flows (length state.old.parts.flows.flows - 1)).reserved ≡ false }
    requires few { state.old.parts.waiting < 2 ^ 62 }
    requires noted { IsNotedAmong key.now state.old.shared (views_of state.old.parts) }
    ensures gives { OnOk result (GivesHome key.now flow state.old state.new) }
    ensures err { OnErr result (OnlyReserves (without_last state.old) state.new) }
{
    if make_home(state, alloc, key, flow).is_err() {
        state.parts.flows.forget_last();
        return Err(AllocError);
    }
    Ok(())
}
