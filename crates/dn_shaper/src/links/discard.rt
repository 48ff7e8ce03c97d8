ghost use Rattle.std.specs.Prelude.{◌≡◌, ℕ, ◌+◌, ◌<◌, ◌≤◌, ◌^◌, true, length, slice_get, Some};
ghost use Rattle.dn_flows.specs.Table.{flow_at};
ghost use Rattle.dn_shaper.specs.Refinement.Arriving.{KeepsFlows};
ghost use Rattle.dn_shaper.specs.Refinement.Discarding.{DiscardsFlow, DiscardsAt, HoldsCount, LeavesAtSlot};
ghost use Rattle.dn_shaper.specs.Refinement.Reordering.{active_flows};
ghost use Rattle.dn_shaper.specs.Refinement.Settling.{AreInStep};
ghost use Rattle.dn_shaper.specs.Refinement.Starting.{Within};
ghost use Rattle.dn_shaper.specs.Refinement.Views.{LinkView, IsAlone, view_of, views_of};

use crate::links::link_heap::LinkHeap;
use crate::links::link_parts::{Carries, LinkParts};
use crate::links::next_start::NextStart;
use crate::links::parts::Parts;
use dn_flows::Home;

/// The packets at the slot no longer wait for the link, if it is shared.
///
/// Those of an own link wait in its flow's queue alone.
fn leave_link(link: &mut LinkParts, slot: usize)
    ensures { LeavesAtSlot slot link.old link.new }
{
    if let Carries::Shared(shared) = &mut link.carries {
        shared.sched.discard(slot);
    }
}

/// Discards the packets of the flow, which never start.
fn empty_flow(parts: &mut Parts, home: Home, flow: usize, count: usize)
    requires at { (v : LinkView) × (slice_get (views_of parts.old) home.place ≡ Some v) × HoldsCount home.slot count v v.link }
    requires alone { IsAlone flow home.place (views_of parts.old) }
    requires within { flow < length parts.old.flows.flows }
    requires all { count ≡ length (flow_at parts.old.flows.flows flow).backlog }
    requires few { (flow_at parts.old.flows.flows flow).discarded + length (flow_at parts.old.flows.flows flow).backlog ≤ 2 ^ 62 }
    requires waiting { count ≤ parts.old.waiting }
    ensures { DiscardsAt home flow parts.old parts.new }
{
    let link = &mut parts.links[home.place as usize];
    leave_link(link, home.slot as usize);
    parts.flows.discard(flow);
    parts.waiting -= count;
}

/// Discards the packets of the flow as a delete does.
///
/// A link that this empties leaves its key in the heap of links, where it counts no more.
pub fn discard_flow(parts: &mut Parts, heap: &mut LinkHeap, flow: usize)
    requires kept { AreInStep parts.old heap.old }
    requires within { flow < length parts.old.flows.keys }
    ensures discards { DiscardsFlow flow parts.old parts.new }
    ensures fewer { (flow_at parts.old.flows.flows flow).active ≡ true → active_flows parts.new + 1 ≡ active_flows parts.old }
    ensures kept { AreInStep parts.new heap.new }
    ensures within { (n : ℕ) → Within n parts.old → Within n parts.new }
    ensures moves { heap.new.moves ≡ heap.old.moves }
    ensures waiting { parts.new.waiting ≤ parts.old.waiting }
    ensures keeps { KeepsFlows parts.old parts.new }
{
    let home = parts.flows.home(flow);
    let count = parts.flows.status(flow).queued as usize;
    empty_flow(parts, home, flow, count);
    if count == 0 {
        return;
    }
    let link = &parts.links[home.place as usize];
    if !link.has_backlog(&parts.flows) {
        let moment = link.times.free();
        heap.leave(NextStart {
            moment,
            place: home.place as usize,
        });
    }
}
