ghost use Rattle.std.specs.Prelude.{◌≡◌, ℕ, ◌+◌, ◌<◌, ◌≤◌, ◌^◌, length};
ghost use Rattle.dn_types.specs.Trace.{lost, refused};
ghost use Rattle.dn_shaper.specs.Refinement.Arriving.{KeepsFlows};
ghost use Rattle.dn_shaper.specs.Refinement.Settings.{settings_of};
ghost use Rattle.dn_shaper.specs.Refinement.Settling.{AreInStep};
ghost use Rattle.dn_shaper.specs.Refinement.Starting.{IsReady, KeepsOthersReady, KeepsReady, Within};
ghost use Rattle.dn_shaper.specs.Refinement.Submitting.{CanSee, GoesTo, Sees, Answers, treatment_of};
ghost use Rattle.dn_heap.specs.Heap.{Heap as HeapValue};
ghost use Rattle.dn_shaper.specs.declared.links.next_start.NextStart.{NextStart as NextStartValue};

use crate::links::accept::accept;
use crate::links::link_heap::LinkHeap;
use crate::links::parts::Parts;
use crate::links::settle::settle;
use crate::settings::configured::Configured;
use crate::settings::treatment::Treatment;
use dn_flows::Verdict;
use dn_types::{Packet, Reply};

/// A packet of the flow is lost by the loss rate.
fn note_lost(parts: &mut Parts, flow: usize)
    requires within { flow < length parts.old.flows.keys }
    requires few { (n : ℕ) × (n < 2 ^ 62) × Within n parts.old }
    requires seen { CanSee flow parts.old }
    ensures sees { Sees flow lost parts.old parts.new }
    ensures kept { (heap : HeapValue NextStartValue) → AreInStep parts.old heap → AreInStep parts.new heap }
    ensures within { (n : ℕ) → Within n parts.old → Within (n + 1) parts.new }
    ensures keeps { KeepsFlows parts.old parts.new }
    ensures waiting { parts.new.waiting ≡ parts.old.waiting }
    ensures leaves { KeepsReady parts.old parts.new }
{
    parts.flows.note_lost(flow);
}

/// A packet of the flow finds its queue full.
fn note_full(parts: &mut Parts, flow: usize)
    requires within { flow < length parts.old.flows.keys }
    requires few { (n : ℕ) × (n < 2 ^ 62) × Within n parts.old }
    requires seen { CanSee flow parts.old }
    ensures sees { Sees flow refused parts.old parts.new }
    ensures kept { (heap : HeapValue NextStartValue) → AreInStep parts.old heap → AreInStep parts.new heap }
    ensures within { (n : ℕ) → Within n parts.old → Within (n + 1) parts.new }
    ensures keeps { KeepsFlows parts.old parts.new }
    ensures waiting { parts.new.waiting ≡ parts.old.waiting }
    ensures leaves { KeepsReady parts.old parts.new }
{
    parts.flows.note_full(flow);
}

/// Settles, and then a packet of the flow is lost, or finds its queue full, or is accepted in reserved room.
pub fn judge(
    parts: &mut Parts,
    heap: &mut LinkHeap,
    configured: &Configured,
    flow: usize,
    packet: &Packet,
    how: &Treatment,
    at: u64,
) -> Reply
    requires kept { AreInStep parts.old heap.old }
    requires within { flow < length parts.old.flows.keys }
    requires goes { GoesTo flow how.now.target parts.old }
    requires ready { IsReady flow parts.old }
    requires early { at ≤ 2 ^ 62 }
    requires few { (n : ℕ) × (n < 2 ^ 62) × Within n parts.old }
    requires moves { heap.old.moves + parts.old.waiting + 2 ≤ 2 ^ 63 }
    requires seen { CanSee flow parts.old }
    ensures answers { Answers (settings_of configured.now) at flow packet.now (treatment_of how.now) parts.old parts.new result }
    ensures kept { AreInStep parts.new heap.new }
    ensures within { (n : ℕ) → Within n parts.old → Within (n + 1) parts.new }
    ensures moves { heap.new.moves + parts.new.waiting ≤ heap.old.moves + parts.old.waiting + 2 }
    ensures keeps { KeepsFlows parts.old parts.new }
    ensures leaves { KeepsOthersReady flow parts.old parts.new }
{
    settle(parts, heap, configured, at);
    match parts.flows.verdict(flow, packet, &how.drops) {
        Verdict::Lost => {
            note_lost(parts, flow);
            Reply::Lost { at, flow }
        }
        Verdict::Full => {
            note_full(parts, flow);
            Reply::Full { at, flow }
        }
        Verdict::Take => {
            let packet = accept(parts, heap, configured, flow, packet.len, how, at);
            Reply::Queued { at, flow, packet }
        }
    }
}
