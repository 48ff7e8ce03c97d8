ghost use Rattle.std.specs.Prelude.{◌≡◌, ◌<◌, [], ◌∷◌, ◌++◌, length, slice_get, IfOk, IsOk, OnErr, OnOk};
ghost use Rattle.std.specs.Option.{option_map};
ghost use Rattle.dn_flows.specs.Table.{flow_at};
ghost use Rattle.dn_wf2q.specs.Schedule.{KeepsRoom, room_at};
ghost use Rattle.dn_shaper.specs.Refinement.Making.{OnlyRoom};
ghost use Rattle.dn_shaper.specs.Refinement.Sending.{CanPick, HoldsQueues, PicksFlow, cost_of};
ghost use Rattle.dn_shaper.specs.Refinement.Views.{no_schedule};

use crate::links::short::short;
use dn_flows::Flows;
use dn_types::{Len, Weight};
use dn_wf2q::HeadSched;
use std::alloc::{AllocError, Global};

/// What the queues on a pipe share: the scheduler, and the number of each flow by its slot.
#[derive(Drop)]
pub struct SharedLink {
    pub sched: HeadSched,
    pub flows: Vec<u32>,
}

/// The length and weight of the packet behind the first one in the flow's queue.
fn behind_first(flow: usize, flows: &Flows) -> Option<(Len, Weight)>
    ensures { result ≡ option_map cost_of (slice_get (flow_at flows.now.flows flow).backlog 1) }
{
    match flows.second(flow) {
        Some(waiting) => Some((waiting.len, waiting.weight)),
        None => None,
    }
}

impl SharedLink {
    /// A link that no flow shares yet. It takes no memory.
    pub fn new(alloc: Global) -> SharedLink
        ensures sched { result.sched ≡ no_schedule }
        ensures flows { result.flows.items ≡ [] }
    {
        SharedLink {
            sched: HeadSched::new(alloc),
            flows: Vec::new(alloc),
        }
    }

    /// Gives a new flow the next slot, with room for a packet.
    pub fn take_slot(&mut self, flow: usize) -> Result<u32, AllocError>
        ensures slot { IfOk result (λ slot. slot ≡ length self.old.flows.items) }
        ensures flows { OnOk result (self.new.flows.items ≡ self.old.flows.items ++ flow ∷ []) }
        ensures room { OnOk result (0 < room_at self.new.sched.room (length self.old.flows.items)) }
        ensures only { OnlyRoom self.old.sched self.new.sched }
        ensures err { OnErr result (self.new.flows.items ≡ self.old.flows.items) }
    {
        let slot = short(self.flows.len())?;
        let flow = short(flow)?;
        self.flows.reserve(1)?;
        self.sched.reserve_flow(slot as usize)?;
        self.flows.push_reserved(flow);
        Ok(slot)
    }

    /// The flow whose packet is sent next, by the scheduler's pick. That packet leaves the scheduler.
    ///
    /// The scheduler keeps the first packet of each flow alone, so it is told the one behind.
    pub fn send_next(&mut self, flows: &Flows) -> usize
        requires can { CanPick self.old.flows.items self.old.sched }
        requires queues { HoldsQueues self.old.flows.items self.old.sched flows.now.flows }
        ensures sends { PicksFlow result self.old.flows.items self.old.sched self.new.sched }
        ensures arrivals { self.new.sched.arrivals ≡ self.old.sched.arrivals }
        ensures room { KeepsRoom self.old.sched self.new.sched }
        ensures flows { self.new.flows ≡ self.old.flows }
    {
        let slot = self.sched.first().unwrap();
        let flow = self.flows[slot] as usize;
        let behind = behind_first(flow, flows);
        self.sched.send(slot, behind);
        flow
    }

    /// Makes room for one more packet at the slot.
    pub fn reserve_slot(&mut self, slot: usize) -> Result<(), AllocError>
        ensures room { OnOk result (0 < room_at self.new.sched.room slot) }
        ensures succeeds { 0 < room_at self.old.sched.room slot → IsOk result }
        ensures only { OnlyRoom self.old.sched self.new.sched }
        ensures flows { self.new.flows ≡ self.old.flows }
    {
        self.sched.reserve_flow(slot)
    }
}
