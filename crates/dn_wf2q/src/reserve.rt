ghost use Rattle.std.specs.Prelude.{◌≡◌, ◌+◌, ◌<◌, ◌≤◌, length, IsOk, OnOk, OnErr};
ghost use Rattle.std.specs.Vec.{vec_len, vec_capacity};
ghost use Rattle.dn_wf2q.specs.Schedule.{padded};
ghost use Rattle.dn_wf2q.specs.Kept.{IsSchedKept, flows_of};
ghost use Rattle.dn_wf2q.specs.Steps.{IsExtended, AddsSlots};

use crate::rank::SLOTS;
use crate::sched_parts::SchedParts;
use crate::tagged_queue::TaggedQueue;
use std::alloc::AllocError;

impl SchedParts {
    /// A queue at a slot, where there is none.
    #[inline(always)]
    pub(crate) fn reserve_flow(&mut self, slot: usize) -> Result<(), AllocError>
        requires kept { IsSchedKept self.old }
        ensures succeeds { slot < length self.old.flows.items → IsOk result }
        ensures ok { OnOk result (flows_of self.new ≡ padded (flows_of self.old) (slot + 1)) }
        ensures listed { OnOk result (slot < length self.new.flows.items) }
        ensures err { OnErr result (flows_of self.new ≡ flows_of self.old) }
        ensures reserves { AddsSlots self.old self.new }
        ensures kept { IsSchedKept self.new }
        ensures keeps_waiting { self.new.waiting.keys ≡ self.old.waiting.keys }
    {
        if slot < self.flows.len() {
            return Ok(());
        }
        self.add_flow(slot)
    }

    /// A queue at a slot that has none.
    ///
    /// It isn't inlined, since a slot is asked for room many times after that.
    #[inline(never)]
    fn add_flow(&mut self, slot: usize) -> Result<(), AllocError>
        requires kept { IsSchedKept self.old }
        requires above { length self.old.flows.items ≤ slot }
        ensures ok { OnOk result (flows_of self.new ≡ padded (flows_of self.old) (slot + 1)) }
        ensures listed { OnOk result (slot < length self.new.flows.items) }
        ensures err { OnErr result (flows_of self.new ≡ flows_of self.old) }
        ensures reserves { AddsSlots self.old self.new }
        ensures kept { IsSchedKept self.new }
        ensures keeps_waiting { self.new.waiting.keys ≡ self.old.waiting.keys }
    {
        // A key of the heaps has no room for a slot beyond these.
        if slot >= SLOTS {
            return Err(AllocError);
        }
        let flows = slot + 1;
        self.flows.reserve(flows - self.flows.len())?;
        // Each heap has a place for every flow. What an earlier call got before it was refused
        // counts too, so that refusals don't add up.
        self.eligible.reserve_numbers(flows)?;
        self.waiting.reserve_numbers(flows)?;
        add_queues(&mut self.flows, slot);
        Ok(())
    }
}

/// Adds queues that have had no packet, the last of them at `slot`.
fn add_queues(flows: &mut Vec<TaggedQueue>, slot: usize)
    requires above { vec_len flows.old ≤ slot }
    requires room { slot < vec_capacity flows.old }
    ensures extended { IsExtended flows.old.items flows.new.items }
    ensures len { length flows.new.items ≡ slot + 1 }
{
    'blanks: while flows.len() < slot {
        flows.push_reserved(TaggedQueue::new());
    }
    flows.push_reserved(TaggedQueue::new());
}
