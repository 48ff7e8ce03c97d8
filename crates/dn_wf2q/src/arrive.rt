ghost use Rattle.std.specs.Prelude.{◌≡◌, ◌<◌, ◌≤◌, ◌^◌, length};
ghost use Rattle.dn_wf2q.specs.Kept.{IsSchedKept, IsKeptWithout, NoneDue};
ghost use Rattle.dn_wf2q.specs.Steps.{ArrivesAtSlot, OnlyHeaps};

use crate::rank::Rank;
use crate::sched_parts::SchedParts;
use crate::tagged_packet::TaggedPacket;

impl SchedParts {
    /// A packet joins the queue at a slot.
    pub(crate) fn arrive(&mut self, slot: usize, len: u16, weight: u8)
        requires kept { IsSchedKept self.old }
        requires listed { slot < length self.old.flows.items }
        requires few { self.old.arrivals < 2 ^ 62 }
        requires some { 0 < weight }
        requires in_range { weight ≤ 100 }
        ensures arrived { ArrivesAtSlot slot len weight self.old self.new }
        ensures kept { IsSchedKept self.new }
        ensures none_due { NoneDue self.old → NoneDue self.new }
    {
        self.arrivals += 1;
        let q = &mut self.flows[slot];
        let head = q.append(
            self.busy_from,
            self.virtual_time,
            self.arrivals,
            len,
            weight,
        );
        if let Some(head) = head {
            self.enter(slot, head);
        }
    }

    /// The head of a flow enters the heap in which it belongs.
    #[inline(always)]
    pub(crate) fn enter(&mut self, slot: usize, head: TaggedPacket)
        requires kept { IsKeptWithout slot head self.old }
        ensures same { OnlyHeaps self.old self.new }
        ensures kept { IsSchedKept self.new }
        ensures none_due { NoneDue self.old → NoneDue self.new }
    {
        self.weights += head.weight as u128;
        if head.start_tag <= self.virtual_time {
            self.eligible
                .push_reserved(Rank::new(head.finish_tag, slot));
        } else {
            self.waiting.push_reserved(Rank::new(head.start_tag, slot));
        }
    }
}
