ghost use Rattle.dn_wf2q.specs.Kept.{IsSchedKept, NoneDue};
ghost use Rattle.dn_wf2q.specs.Steps.{DiscardsSlot};

use crate::sched_parts::SchedParts;

impl SchedParts {
    /// Lets all packets of a slot go, and its last finish tag.
    ///
    /// Its head is in the eligible heap if its start tag is at most virtual time, since no head that is waits to be moved there.
    pub(crate) fn discard(&mut self, slot: usize)
        requires kept { IsSchedKept self.old }
        requires none_due { NoneDue self.old }
        ensures discarded { DiscardsSlot slot self.old self.new }
        ensures kept { IsSchedKept self.new }
        ensures none_due { NoneDue self.new }
    {
        if self.flows.len() <= slot {
            return;
        }
        let q = &mut self.flows[slot];
        let head = q.head();
        q.clear();
        let Some(head) = head else {
            return;
        };
        self.weights -= head.weight as u128;
        if head.start_tag <= self.virtual_time {
            let _ = self.eligible.take_number(slot);
        } else {
            let _ = self.waiting.take_number(slot);
        }
    }
}
