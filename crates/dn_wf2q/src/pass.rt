ghost use Rattle.std.specs.Prelude.{◌≡◌, ◌<◌, ◌≤◌, ◌^◌, length};
ghost use Rattle.dn_wf2q.specs.Schedule.{IsIdle};
ghost use Rattle.dn_wf2q.specs.Kept.{IsSchedKept, NoneDue, flows_of};
ghost use Rattle.dn_wf2q.specs.Steps.{PassesSlot};

use crate::rank::Rank;
use crate::scaled::cost;
use crate::sched_parts::SchedParts;

impl SchedParts {
    /// A packet that comes where none waits is sent at once.
    ///
    /// Its start tag is 0, and alone it lets virtual time grow by its own cost. Its key passes an empty heap, and counts as
    /// a push.
    pub(crate) fn pass(&mut self, slot: usize, len: u16, weight: u8)
        requires kept { IsSchedKept self.old }
        requires idle { IsIdle (flows_of self.old) }
        requires listed { slot < length self.old.flows.items }
        requires few { self.old.arrivals < 2 ^ 62 }
        requires some { 0 < weight }
        requires in_range { weight ≤ 100 }
        ensures passes { PassesSlot slot len weight self.old self.new }
        ensures kept { IsSchedKept self.new }
        ensures none_due { NoneDue self.new }
    {
        let finish_tag = cost(len, weight) as u128;
        self.busy_from = self.arrivals;
        self.arrivals += 1;
        self.picks += 1;
        self.virtual_time = finish_tag;
        let q = &mut self.flows[slot];
        q.finish_tag = finish_tag;
        q.arrived = self.arrivals;
        let _ = self.eligible.push_pop(Rank::new(finish_tag, slot));
    }
}
