ghost use Rattle.std.specs.Prelude.{◌≡◌, ◌+◌, ◌*◌, ◌≤◌, ◌↔◌, IsTrue};
ghost use Rattle.dn_wf2q.specs.Schedule.{IsIdle};
ghost use Rattle.dn_wf2q.specs.Kept.{IsSchedKept, NoneDue, flows_of};
ghost use Rattle.dn_wf2q.specs.Steps.{Begins};

use crate::rank::Rank;
use crate::tagged_queue::TaggedQueue;
use dn_heap::PlacedHeap;

/// What a scheduler is made of.
///
/// Each backlogged flow is in one of the heaps: by its head's finish tag in the eligible one, by its head's start tag in
/// the waiting one.
#[derive(Drop)]
pub(crate) struct SchedParts {
    pub(crate) flows: Vec<TaggedQueue>,
    pub(crate) eligible: PlacedHeap<Rank>,
    pub(crate) waiting: PlacedHeap<Rank>,
    pub(crate) virtual_time: u128,
    /// The sum of the heads' weights.
    pub(crate) weights: u128,
    /// The count of arrivals when the busy period began.
    pub(crate) busy_from: u64,
    pub(crate) arrivals: u64,
    pub(crate) picks: u64,
}

impl SchedParts {
    /// Whether no packet waits. A head weighs at least 1.
    pub(crate) fn is_idle(&self) -> bool
        requires kept { IsSchedKept self.now }
        ensures idle { IsTrue result ↔ IsIdle (flows_of self.now) }
    {
        self.weights == 0
    }

    pub(crate) fn moves(&self) -> u64
        requires kept { IsSchedKept self.now }
        ensures value { result ≡ self.now.eligible.moves + self.now.waiting.moves }
        ensures least { self.now.picks ≤ result }
        ensures most { result ≤ 2 * self.now.arrivals }
    {
        self.eligible.moves() + self.waiting.moves()
    }

    pub(crate) fn begin_busy(&mut self)
        requires kept { IsSchedKept self.old }
        requires idle { IsIdle (flows_of self.old) }
        ensures begun { Begins self.old self.new }
        ensures kept { IsSchedKept self.new }
        ensures none_due { NoneDue self.new }
    {
        self.virtual_time = 0;
        self.busy_from = self.arrivals;
    }
}
