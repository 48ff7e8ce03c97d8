ghost use Rattle.std.specs.Prelude.{◌≡◌, ◌+◌, ◌<◌, IfSome, IfNone, None, ◌↔◌, true, false, drop, length};
ghost use Rattle.std.specs.List.{filter};
ghost use Rattle.std.specs.Option.{option_map};
ghost use Rattle.dn_types.specs.Wf2q.{first_to_go, is_eligible, pick, raised};
ghost use Rattle.dn_wf2q.specs.Schedule.{IsIdle, flow_at, heads_of};
ghost use Rattle.dn_wf2q.specs.Queue.{IsFirst};
ghost use Rattle.dn_wf2q.specs.Kept.{IsSchedKept, NoneDue, flows_of};
ghost use Rattle.dn_wf2q.specs.Steps.{OnlyHeaps, SendsHead};

use crate::queued_packet::QueuedPacket;
use crate::rank::Rank;
use crate::scaled::growth;
use crate::sched_parts::SchedParts;

impl SchedParts {
    /// The slot whose head is sent next. Virtual time is raised so far that this head is eligible.
    pub(crate) fn first(&mut self) -> Option<usize>
        requires kept { IsSchedKept self.old }
        requires none_due { NoneDue self.old }
        ensures picks { result ≡ option_map (λ h. h.flow) (pick self.old.virtual_time (heads_of (flows_of self.old))) }
        ensures same { OnlyHeaps (record self.old { virtual_time = raised self.old.virtual_time (heads_of (flows_of self.old)) }) self.new }
        ensures waits { IfSome result (λ slot. 0 < length (flow_at (flows_of self.old) slot).backlog) }
        ensures idle { (result ≡ None) ↔ IsIdle (flows_of self.old) }
        ensures none { IfNone result (self.new ≡ self.old) }
        ensures kept { IsSchedKept self.new }
        ensures none_due { NoneDue self.new }
    {
        if self.is_idle() {
            return None;
        }
        self.make_eligible();
        self.first_eligible()
    }

    /// The slot of the eligible head that goes before the others.
    fn first_eligible(&self) -> Option<usize>
        requires kept { IsSchedKept self.now }
        requires promoted { NoneDue self.now }
        ensures picks { result ≡ option_map (λ h. h.flow) (first_to_go (filter (is_eligible self.now.virtual_time) (heads_of (flows_of self.now)))) }
        ensures waits { IfSome result (λ slot. 0 < length (flow_at (flows_of self.now) slot).backlog) }
    {
        match self.eligible.peek() {
            Some(top) => Some(top.slot()),
            None => None,
        }
    }

    /// The packet that `first` names leaves, behind which its flow has this one.
    pub(crate) fn send(&mut self, next: Option<QueuedPacket>)
        requires kept { IsSchedKept self.old }
        requires none_due { NoneDue self.old }
        requires next { IfSome (pick self.old.virtual_time (heads_of (flows_of self.old))) (λ h. IsFirst next (drop 1 (flow_at (flows_of self.old) h.flow).backlog)) }
        ensures some { IfSome (pick self.old.virtual_time (heads_of (flows_of self.old))) (λ h. SendsHead h (raised self.old.virtual_time (heads_of (flows_of self.old))) self.old self.new) }
        ensures kept { IsSchedKept self.new }
        ensures none_due { NoneDue self.new }
    {
        self.make_eligible();
        self.send_eligible(next);
        self.promote();
    }

    /// Raises virtual time so far that a head is eligible.
    ///
    /// If one is, that is in the eligible heap, and no head waits to be moved there.
    fn make_eligible(&mut self)
        requires kept { IsSchedKept self.old }
        requires none_due { NoneDue self.old }
        ensures same { OnlyHeaps (record self.old { virtual_time = raised self.old.virtual_time (heads_of (flows_of self.old)) }) self.new }
        ensures kept { IsSchedKept self.new }
        ensures none_due { NoneDue self.new }
    {
        if !self.eligible.is_empty() {
            return;
        }
        self.raise();
        self.promote();
    }

    /// Raises virtual time to the least start tag of the heads, if none is in the eligible heap.
    fn raise(&mut self)
        requires kept { IsSchedKept self.old }
        requires none_eligible { length self.old.eligible.keys ≡ 0 }
        ensures virtual_time { self.new ≡ record self.old { virtual_time = raised self.old.virtual_time (heads_of (flows_of self.old)) } }
        ensures kept { IsSchedKept self.new }
    {
        if let Some(top) = self.waiting.peek() {
            self.virtual_time = self.virtual_time.max(top.tag());
        }
    }

    /// Moves each flow whose head has become eligible.
    fn promote(&mut self)
        requires kept { IsSchedKept self.old }
        ensures same { OnlyHeaps self.old self.new }
        ensures done { NoneDue self.new }
        ensures kept { IsSchedKept self.new }
    {
        while self.promote_one() {}
    }

    /// Moves the flow with the least start tag, where its head has become eligible.
    fn promote_one(&mut self) -> bool
        requires kept { IsSchedKept self.old }
        ensures same { OnlyHeaps self.old self.new }
        ensures fewer { result ≡ true → length self.new.waiting.keys + 1 ≡ length self.old.waiting.keys }
        ensures done { result ≡ false → NoneDue self.new }
        ensures kept { IsSchedKept self.new }
    {
        let Some(top) = self.waiting.peek() else {
            return false;
        };
        if self.virtual_time < top.tag() {
            return false;
        }
        if let Some(first) = self.waiting.pop() {
            let slot = first.slot();
            let finish_tag = self.flows[slot].finish_tag();
            self.eligible.push_reserved(Rank::new(finish_tag, slot));
        }
        true
    }

    /// Sends the head of the first eligible flow.
    fn send_eligible(&mut self, next: Option<QueuedPacket>)
        requires kept { IsSchedKept self.old }
        requires promoted { NoneDue self.old }
        requires next { IfSome (first_to_go (filter (is_eligible self.old.virtual_time) (heads_of (flows_of self.old)))) (λ h. IsFirst next (drop 1 (flow_at (flows_of self.old) h.flow).backlog)) }
        ensures some { IfSome (first_to_go (filter (is_eligible self.old.virtual_time) (heads_of (flows_of self.old)))) (λ h. SendsHead h self.old.virtual_time self.old self.new) }
        ensures kept { IsSchedKept self.new }
    {
        let Some(first) = self.eligible.pop() else {
            return;
        };
        let slot = first.slot();
        let (sent, next) = self.flows[slot].take_head(next);
        self.picks += 1;
        self.virtual_time += growth(sent.len, self.weights) as u128;
        self.weights -= sent.weight as u128;
        if let Some(head) = next {
            self.enter(slot, head);
        }
    }
}
