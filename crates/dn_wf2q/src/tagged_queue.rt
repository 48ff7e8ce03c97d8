ghost use Rattle.std.specs.Prelude.{ℕ, ◌≡◌, ◌+◌, ◌<◌, ◌^◌, ◌==◌, [], ◌∷◌, ◌++◌, length, cond, Some, None, IfSome, All};
ghost use Rattle.dn_wf2q.specs.Steps.{IsBlank};
ghost use Rattle.dn_wf2q.specs.Queue.{IsPayable, IsQueueKept, arriving, finishing, first_packet, last_finish_tag_in, last_tag, next_behind, packets_of, stamped_behind};

use crate::behind::{Behind, Change};
use crate::queued_packet::QueuedPacket;
use crate::scaled::cost;
use crate::tagged_packet::TaggedPacket;

/// The packets of one flow that wait, oldest first.
///
/// Only the head is here. A packet's start tag behind another is that one's finish tag, and it is told when the packet
/// becomes the head. So a flow takes 32 bytes, however many packets wait.
#[derive(Drop)]
pub(crate) struct TaggedQueue {
    /// The head's finish tag, or if there is no head that of the last one.
    ///
    /// If there is no head, it is the flow's last finish tag. Behind a head that one is told when it is asked for.
    pub(crate) finish_tag: u128,
    /// The count of arrivals at this flow's last one.
    ///
    /// If a busy period has begun since then, the last finish tag counts for 0, so that the beginning of one need not go
    /// through all flows.
    pub(crate) arrived: u64,
    pub(crate) head: Option<QueuedPacket>,
    pub(crate) behind: Behind,
}

impl TaggedQueue {
    /// A queue that has had no packet.
    pub(crate) fn new() -> TaggedQueue
        ensures blank { IsBlank result }
    {
        TaggedQueue {
            finish_tag: 0,
            arrived: 0,
            head: None,
            behind: Behind::new(),
        }
    }

    /// Puts a packet at the end, and answers it where it is the head.
    pub(crate) fn append(
        &mut self,
        busy_from: u64,
        virtual_time: u128,
        arrivals: u64,
        len: u16,
        weight: u8,
    ) -> Option<TaggedPacket>
        requires weight { 0 < weight }
        requires virtual_time { virtual_time < 2 ^ 96 }
        requires last_finish_tag { last_finish_tag_in busy_from self.old < 2 ^ 96 }
        requires later { busy_from < arrivals }
        requires kept { IsQueueKept busy_from self.old }
        ensures head { result ≡ cond (length (packets_of self.old) == 0) (Some (arriving busy_from self.old virtual_time len weight)) None }
        ensures packets { packets_of self.new ≡ packets_of self.old ++ arriving busy_from self.old virtual_time len weight ∷ [] }
        ensures last_finish_tag { last_tag self.new ≡ (arriving busy_from self.old virtual_time len weight).finish_tag }
        ensures arrived { self.new.arrived ≡ arrivals }
        ensures kept { IsQueueKept busy_from self.new }
    {
        let packet = QueuedPacket { len, weight };
        if self.head.is_some() {
            self.arrived = arrivals;
            self.behind = self.behind.then(&Change::Joins(packet));
            return None;
        }
        let start_tag = self.last_in(busy_from).max(virtual_time);
        let finish_tag = start_tag + cost(len, weight) as u128;
        self.arrived = arrivals;
        self.finish_tag = finish_tag;
        self.head = Some(packet);
        Some(TaggedPacket {
            start_tag,
            finish_tag,
            len,
            weight,
        })
    }

    /// The last finish tag of a flow of which no packet waits, as it counts in a busy period that began after so many arrivals.
    fn last_in(&self, busy_from: u64) -> u128
        requires none { self.now.behind.packets ≡ [] }
        ensures value { result ≡ last_finish_tag_in busy_from self.now }
    {
        if busy_from < self.arrived {
            self.finish_tag
        } else {
            0
        }
    }

    /// Takes the head out, behind which is this packet, and answers it and the next head.
    pub(crate) fn take_head(
        &mut self,
        next: Option<QueuedPacket>,
    ) -> (QueuedPacket, Option<TaggedPacket>)
        requires some { 0 < length (packets_of self.old) }
        requires payable { All IsPayable (packets_of self.old) }
        requires next { next ≡ next_behind self.old }
        ensures sent { packets_of self.old ≡ finishing self.old.finish_tag result.0 ∷ packets_of self.new }
        ensures next { result.1 ≡ first_packet (packets_of self.new) }
        ensures last_finish_tag { last_tag self.new ≡ last_tag self.old }
        ensures arrived { self.new.arrived ≡ self.old.arrived }
        ensures kept { (busy_from : ℕ) → IsQueueKept busy_from self.old → IsQueueKept busy_from self.new }
    {
        let sent = self.head.unwrap();
        (sent, self.next_head(next))
    }

    /// The packet behind the head becomes the head.
    fn next_head(&mut self, next: Option<QueuedPacket>) -> Option<TaggedPacket>
        requires finish_tag { self.old.finish_tag < 2 ^ 96 }
        requires payable { All IsPayable (stamped_behind self.old.finish_tag self.old.behind.packets) }
        requires next { next ≡ next_behind self.old }
        ensures next { result ≡ first_packet (packets_of self.new) }
        ensures packets { packets_of self.new ≡ stamped_behind self.old.finish_tag self.old.behind.packets }
        ensures last_finish_tag { last_tag self.new ≡ last_tag self.old }
        ensures arrived { self.new.arrived ≡ self.old.arrived }
        ensures kept { (busy_from : ℕ) → busy_from < self.old.arrived → IsQueueKept busy_from self.new }
    {
        self.head = next;
        self.behind = self.behind.then(&Change::FirstLeaves);
        let next = self.head?;
        let start_tag = self.finish_tag;
        self.finish_tag = start_tag + cost(next.len, next.weight) as u128;
        Some(TaggedPacket {
            start_tag,
            finish_tag: self.finish_tag,
            len: next.len,
            weight: next.weight,
        })
    }

    /// The head's finish tag, where there is a head.
    pub(crate) fn finish_tag(&self) -> u128
        ensures value { IfSome (first_packet (packets_of self.now)) (λ head. head.finish_tag ≡ result) }
    {
        self.finish_tag
    }

    /// The head, where there is one.
    pub(crate) fn head(&self) -> Option<TaggedPacket>
        requires payable { All IsPayable (packets_of self.now) }
        ensures head { result ≡ first_packet (packets_of self.now) }
    {
        let head = self.head?;
        let cost = cost(head.len, head.weight) as u128;
        Some(TaggedPacket {
            start_tag: self.finish_tag.saturating_sub(cost),
            finish_tag: self.finish_tag,
            len: head.len,
            weight: head.weight,
        })
    }

    /// Lets all packets and the last finish tag go.
    pub(crate) fn clear(&mut self)
        ensures packets { packets_of self.new ≡ [] }
        ensures last_finish_tag { last_tag self.new ≡ 0 }
        ensures arrived { self.new.arrived ≡ self.old.arrived }
        ensures kept { (busy_from : ℕ) → IsQueueKept busy_from self.new }
    {
        self.head = None;
        self.behind = Behind::new();
        self.finish_tag = 0;
    }
}
