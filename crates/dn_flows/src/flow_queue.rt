ghost use Rattle.std.specs.Prelude.{◌≡◌, ◌+◌, ◌≤◌, ◌<◌, ◌^◌, List, sum, true, false, slice_get, IfSome, IfNone, OnSome};
ghost use Rattle.dn_types.specs.Drops.{is_full};
ghost use Rattle.dn_flows.specs.Packets.{ContainsKey, HasRoomFor};
ghost use Rattle.dn_flows.specs.Store.{Appends, IsCounted, Lies, Shortens, TakesFront, new_queue, reserved_one, stored_at, waiting_from, without_list};
ghost use Rattle.dn_flows.specs.Table.{lengths, verdict_of};
ghost use Rattle.dn_flows.specs.declared.waiting.Waiting.{Waiting as WaitingValue};

use crate::drop_rule::DropRule;
use crate::home::Home;
use crate::packet_store::PacketStore;
use crate::stored::Stored;
use crate::verdict::Verdict;
use crate::waiting::Waiting;
use dn_types::{Limit, Packet, Target};
use std::mem;

/// The queue of one flow, and the count of its packets that started.
///
/// The packets themselves lie in the store of all queues.
#[derive(Drop)]
pub struct FlowQueue {
    /// Where the first packet lies, if there is one.
    pub front: u32,
    /// Where the last packet lies, if there is one.
    pub back: u32,
    pub len: usize,
    /// The sum of the packets' lengths, which is below 2^32.
    pub bytes: u32,
    /// Whether the store keeps room for the next push.
    ///
    /// A pop and a clear leave it, so that only the push itself uses it up.
    pub reserved: bool,
    /// Whether a packet joined since the last delete that reached the flow.
    pub active: bool,
    /// Whether the flow is in the list of its pipe.
    pub on_pipe: bool,
    /// Whether it is in the list of its queue, or of none.
    pub of_queue: bool,
    pub started: u64,
    pub home: Home,
}

impl FlowQueue {
    /// An empty queue with no count.
    pub fn new() -> FlowQueue
        ensures { result ≡ new_queue }
    {
        FlowQueue {
            front: 0,
            back: 0,
            len: 0,
            bytes: 0,
            reserved: false,
            active: false,
            on_pipe: false,
            of_queue: false,
            started: 0,
            home: Home { place: 0, slot: 0 },
        }
    }

    /// Lets go of the flow's entry in the list of the target, and of the place that was reserved.
    ///
    /// It returns how many places were reserved, 0 or 1.
    pub fn let_go(&mut self, target: &Target) -> usize
        ensures value { result ≡ reserved_one self.old }
        ensures lets_go { self.new ≡ without_list target.now self.old }
    {
        match target {
            Target::Pipe(_) => self.on_pipe = false,
            Target::Queue(_) => self.of_queue = false,
        }
        usize::from(mem::replace(&mut self.reserved, false))
    }

    /// Loss comes before the limit, so that a packet that is lost anyway doesn't count as refused.
    pub fn verdict(&self, packet: &Packet, rule: &DropRule) -> Verdict
        ensures value { (backlog : List WaitingValue) → IsCounted backlog self.now.len self.now.bytes → result ≡ verdict_of rule.now.loss rule.now.limit packet.now.word backlog }
        ensures fits { (backlog : List WaitingValue) → IsCounted backlog self.now.len self.now.bytes → result ≡ Verdict.Take → sum (lengths backlog) + packet.now.len < 2 ^ 32 }
    {
        // The proof of `fits` takes the bound of the length from this.
        let _len = packet.len.get();
        if packet.word % (1 << 31) < rule.loss.get() {
            Verdict::Lost
        } else if self.is_full(&rule.limit) {
            Verdict::Full
        } else {
            Verdict::Take
        }
    }

    fn is_full(&self, limit: &Limit) -> bool
        ensures value { (backlog : List WaitingValue) → IsCounted backlog self.now.len self.now.bytes → result ≡ is_full limit.now (lengths backlog) }
        // Fewer than 10000 packets of at most 65535 bytes, or at most 1024 units of 1024 bytes.
        ensures room { (backlog : List WaitingValue) → IsCounted backlog self.now.len self.now.bytes → result ≡ false → sum (lengths backlog) ≤ 655350000 }
    {
        match limit {
            Limit::Slots(count) => self.len >= usize::from(count.get()),
            Limit::Kbytes(count) => u64::from(self.bytes) > u64::from(count.get()) * 1024,
        }
    }

    /// Puts a packet at the end, in room that the store has.
    pub fn push_back(&mut self, store: &mut PacketStore, waiting: Waiting)
        requires room { HasRoomFor store.old 1 }
        requires few { self.old.len < 2 ^ 32 }
        requires held { 0 < self.old.len → ContainsKey store.old self.old.back }
        requires bytes { self.old.bytes + waiting.len < 2 ^ 32 }
        ensures appends { Appends waiting store.old self.old store.new self.new }
        ensures len { store.new.len ≡ store.old.len + 1 }
        ensures capacity { store.new.capacity ≡ store.old.capacity }
    {
        let bytes = u32::from(waiting.len.get());
        let key = store.insert_reserved(Stored::new(waiting));
        if self.len == 0 {
            self.front = key;
        } else {
            store.name_next(self.back, key);
        }
        self.back = key;
        self.len += 1;
        self.bytes += bytes;
        self.reserved = false;
        self.active = true;
    }

    /// Takes the first packet out, if there is one.
    pub fn pop_front(&mut self, store: &mut PacketStore) -> Option<Waiting>
        requires held { 0 < self.old.len → ContainsKey store.old self.old.front }
        requires bytes { 0 < self.old.len → (stored_at store.old self.old.front).waiting.len ≤ self.old.bytes }
        ensures takes { IfSome result (λ first. TakesFront first store.old self.old store.new self.new) }
        ensures len { OnSome result (store.new.len + 1 ≡ store.old.len) }
        ensures capacity { store.new.capacity ≡ store.old.capacity }
        ensures none { IfNone result (self.old.len ≡ 0) }
        ensures keeps_store { IfNone result (store.new ≡ store.old) }
        ensures keeps_queue { IfNone result (self.new ≡ self.old) }
    {
        if self.len == 0 {
            return None;
        }
        let first = store.remove(self.front);
        let waiting = first.waiting();
        self.front = first.next();
        self.len -= 1;
        self.bytes -= u32::from(waiting.len.get());
        Some(waiting)
    }

    /// The packet behind the first one, if there is one.
    pub fn second(&self, store: &PacketStore) -> Option<Waiting>
        requires { Lies store.now self.now }
        ensures { result ≡ slice_get (waiting_from store.now self.now.front self.now.len) 1 }
    {
        if self.len < 2 {
            return None;
        }
        let first = store.get(self.front);
        Some(store.get(first.next()).waiting())
    }

    /// Takes all packets out.
    pub fn clear(&mut self, store: &mut PacketStore)
        requires { Lies store.old self.old }
        ensures shortens { Shortens store.old self.old store.new self.new }
        ensures none { self.new.len ≡ 0 }
    {
        while self.len > 0 {
            let _ = self.pop_front(store);
        }
    }
}
