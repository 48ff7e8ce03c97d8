ghost use Rattle.std.specs.Prelude.{◌≡◌, ℕ, ◌+◌, ◌*◌, ◌<◌, ◌≤◌, ◌^◌, ◌↔◌, [], length, None, drop, IfSome, IfNone, IsTrue, IsOk, OnOk, OnErr};
ghost use Rattle.std.specs.Option.{option_map};
ghost use Rattle.dn_types.specs.Wf2q.{pick, raised};
ghost use Rattle.dn_wf2q.specs.Schedule.{IsNext, Passes, Picks, SendsFirst, KeepsCounts, KeepsRoom, IsIdle, after_arrival, after_discard, flow_at, forgotten, heads_of, one_each, padded, room_at, waiting_of};

use crate::queued_packet::QueuedPacket;
use crate::sched_parts::SchedParts;
use dn_heap::PlacedHeap;
use dn_types::{Len, Weight};
use std::alloc::{AllocError, Global};
use std::marker::Model;

/// The WF2Q+ scheduler of one shared link (Bennett and Zhang 1996, 1997).
///
/// Tags and virtual time are in units of 1/65536 byte per weight.
///
/// It stores the heads alone. The caller keeps the packets behind them, and tells `send` the one that becomes the head.
/// For proofs the scheduler knows all of them, so that its contracts are those of whole backlogs.
///
/// A flow is named by its *slot*, its place among the flows of this link. The heads are in one vector by slot, so the
/// highest slot that was reserved decides the memory: some 72 bytes for each slot up to it. Number the flows of a link
/// 0, 1, 2, .. as they are first seen. Ties between finish tags go to the lower slot.
///
/// Memory is taken by `reserve_flow` alone. Tags and virtual time stay below 2^96 and pushes into the heaps below 2^63,
/// since there are at most 2^62 arrivals.
#[derive(Drop)]
pub struct HeadSched {
    parts: SchedParts,
}

impl Model for HeadSched {
    ghost use Rattle.dn_wf2q.specs.Schedule.{Schedule};
    ghost use Rattle.dn_wf2q.specs.Kept.{IsCalm, schedule_of};

    ghost Value = { Schedule };

    ghost view = { λ s. schedule_of s.parts };

    ghost invariant = { λ s. IsCalm s.parts };
}

impl HeadSched {
    /// A scheduler without flows. It takes no memory.
    pub fn new(alloc: Global) -> Self
        ensures value { result ≡ record { flows = []; virtual_time = 0; room = []; arrivals = 0; picks = 0; moves = 0 } }
    {
        HeadSched {
            parts: SchedParts {
                flows: Vec::new(alloc),
                eligible: PlacedHeap::new(alloc),
                waiting: PlacedHeap::new(alloc),
                virtual_time: 0,
                weights: 0,
                busy_from: 0,
                arrivals: 0,
                picks: 0,
            },
        }
    }

    /// Whether no packet waits.
    pub fn is_idle(&self) -> bool
        ensures idle { IsTrue result ↔ IsIdle self.now.flows }
    {
        let parts = &self.parts;
        parts.is_idle()
    }

    /// Begins a busy period: virtual time and all last finish tags begin again from 0.
    ///
    /// The cost does not depend on the number of flows.
    pub fn begin_busy(&mut self)
        requires idle { IsIdle self.old.flows }
        ensures flows { self.new.flows ≡ forgotten self.old.flows }
        ensures virtual_time { self.new.virtual_time ≡ 0 }
        ensures rooms { self.new.room ≡ one_each self.new.flows }
        ensures keeps_room { self.new.room ≡ self.old.room }
        ensures keeps_counts { KeepsCounts self.old self.new }
    {
        self.parts.begin_busy()
    }

    /// Makes room for arrivals at a slot. An arrival doesn't use it up, so once is enough for a slot.
    ///
    /// A refusal by the allocator loses no packet, tag or room. There are at most 2^32 slots, and one beyond them is
    /// refused as out of memory.
    #[inline(always)]
    pub fn reserve_flow(&mut self, slot: usize) -> Result<(), AllocError>
        ensures succeeds { 0 < room_at self.old.room slot → IsOk result }
        ensures ok { OnOk result (self.new.flows ≡ padded self.old.flows (slot + 1)) }
        ensures rooms { self.new.room ≡ one_each self.new.flows }
        ensures reserved { OnOk result (0 < room_at self.new.room slot) }
        ensures keeps_virtual_time { self.new.virtual_time ≡ self.old.virtual_time }
        ensures keeps_room { KeepsRoom self.old self.new }
        ensures keeps_counts { KeepsCounts self.old self.new }
        ensures err { OnErr result (self.new.flows ≡ self.old.flows) }
    {
        self.parts.reserve_flow(slot)
    }

    /// A packet joins the backlog of a slot and gets its tags. It takes no memory.
    pub fn arrive(&mut self, slot: usize, len: Len, weight: Weight)
        requires reserved { 0 < room_at self.old.room slot }
        requires few { self.old.arrivals < 2 ^ 62 }
        ensures rooms { self.new.room ≡ one_each self.new.flows }
        ensures flows { self.new.flows ≡ after_arrival self.old.flows slot self.old.virtual_time len weight }
        ensures one_more { waiting_of self.new.flows ≡ waiting_of self.old.flows + 1 }
        ensures arrivals { self.new.arrivals ≡ self.old.arrivals + 1 }
        ensures keeps_virtual_time { self.new.virtual_time ≡ self.old.virtual_time }
        ensures keeps_picks { self.new.picks ≡ self.old.picks }
        ensures keeps_room { KeepsRoom self.old self.new }
    {
        self.parts.arrive(slot, len.get(), weight.get())
    }

    /// A packet that comes where none waits begins a busy period and is sent at once, as by `begin_busy`, `arrive` and `pick`.
    ///
    /// It takes no memory.
    pub fn pass(&mut self, slot: usize, len: Len, weight: Weight)
        requires idle { IsIdle self.old.flows }
        requires reserved { 0 < room_at self.old.room slot }
        requires few { self.old.arrivals < 2 ^ 62 }
        ensures rooms { self.new.room ≡ one_each self.new.flows }
        ensures passes { Passes slot len weight self.old self.new }
        ensures keeps_room { KeepsRoom self.old self.new }
    {
        self.parts.pass(slot, len.get(), weight.get())
    }

    /// The slot whose first packet is sent next, by `send`. Virtual time is raised so far that this packet is eligible.
    ///
    /// It leaves nothing else changed, so that it may be asked again.
    pub fn first(&mut self) -> Option<usize>
        ensures picks { result ≡ option_map (λ h. h.flow) (pick self.old.virtual_time (heads_of self.old.flows)) }
        ensures raised { self.new ≡ record self.old { virtual_time = raised self.old.virtual_time (heads_of self.old.flows); moves = self.new.moves } }
        ensures waits { IfSome result (λ slot. 0 < length (flow_at self.old.flows slot).backlog) }
        ensures idle { (result ≡ None) ↔ IsIdle self.old.flows }
        ensures none { IfNone result (self.new ≡ self.old) }
    {
        self.parts.first()
    }

    /// The first packet of the slot that sends next leaves, and virtual time moves on.
    ///
    /// `next` is the packet behind it, or None if it was the last one. The slot is that of `first`; `picks_first` of
    /// proofs/Sending.antt adds up the two calls.
    pub fn send(&mut self, slot: usize, next: Option<(Len, Weight)>)
        requires first { SendsFirst slot self.old }
        requires next { IsNext next (drop 1 (flow_at self.old.flows slot).backlog) }
        ensures rooms { self.new.room ≡ one_each self.new.flows }
        ensures some { IfSome (pick self.old.virtual_time (heads_of self.old.flows)) (λ h. Picks h self.old self.new) }
        ensures keeps_arrivals { self.new.arrivals ≡ self.old.arrivals }
        ensures keeps_room { KeepsRoom self.old self.new }
    {
        let _slot = slot;
        let next = QueuedPacket::of(next);
        self.parts.send(next);
    }

    /// Lets all packets of a slot go, and its last finish tag with them.
    ///
    /// Virtual time and the tags of the other flows stay. It looks at no other flow. The head's key leaves its heap, which
    /// isn't a push.
    pub fn discard(&mut self, slot: usize)
        ensures flows { self.new.flows ≡ after_discard self.old.flows slot }
        ensures rooms { self.new.room ≡ one_each self.new.flows }
        ensures fewer { waiting_of self.new.flows + length (flow_at self.old.flows slot).backlog ≡ waiting_of self.old.flows }
        ensures keeps_virtual_time { self.new.virtual_time ≡ self.old.virtual_time }
        ensures keeps_room { KeepsRoom self.old self.new }
        ensures keeps_counts { KeepsCounts self.old self.new }
    {
        self.parts.discard(slot)
    }

    /// Virtual time: the progress of an ideal link that serves all backlogged flows at once.
    pub fn virtual_time(&self) -> u128
        ensures value { result ≡ self.now.virtual_time }
        ensures bound { result < 2 ^ 96 }
    {
        self.parts.virtual_time
    }

    /// How many packets have arrived.
    pub fn arrivals(&self) -> u64
        ensures value { result ≡ self.now.arrivals }
        ensures bound { result ≤ 2 ^ 62 }
    {
        self.parts.arrivals
    }

    /// How many picks have given a slot.
    pub fn picks(&self) -> u64
        ensures value { result ≡ self.now.picks }
    {
        self.parts.picks
    }

    /// How many pushes into the heaps there have been: at least one for each pick, and at most two for each arrival.
    pub fn moves(&self) -> u64
        ensures value { result ≡ self.now.moves }
        ensures least { self.now.picks ≤ result }
        ensures most { result ≤ 2 * self.now.arrivals }
    {
        let parts = &self.parts;
        parts.moves()
    }
}
