ghost use Rattle.std.specs.Prelude.{◌≡◌, ℕ, ◌+◌, ◌*◌, ◌<◌, ◌≤◌, ◌^◌, ◌↔◌, [], length, None, IfSome, IfNone, IsTrue, IsOk, OnOk, OnErr};
ghost use Rattle.std.specs.Option.{option_map};
ghost use Rattle.dn_types.specs.Wf2q.{pick};
ghost use Rattle.dn_wf2q.specs.Schedule.{Passes, Picks, KeepsCounts, KeepsRoom, IsIdle, after_arrival, after_discard, flow_at, forgotten, heads_of, padded, room_at, waiting_of};

use crate::head_sched::HeadSched;
use crate::packet_queues::{add_queues, reserve_queue, take_first};
use dn_types::{Len, Weight};
use std::alloc::{AllocError, Global};
use std::collections::VecDeque;
use std::marker::Model;

/// A [`HeadSched`] that keeps the packets itself, so that a pick is one call.
///
/// A slot needs some 40 bytes more than there, and from its first packet on a block of 16 bytes or more (4 bytes for each
/// packet beyond four). Memory is taken by `reserve_flow` alone.
#[derive(Drop)]
pub struct Sched {
    heads: HeadSched,
    /// The packets that wait, by slot, oldest first.
    queues: Vec<VecDeque<(Len, Weight)>>,
    alloc: Global,
}

impl Model for Sched {
    ghost use Rattle.dn_wf2q.specs.Schedule.{Schedule};
    ghost use Rattle.std.specs.Prelude.{map};
    ghost use Rattle.dn_wf2q.specs.Stored.{IsStored, spare};

    ghost Value = { Schedule };

    ghost view = { λ s. record s.heads { room = map spare s.queues.items } };

    ghost invariant = { λ s. IsStored s.heads s.queues.items };
}

impl Sched {
    /// A scheduler without flows. It takes no memory.
    pub fn new(alloc: Global) -> Self
        ensures value { result ≡ record { flows = []; virtual_time = 0; room = []; arrivals = 0; picks = 0; moves = 0 } }
    {
        Sched {
            heads: HeadSched::new(alloc),
            queues: Vec::new(alloc),
            alloc,
        }
    }

    /// Whether no packet waits.
    pub fn is_idle(&self) -> bool
        ensures idle { IsTrue result ↔ IsIdle self.now.flows }
    {
        self.heads.is_idle()
    }

    /// Begins a busy period: virtual time and all last finish tags begin again from 0.
    ///
    /// The cost does not depend on the number of flows.
    pub fn begin_busy(&mut self)
        requires idle { IsIdle self.old.flows }
        ensures flows { self.new.flows ≡ forgotten self.old.flows }
        ensures virtual_time { self.new.virtual_time ≡ 0 }
        ensures keeps_room { self.new.room ≡ self.old.room }
        ensures keeps_counts { KeepsCounts self.old self.new }
    {
        self.heads.begin_busy()
    }

    /// Makes room for one more arrival at a slot, which lasts until that arrival.
    ///
    /// A refusal by the allocator loses no packet, tag or room. There are at most 2^32 slots, and one beyond them is
    /// refused as out of memory.
    pub fn reserve_flow(&mut self, slot: usize) -> Result<(), AllocError>
        ensures succeeds { 0 < room_at self.old.room slot → IsOk result }
        ensures ok { OnOk result (self.new.flows ≡ padded self.old.flows (slot + 1)) }
        ensures reserved { OnOk result (0 < room_at self.new.room slot) }
        ensures keeps_virtual_time { self.new.virtual_time ≡ self.old.virtual_time }
        ensures keeps_room { KeepsRoom self.old self.new }
        ensures keeps_counts { KeepsCounts self.old self.new }
        ensures err { OnErr result (self.new.flows ≡ self.old.flows) }
    {
        if slot < self.queues.len() {
            return self.queues[slot].reserve(1);
        }
        let queue = reserve_queue(&mut self.queues, self.alloc, slot)?;
        self.heads.reserve_flow(slot)?;
        add_queues(&mut self.queues, self.alloc, slot, queue);
        Ok(())
    }

    /// A packet joins the backlog of a slot and gets its tags. It takes no memory.
    pub fn arrive(&mut self, slot: usize, len: Len, weight: Weight)
        requires reserved { 0 < room_at self.old.room slot }
        requires few { self.old.arrivals < 2 ^ 62 }
        ensures flows { self.new.flows ≡ after_arrival self.old.flows slot self.old.virtual_time len weight }
        ensures one_more { waiting_of self.new.flows ≡ waiting_of self.old.flows + 1 }
        ensures arrivals { self.new.arrivals ≡ self.old.arrivals + 1 }
        ensures keeps_virtual_time { self.new.virtual_time ≡ self.old.virtual_time }
        ensures keeps_picks { self.new.picks ≡ self.old.picks }
        ensures keeps_room { (other : ℕ) → (other ≡ slot → ⊥) → room_at self.old.room other ≤ room_at self.new.room other }
    {
        self.queues[slot].push_back_reserved((len, weight));
        self.heads.arrive(slot, len, weight)
    }

    /// A packet that comes where none waits begins a busy period and is sent at once, as by `begin_busy`, `arrive` and `pick`.
    ///
    /// It takes no memory.
    pub fn pass(&mut self, slot: usize, len: Len, weight: Weight)
        requires idle { IsIdle self.old.flows }
        requires reserved { 0 < room_at self.old.room slot }
        requires few { self.old.arrivals < 2 ^ 62 }
        ensures passes { Passes slot len weight self.old self.new }
        ensures keeps_room { KeepsRoom self.old self.new }
    {
        self.heads.pass(slot, len, weight)
    }

    /// The slot whose first packet is sent next. That packet leaves, and virtual time moves on.
    pub fn pick(&mut self) -> Option<usize>
        ensures picks { result ≡ option_map (λ h. h.flow) (pick self.old.virtual_time (heads_of self.old.flows)) }
        ensures some { IfSome (pick self.old.virtual_time (heads_of self.old.flows)) (λ h. Picks h self.old self.new) }
        ensures keeps_arrivals { self.new.arrivals ≡ self.old.arrivals }
        ensures keeps_room { KeepsRoom self.old self.new }
        ensures idle { (result ≡ None) ↔ IsIdle self.old.flows }
        ensures none { IfNone result (self.new ≡ self.old) }
    {
        let Some(slot) = self.heads.first() else {
            return None;
        };
        let next = take_first(&mut self.queues[slot]);
        self.heads.send(slot, next);
        Some(slot)
    }

    /// Lets all packets of a slot go, and its last finish tag with them.
    ///
    /// Virtual time and the tags of the other flows stay. It looks at no other flow. The head's key leaves its heap, which
    /// isn't a push.
    pub fn discard(&mut self, slot: usize)
        ensures flows { self.new.flows ≡ after_discard self.old.flows slot }
        ensures fewer { waiting_of self.new.flows + length (flow_at self.old.flows slot).backlog ≡ waiting_of self.old.flows }
        ensures keeps_virtual_time { self.new.virtual_time ≡ self.old.virtual_time }
        ensures keeps_room { KeepsRoom self.old self.new }
        ensures keeps_counts { KeepsCounts self.old self.new }
    {
        self.heads.discard(slot);
        if self.queues.len() <= slot {
            return;
        }
        self.queues[slot].clear();
    }

    /// Virtual time: the progress of an ideal link that serves all backlogged flows at once.
    pub fn virtual_time(&self) -> u128
        ensures value { result ≡ self.now.virtual_time }
        ensures bound { result < 2 ^ 96 }
    {
        self.heads.virtual_time()
    }

    /// How many packets have arrived.
    pub fn arrivals(&self) -> u64
        ensures value { result ≡ self.now.arrivals }
        ensures bound { result ≤ 2 ^ 62 }
    {
        self.heads.arrivals()
    }

    /// How many picks have given a slot.
    pub fn picks(&self) -> u64
        ensures value { result ≡ self.now.picks }
    {
        self.heads.picks()
    }

    /// How many pushes into the heaps there have been: at least one for each pick, and at most two for each arrival.
    pub fn moves(&self) -> u64
        ensures value { result ≡ self.now.moves }
        ensures least { self.now.picks ≤ result }
        ensures most { result ≤ 2 * self.now.arrivals }
    {
        self.heads.moves()
    }
}
