ghost use Rattle.std.specs.Prelude.{◌≡◌, ◌+◌, ◌<◌, ◌≤◌, ◌^◌, [], length, max, is_some, option_map, slice_get, All, IfSome, IfNone, IsOk, OnOk, OnErr};
ghost use Rattle.dn_types.specs.Deliveries.{in_order};
ghost use Rattle.dn_link.specs.Line.{all_in_order, due_first, after_due};

use dn_heap::RunHeap;
use dn_types::Delivery;
use std::alloc::{AllocError, Global};
use std::marker::Model;

/// The packets under way: those that have started and that nobody has collected.
///
/// Contracts see the list in the order in which they are given, by due moment and then by packet number.
#[derive(Drop)]
pub struct DelayLine {
    heap: RunHeap<Delivery>,
}

impl Model for DelayLine {
    ghost use Rattle.dn_link.specs.Line.{Line, all_in_order};

    ghost Value = { Line };

    ghost view = { λ a. record { pending = all_in_order a.heap.keys; room = a.heap.room; pushed = a.heap.moves } };
}

impl DelayLine {
    /// The line without a packet. It takes no memory.
    pub fn new(alloc: Global) -> DelayLine
        ensures pending { result.pending ≡ [] }
        ensures room { result.room ≡ 0 }
        ensures pushed { result.pushed ≡ 0 }
    {
        DelayLine {
            heap: RunHeap::new(alloc),
        }
    }

    /// Makes room for `n` pushes, where there is less.
    pub fn reserve(&mut self, n: usize) -> Result<(), AllocError>
        ensures room { OnOk result (self.new.room ≡ max self.old.room n) }
        ensures pending { self.new.pending ≡ self.old.pending }
        ensures pushed { self.new.pushed ≡ self.old.pushed }
        ensures err { OnErr result (self.new ≡ self.old) }
        ensures succeeds { n ≤ self.old.room → IsOk result }
    {
        self.heap.reserve(n)
    }

    /// For how many pushes there is room.
    pub fn room(&self) -> usize
        ensures { result ≡ self.now.room }
    {
        self.heap.room()
    }

    /// Puts a packet into its place, in the room that was reserved.
    #[inline(always)]
    pub fn push_reserved(&mut self, delivery: Delivery)
        requires room { 0 < self.old.room }
        requires pushed { self.old.pushed < 2 ^ 62 }
        ensures pending { self.new.pending ≡ in_order delivery self.old.pending }
        ensures room { self.new.room + 1 ≡ self.old.room }
        ensures pushed { self.new.pushed ≡ self.old.pushed + 1 }
    {
        self.heap.push_reserved(delivery);
    }

    /// Takes the first packet out where it is due at the moment, and gives its room back.
    #[inline(always)]
    pub fn pop_due(&mut self, at: u64) -> Option<Delivery>
        ensures value { result ≡ due_first at self.old.pending }
        ensures pending { self.new.pending ≡ after_due at self.old.pending }
        ensures room { IfSome result (λ d. self.new.room ≡ self.old.room + 1) }
        ensures pushed { self.new.pushed ≡ self.old.pushed }
        ensures none { IfNone result (self.new ≡ self.old) }
        // The first is the first to be due, so none is due where it isn't.
        ensures none_due { IfNone result (All (λ d. at < d.due) self.old.pending) }
    {
        if is_due(&self.heap, at) {
            self.heap.pop()
        } else {
            None
        }
    }

    /// The due moment of the first packet, in nanoseconds: no other is due sooner.
    ///
    /// None if no packet is under way.
    pub fn first_due(&self) -> Option<u64>
        ensures value { result ≡ option_map (λ d. d.due) (slice_get self.now.pending 0) }
        ensures least { IfSome result (λ due. All (λ d. due ≤ d.due) self.now.pending) }
    {
        match self.heap.peek() {
            Some(first) => Some(first.due),
            None => None,
        }
    }

    /// The count of packets under way.
    #[tactic(auto, using(crate::proofs::InOrder::lengths))]
    pub fn len(&self) -> usize
        ensures { result ≡ length self.now.pending }
    {
        self.heap.len()
    }

    /// The count of pushes since the line was made.
    pub fn pushed(&self) -> u64
        ensures { result ≡ self.now.pushed }
    {
        self.heap.moves()
    }
}

/// Whether the first of the packets is due.
#[tactic(auto, using(crate::proofs::InOrder::first_is_due))]
fn is_due(heap: &RunHeap<Delivery>, at: u64) -> bool
    ensures { result ≡ is_some (due_first at (all_in_order heap.now.keys)) }
{
    match heap.peek() {
        Some(first) => first.due <= at,
        None => false,
    }
}
