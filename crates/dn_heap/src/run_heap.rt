ghost use Rattle.std.specs.Prelude.{◌≡◌, ◌+◌, ◌<◌, ◌≤◌, ◌^◌, ◌↔◌, Bool, [], ◌∷◌, length, max, Contains, filter, IfSome, IfNone, IsSome, IsOk, OnOk, OnErr, IsPermutation};
ghost use Rattle.dn_heap.specs.Heap.{IsLeast};
ghost use Rattle.std.specs.Fn.{FnReturnsAt};

use crate::min_heap::MinHeap;
use crate::run::{can_join, keep_in_run, leads};
use std::alloc::{AllocError, Global};
use std::collections::VecDeque;
use std::marker::Model;

/// A heap for keys that mostly come in order, and otherwise as a `MinHeap`.
///
/// Memory is taken by `reserve` alone: it makes room, each push uses one place of the room, and a key that leaves gives its
/// place back.
///
/// Beside its heap it has a run, a queue in ascending order. A key that is not less than the last of
/// the run joins it at its end, and leaves it at its front, which costs no sift. The moments of packets
/// of one size come in order like that. Since each key may go to either, a place of its room takes the
/// memory of two keys. Where keys come in no order, asking the run is waste: use a `MinHeap` there.
///
/// Keys that compare as equal are kept side by side, and leave in no promised order.
#[derive(Drop)]
pub struct RunHeap<K: Ord> {
    heap: MinHeap<K>,
    /// In ascending order.
    run: VecDeque<K>,
    room: usize,
    moves: u64,
}

impl<K: Ord> Model for RunHeap<K> {
    ghost use Rattle.std.specs.Prelude.{◌+◌, ◌≤◌, ◌++◌, length};
    ghost use Rattle.std.specs.VecDeque.{deque_capacity, deque_len};
    ghost use Rattle.dn_heap.specs.Heap.{Heap};
    ghost use Rattle.dn_heap.specs.Run.{IsAscending};

    ghost Value = { Heap K };

    ghost view = { λ h. record { keys = h.heap.keys ++ h.run.items; room = h.room; moves = h.moves } };

    ghost invariant = { λ h. (deque_len h.run + h.room ≤ h.heap.room) × (length h.heap.keys + deque_len h.run + h.room ≤ deque_capacity h.run) × (h.heap.moves ≤ h.moves) × IsAscending K.cmp h.run.items };
}

impl<K: Ord> RunHeap<K> {
    /// An empty heap without room. It takes no memory.
    pub fn new(alloc: Global) -> Self
        ensures empty { result.keys ≡ [] }
        ensures no_room { result.room ≡ 0 }
        ensures no_moves { result.moves ≡ 0 }
    {
        RunHeap {
            heap: MinHeap::new(alloc),
            run: VecDeque::new(alloc),
            room: 0,
            moves: 0,
        }
    }

    /// Makes room for `n` more pushes; room that is there already counts.
    ///
    /// A refusal by the allocator changes nothing.
    pub fn reserve(&mut self, n: usize) -> Result<(), AllocError>
        ensures succeeds { n ≤ self.old.room → IsOk result }
        ensures ok { OnOk result (self.new.room ≡ max self.old.room n) }
        ensures keeps_keys { self.new.keys ≡ self.old.keys }
        ensures keeps_moves { self.new.moves ≡ self.old.moves }
        ensures err { OnErr result (self.new ≡ self.old) }
    {
        if n <= self.room {
            return Ok(());
        }
        // Each of the pushes may go to either.
        self.heap.reserve(n.saturating_add(self.run.len()))?;
        self.run.reserve(n.saturating_add(self.heap.len()))?;
        self.room = n;
        Ok(())
    }

    /// For how many pushes there is room.
    pub fn room(&self) -> usize
        ensures value { result ≡ self.now.room }
        ensures bound { result < 2 ^ 63 }
    {
        self.room
    }

    /// Puts a key in. It takes no memory.
    #[inline(always)]
    pub fn push_reserved(&mut self, key: K)
        requires reserved { 0 < self.old.room }
        requires few { self.old.moves < 2 ^ 63 }
        ensures keys { IsPermutation (key ∷ self.old.keys) self.new.keys }
        ensures room { self.new.room + 1 ≡ self.old.room }
        ensures moves { self.new.moves ≡ self.old.moves + 1 }
    {
        self.room -= 1;
        self.moves += 1;
        if can_join(&self.run, &key) {
            self.run.push_back_reserved(key);
        } else {
            self.heap.push_reserved(key);
        }
    }

    /// A least key, which stays in.
    pub fn peek(&self) -> Option<&K>
        ensures some { IsSome result ↔ (0 < length self.now.keys) }
        ensures held { IfSome result (λ key. Contains self.now.keys key.now) }
        ensures least { IfSome result (λ key. IsLeast K.cmp key.now self.now.keys) }
    {
        if leads(&self.run, &self.heap) {
            self.run.front()
        } else {
            self.heap.peek()
        }
    }

    /// Takes a least key out and gives its room back.
    #[inline(always)]
    pub fn pop(&mut self) -> Option<K>
        ensures some { IsSome result ↔ (0 < length self.old.keys) }
        ensures least { IfSome result (λ key. IsLeast K.cmp key self.old.keys) }
        ensures keys { IfSome result (λ key. IsPermutation self.old.keys (key ∷ self.new.keys)) }
        ensures room { IfSome result (λ key. self.new.room ≡ self.old.room + 1) }
        ensures keeps_moves { self.new.moves ≡ self.old.moves }
        ensures none { IfNone result (self.new ≡ self.old) }
    {
        if leads(&self.run, &self.heap) {
            self.room += 1;
            return self.run.pop_front();
        }
        let first = self.heap.pop()?;
        self.room += 1;
        Some(first)
    }

    /// Lets go of each key at which `keep` returns false, and gives its room back.
    ///
    /// It looks at every key once, in no promised order.
    pub fn retain<F: Fn(&K) -> bool>(&mut self, keep: F)
    where
        K: Drop,
        requires { F.IsAlwaysCallable keep }
        ensures kept { (test : K → Bool) → ((key : K) (answer : Bool) → FnReturnsAt F.Fn keep key answer → answer ≡ test key) → IsPermutation (filter test self.old.keys) self.new.keys }
        ensures room { length self.new.keys + self.new.room ≡ length self.old.keys + self.old.room }
        ensures keeps_moves { self.new.moves ≡ self.old.moves }
    {
        let before = self.heap.len() + self.run.len();
        self.heap.retain(
            |held|
                requires { F.IsAlwaysCallable keep }
                ensures { FnReturnsAt F.Fn keep held.now result }
            { keep(held) },
        );
        keep_in_run(&mut self.run, keep);
        self.room += before - (self.heap.len() + self.run.len());
    }

    /// How many keys are in.
    pub fn len(&self) -> usize
        ensures value { result ≡ length self.now.keys }
    {
        self.heap.len() + self.run.len()
    }

    /// How many pushes there have been.
    pub fn moves(&self) -> u64
        ensures value { result ≡ self.now.moves }
    {
        self.moves
    }
}
