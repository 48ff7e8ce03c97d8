ghost use Rattle.std.specs.Prelude.{◌≡◌, ◌==◌, ◌+◌, ◌<◌, ◌≤◌, ◌^◌, ◌↔◌, Bool, [], ◌∷◌, length, max, true, false, All, Contains, filter, IfSome, IfNone, IsSome, IsOk, OnOk, OnErr, IsPermutation};
ghost use Rattle.dn_heap.specs.Heap.{IsLeast};
ghost use Rattle.std.specs.Fn.{FnReturnsAt};
ghost use Rattle.std.specs.Ordering.{is_eq};

use crate::keep::keep_where;
use crate::remove::{holds, remove_one};
use std::alloc::{AllocError, Global};
use std::cmp::Reverse;
use std::collections::BinaryHeap;
use std::marker::Model;

/// A heap with the least key on top.
///
/// Memory is taken by `reserve` alone: it makes room, each push uses one place of the room, and a key that leaves gives its
/// place back.
///
/// Keys that compare as equal are kept side by side, and leave in no promised order.
#[derive(Drop)]
pub struct MinHeap<K: Ord> {
    heap: BinaryHeap<Reverse<K>>,
    room: usize,
    moves: u64,
}

impl<K: Ord> Model for MinHeap<K> {
    ghost use Rattle.std.specs.Prelude.{◌+◌, ◌≤◌, map};
    ghost use Rattle.std.specs.BinaryHeap.{IsHeap, heap_items, heap_len, heap_capacity};
    ghost use Rattle.dn_heap.specs.Heap.{Heap};

    ghost Value = { Heap K };

    ghost view = { λ h. record { keys = map (λ r. r.0) (heap_items h.heap); room = h.room; moves = h.moves } };

    ghost invariant = { λ h. (heap_len h.heap + h.room ≤ heap_capacity h.heap) × IsHeap (λ x y. K.cmp y.0 x.0) (heap_items h.heap) };
}

impl<K: Ord> MinHeap<K> {
    /// An empty heap without room. It takes no memory.
    pub fn new(alloc: Global) -> Self
        ensures empty { result.keys ≡ [] }
        ensures no_room { result.room ≡ 0 }
        ensures no_moves { result.moves ≡ 0 }
    {
        MinHeap {
            heap: BinaryHeap::new(alloc),
            room: 0,
            moves: 0,
        }
    }

    /// Makes room for `n` more pushes; room that is there already counts.
    ///
    /// A refusal by the allocator changes nothing.
    pub fn reserve(&mut self, n: usize) -> Result<(), AllocError>
        ensures succeeds { n ≤ self.old.room → IsOk result }
        ensures ok { OnOk result (self.new.room ≡ max self.old.room n) }
        ensures keeps_keys { self.new.keys ≡ self.old.keys }
        ensures keeps_moves { self.new.moves ≡ self.old.moves }
        ensures err { OnErr result (self.new ≡ self.old) }
    {
        if n <= self.room {
            return Ok(());
        }
        self.heap.reserve(n)?;
        self.room = n;
        Ok(())
    }

    /// For how many pushes there is room.
    pub fn room(&self) -> usize
        ensures value { result ≡ self.now.room }
        ensures bound { result < 2 ^ 63 }
    {
        self.room
    }

    /// Puts a key in. It takes no memory.
    pub fn push_reserved(&mut self, key: K)
        requires reserved { 0 < self.old.room }
        requires few { self.old.moves < 2 ^ 63 }
        ensures keys { IsPermutation (key ∷ self.old.keys) self.new.keys }
        ensures room { self.new.room + 1 ≡ self.old.room }
        ensures moves { self.new.moves ≡ self.old.moves + 1 }
    {
        self.room -= 1;
        self.moves += 1;
        self.heap.push(Reverse(key)).unwrap();
    }

    /// A least key, which stays in.
    pub fn peek(&self) -> Option<&K>
        ensures some { IsSome result ↔ (0 < length self.now.keys) }
        ensures held { IfSome result (λ key. Contains self.now.keys key.now) }
        ensures least { IfSome result (λ key. IsLeast K.cmp key.now self.now.keys) }
    {
        match self.heap.peek() {
            Some(Reverse(key)) => Some(key),
            None => None,
        }
    }

    /// Takes a least key out and gives its room back.
    pub fn pop(&mut self) -> Option<K>
        ensures some { IsSome result ↔ (0 < length self.old.keys) }
        ensures least { IfSome result (λ key. IsLeast K.cmp key self.old.keys) }
        ensures keys { IfSome result (λ key. IsPermutation self.old.keys (key ∷ self.new.keys)) }
        ensures room { IfSome result (λ key. self.new.room ≡ self.old.room + 1) }
        ensures keeps_moves { self.new.moves ≡ self.old.moves }
        ensures none { IfNone result (self.new ≡ self.old) }
    {
        let Some(Reverse(top)) = self.heap.pop() else {
            return None;
        };
        self.room += 1;
        Some(top)
    }

    /// Takes out one key that compares as equal to `key`, if there is one, and gives its room back.
    ///
    /// It looks at every key.
    pub fn take_out(&mut self, key: &K) -> bool
    where
        K: Drop,
        ensures taken { result ≡ true → (k : K) × (is_eq (K.cmp k key.now) ≡ true) × IsPermutation self.old.keys (k ∷ self.new.keys) }
        ensures room { result ≡ true → self.new.room ≡ self.old.room + 1 }
        ensures keeps_moves { self.new.moves ≡ self.old.moves }
        ensures absent { result ≡ false → All (λ k. is_eq (K.cmp k key.now) ≡ false) self.old.keys }
        ensures unchanged { result ≡ false → self.new ≡ self.old }
    {
        if !holds(&self.heap, key) {
            return false;
        }
        remove_one(&mut self.heap, key);
        self.room += 1;
        true
    }

    /// Lets go of each key at which `keep` returns false, and gives its room back.
    ///
    /// It looks at every key once, in no promised order.
    pub fn retain<F: Fn(&K) -> bool>(&mut self, keep: F)
    where
        K: Drop,
        requires { F.IsAlwaysCallable keep }
        ensures kept { (test : K → Bool) → ((key : K) (answer : Bool) → FnReturnsAt F.Fn keep key answer → answer ≡ test key) → IsPermutation (filter test self.old.keys) self.new.keys }
        ensures fewer { length self.new.keys ≤ length self.old.keys }
        ensures room { length self.new.keys + self.new.room ≡ length self.old.keys + self.old.room }
        ensures keeps_moves { self.new.moves ≡ self.old.moves }
    {
        let before = self.heap.len();
        keep_where(&mut self.heap, keep);
        self.room += before - self.heap.len();
    }

    /// How many keys are in.
    pub fn len(&self) -> usize
        ensures value { result ≡ length self.now.keys }
    {
        self.heap.len()
    }

    /// Whether no key is in.
    pub fn is_empty(&self) -> bool
        ensures value { result ≡ (length self.now.keys == 0) }
    {
        self.heap.is_empty()
    }

    /// How many pushes there have been.
    pub fn moves(&self) -> u64
        ensures value { result ≡ self.now.moves }
    {
        self.moves
    }
}
