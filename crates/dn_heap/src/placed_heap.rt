ghost use Rattle.std.specs.Prelude.{◌≡◌, ◌==◌, ◌+◌, ◌<◌, ◌≤◌, ◌^◌, ◌↔◌, ◌≢◌, [], ◌∷◌, length, max, All, Contains, IfSome, IfNone, IsSome, IsOk, OnOk, OnErr, IsPermutation};
ghost use Rattle.dn_heap.specs.Heap.{IsLeast};

use crate::numbered::Numbered;
use crate::placed_heap::ends::{find, put, take_at};
use std::alloc::{AllocError, Global};
use std::marker::Model;

mod ends;
mod push_pop;
mod sift;

/// How many numbers a heap has places for, so that a place takes four bytes.
const NUMBERS: usize = 1 << 32;

/// A heap with the least key on top, which knows where its keys are: a key is taken out by its number, wherever it is.
///
/// No two keys in it have one number. Memory is taken by `reserve_numbers` alone, which makes a place for each number.
#[derive(Drop)]
pub struct PlacedHeap<K: Ord + Copy + Numbered> {
    keys: Vec<K>,
    /// Where in `keys` the key of a number is, if there is one. There are at most 2^32 keys.
    places: Vec<u32>,
    moves: u64,
}

impl<K: Ord + Copy + Numbered> Model for PlacedHeap<K> {
    ghost use Rattle.std.specs.Prelude.{◌-◌, ◌≤◌, ◌^◌};
    ghost use Rattle.std.specs.Vec.{vec_capacity, vec_len};
    ghost use Rattle.std_alloc.specs.BinaryHeap.{IsHeap};
    ghost use Rattle.dn_heap.specs.Heap.{Heap};
    ghost use Rattle.dn_heap.specs.Placed.{ArePlaced, back};

    ghost Value = { Heap K };

    ghost view = { λ h. record { keys = h.keys.items; room = vec_len h.places - vec_len h.keys; moves = h.moves } };

    ghost invariant = { λ h. (vec_len h.keys ≤ vec_len h.places) × (vec_len h.places ≤ vec_capacity h.keys) × (vec_len h.places ≤ 2 ^ 32) × IsHeap (back K.cmp) h.keys.items × ArePlaced K.number h.keys.items h.places.items };
}

impl<K: Ord + Copy + Numbered> PlacedHeap<K> {
    /// An empty heap without a place. It takes no memory.
    pub fn new(alloc: Global) -> Self
        ensures empty { result.keys ≡ [] }
        ensures no_room { result.room ≡ 0 }
        ensures no_moves { result.moves ≡ 0 }
    {
        PlacedHeap {
            keys: Vec::new(alloc),
            places: Vec::new(alloc),
            moves: 0,
        }
    }

    /// Makes a place for each number below `numbers`; places that are there already count.
    ///
    /// A refusal by the allocator changes nothing. There are at most 2^32 numbers, and more are refused as out of memory.
    pub fn reserve_numbers(&mut self, numbers: usize) -> Result<(), AllocError>
        ensures succeeds { numbers ≤ length self.old.keys + self.old.room → IsOk result }
        ensures ok { OnOk result (length self.new.keys + self.new.room ≡ max (length self.old.keys + self.old.room) numbers) }
        ensures keeps_keys { self.new.keys ≡ self.old.keys }
        ensures keeps_moves { self.new.moves ≡ self.old.moves }
        ensures err { OnErr result (self.new ≡ self.old) }
    {
        if numbers <= self.places.len() {
            return Ok(());
        }
        if numbers > NUMBERS {
            return Err(AllocError);
        }
        self.keys.reserve(numbers - self.keys.len())?;
        self.places.resize(numbers, 0)?;
        Ok(())
    }

    /// For how many pushes there is room: how many numbers have a place and no key.
    pub fn room(&self) -> usize
        ensures value { result ≡ self.now.room }
        ensures bound { result < 2 ^ 63 }
    {
        self.places.len() - self.keys.len()
    }

    /// Puts a key in, whose number has a place and no key. It takes no memory.
    pub fn push_reserved(&mut self, key: K)
        requires reserved { 0 < self.old.room }
        requires few { self.old.moves < 2 ^ 63 }
        requires numbered { K.number key < length self.old.keys + self.old.room }
        requires free { All (λ k. K.number k ≢ K.number key) self.old.keys }
        ensures keys { IsPermutation (key ∷ self.old.keys) self.new.keys }
        ensures room { self.new.room + 1 ≡ self.old.room }
        ensures moves { self.new.moves ≡ self.old.moves + 1 }
    {
        self.moves += 1;
        put(&mut self.keys, &mut self.places, key);
    }

    /// A least key, which stays in.
    pub fn peek(&self) -> Option<&K>
        ensures some { IsSome result ↔ (0 < length self.now.keys) }
        ensures held { IfSome result (λ key. Contains self.now.keys key.now) }
        ensures least { IfSome result (λ key. IsLeast K.cmp key.now self.now.keys) }
    {
        self.keys.as_slice().first()
    }

    /// Takes a least key out and gives its room back.
    pub fn pop(&mut self) -> Option<K>
        ensures some { IsSome result ↔ (0 < length self.old.keys) }
        ensures least { IfSome result (λ key. IsLeast K.cmp key self.old.keys) }
        ensures keys { IfSome result (λ key. IsPermutation self.old.keys (key ∷ self.new.keys)) }
        ensures room { IfSome result (λ key. self.new.room ≡ self.old.room + 1) }
        ensures keeps_moves { self.new.moves ≡ self.old.moves }
        ensures none { IfNone result (self.new ≡ self.old) }
    {
        if self.keys.is_empty() {
            return None;
        }
        let key = take_at(&mut self.keys, &mut self.places, 0);
        Some(key)
    }

    /// Takes out the key of a number, if there is one, and gives its room back.
    ///
    /// It costs the logarithm of the keys, as a pop does.
    pub fn take_number(&mut self, number: usize) -> Option<K>
        ensures taken { IfSome result (λ key. K.number key ≡ number) }
        ensures keys { IfSome result (λ key. IsPermutation self.old.keys (key ∷ self.new.keys)) }
        ensures room { IfSome result (λ key. self.new.room ≡ self.old.room + 1) }
        ensures absent { IfNone result (All (λ k. K.number k ≢ number) self.old.keys) }
        ensures keeps_moves { self.new.moves ≡ self.old.moves }
        ensures none { IfNone result (self.new ≡ self.old) }
    {
        let Some(at) = find(&self.keys, &self.places, number) else {
            return None;
        };
        let key = take_at(&mut self.keys, &mut self.places, at);
        Some(key)
    }

    /// The key of a number, which stays in.
    pub fn get(&self, number: usize) -> Option<&K>
        ensures numbered { IfSome result (λ key. K.number key.now ≡ number) }
        ensures held { IfSome result (λ key. Contains self.now.keys key.now) }
        ensures absent { IfNone result (All (λ k. K.number k ≢ number) self.now.keys) }
    {
        let Some(at) = find(&self.keys, &self.places, number) else {
            return None;
        };
        Some(&self.keys[at])
    }

    /// How many keys are in.
    pub fn len(&self) -> usize
        ensures value { result ≡ length self.now.keys }
    {
        self.keys.len()
    }

    /// Whether no key is in.
    pub fn is_empty(&self) -> bool
        ensures value { result ≡ (length self.now.keys == 0) }
    {
        self.keys.is_empty()
    }

    /// How many pushes there have been.
    pub fn moves(&self) -> u64
        ensures value { result ≡ self.now.moves }
    {
        self.moves
    }
}
