//! Pushes that ask first whether they are allowed.
use crate::placed_key::Key;
use dn_heap::{MinHeap, Numbered, PlacedHeap};

/// More pushes than any test makes.
const MOVES: u64 = 1 << 32;
/// More keys than any test has.
const KEYS: usize = 1 << 32;

/// Puts a key in if its number has a place and no key.
pub fn push(heap: &mut PlacedHeap<Key>, key: Key) -> bool {
    let number = key.number();
    if heap.room() == 0 || heap.moves() >= MOVES {
        return false;
    }
    if heap.len() >= KEYS {
        return false;
    }
    if number >= heap.len() + heap.room() || heap.get(number).is_some() {
        return false;
    }
    heap.push_reserved(key);
    true
}

/// A push and a pop in one step, if the key's number has a place and no key.
pub fn push_pop(heap: &mut PlacedHeap<Key>, key: Key) -> Option<Key> {
    let number = key.number();
    if heap.moves() >= MOVES {
        return None;
    }
    if heap.len() >= KEYS {
        return None;
    }
    if number >= heap.len() + heap.room() || heap.get(number).is_some() {
        return None;
    }
    Some(heap.push_pop(key))
}

/// Puts a key into a heap that doesn't know where its keys are.
pub fn push_plain(heap: &mut MinHeap<Key>, key: Key) -> bool {
    if heap.room() == 0 || heap.moves() >= MOVES {
        return false;
    }
    heap.push_reserved(key);
    true
}
