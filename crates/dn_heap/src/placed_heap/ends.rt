//! How a key comes into a heap that knows where its keys are, is found there, and leaves.
ghost use Rattle.std.specs.Prelude.{◌≡◌, ℕ, ◌+◌, ◌<◌, ◌≤◌, ◌≢◌, ◌^◌, ◌∷◌, All, IfNone, IfSome, slice_index_or, IsPermutation};
ghost use Rattle.std.specs.Vec.{vec_capacity, vec_len};
ghost use Rattle.std_alloc.specs.BinaryHeap.{IsHeap, lt_by_cmp};
ghost use Rattle.std_alloc.specs.BinaryHeap.Sift.{IsHeapWithHole};
ghost use Rattle.dn_heap.specs.Placed.{ArePlaced, ArePlacedBut, IsOrdered, back};

use crate::numbered::Numbered;
use crate::placed_heap::sift::{lift, settle};

/// Puts a key in, whose number no key has.
pub(crate) fn put<K: Ord + Copy + Numbered>(keys: &mut Vec<K>, places: &mut Vec<u32>, key: K)
    requires room { vec_len keys.old < vec_capacity keys.old }
    requires few { vec_len keys.old < 2 ^ 32 }
    requires number { K.number key < vec_len places.old }
    requires free { All (λ k. K.number k ≢ K.number key) keys.old.items }
    requires placed { ArePlaced K.number keys.old.items places.old.items }
    requires heap { IsHeap (back K.cmp) keys.old.items }
    ensures keys { IsPermutation (key ∷ keys.old.items) keys.new.items }
    ensures len { vec_len keys.new ≡ vec_len keys.old + 1 }
    ensures capacity { vec_capacity keys.new ≡ vec_capacity keys.old }
    ensures numbers { vec_len places.new ≡ vec_len places.old }
    ensures placed { ArePlaced K.number keys.new.items places.new.items }
    ensures heap { IsHeap (back K.cmp) keys.new.items }
{
    let last = keys.len();
    keys.push_reserved(key);
    lift(keys.as_mut_slice(), places.as_mut_slice(), last);
}

/// Where the key of a number is.
pub(crate) fn find<K: Ord + Copy + Numbered>(
    keys: &Vec<K>,
    places: &Vec<u32>,
    number: usize,
) -> Option<usize>
    requires placed { ArePlaced K.number keys.now.items places.now.items }
    ensures some { IfSome result (λ at. (at < vec_len keys.now) × ((d : K) → K.number (slice_index_or keys.now.items at d) ≡ number)) }
    ensures none { IfNone result (All (λ k. K.number k ≢ number) keys.now.items) }
{
    let Some(&at) = places.get(number) else {
        return None;
    };
    let Some(key) = keys.get(at as usize) else {
        return None;
    };
    if key.number() != number {
        return None;
    }
    Some(at as usize)
}

/// A key came from the end to a place from which one was taken, or that was the end.
fn mend<K: Ord + Copy + Numbered>(keys: &mut Vec<K>, places: &mut Vec<u32>, at: usize)
    requires few { vec_len keys.old ≤ 2 ^ 32 }
    requires placed_but { at < vec_len keys.old → ArePlacedBut K.number keys.old.items places.old.items at }
    requires hole { at < vec_len keys.old → IsHeapWithHole (lt_by_cmp (back K.cmp)) keys.old.items at (vec_len keys.old) }
    requires placed { vec_len keys.old ≤ at → ArePlaced K.number keys.old.items places.old.items }
    requires heap { vec_len keys.old ≤ at → IsHeap (back K.cmp) keys.old.items }
    ensures ordered { IsOrdered K.number keys.old.items keys.new.items places.old.items places.new.items }
    ensures capacity { vec_capacity keys.new ≡ vec_capacity keys.old }
    ensures heap { IsHeap (back K.cmp) keys.new.items }
{
    if keys.len() <= at {
        return;
    }
    settle(keys.as_mut_slice(), places.as_mut_slice(), at);
}

/// Takes out the key at a place.
pub(crate) fn take_at<K: Ord + Copy + Numbered>(
    keys: &mut Vec<K>,
    places: &mut Vec<u32>,
    at: usize,
) -> K
    requires at { at < vec_len keys.old }
    requires few { vec_len keys.old ≤ 2 ^ 32 }
    requires placed { ArePlaced K.number keys.old.items places.old.items }
    requires heap { IsHeap (back K.cmp) keys.old.items }
    ensures value { result ≡ slice_index_or keys.old.items at result }
    ensures keys { IsPermutation keys.old.items (result ∷ keys.new.items) }
    ensures len { vec_len keys.new + 1 ≡ vec_len keys.old }
    ensures capacity { vec_capacity keys.new ≡ vec_capacity keys.old }
    ensures numbers { vec_len places.new ≡ vec_len places.old }
    ensures placed { ArePlaced K.number keys.new.items places.new.items }
    ensures heap { IsHeap (back K.cmp) keys.new.items }
{
    let key = keys.swap_remove(at);
    mend(keys, places, at);
    key
}
