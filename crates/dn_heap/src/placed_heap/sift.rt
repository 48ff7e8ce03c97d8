//! The moves within a heap that knows where its keys are.
ghost use Rattle.std.specs.Prelude.{◌≡◌, ℕ, ◌+◌, ◌*◌, ◌<◌, ◌≤◌, ◌≢◌, ◌^◌, length, slice_index_or, slice_set, swap};
ghost use Rattle.std_alloc.specs.BinaryHeap.{IsHeap, lt_by_cmp};
ghost use Rattle.std_alloc.specs.BinaryHeap.Sift.{ComparesAt, IsGreaterChild, IsHeapWithHole, SiftsUp};
ghost use Rattle.core.specs.Slice.Heapsort.{IsHeapWithin};
ghost use Rattle.dn_heap.specs.Placed.{ArePlaced, ArePlacedBut, IsMoved, IsOrdered, back};

use crate::numbered::Numbered;

/// The key at `to` goes to the hole at `at`, which is at `to` then.
///
/// The hole stands for `key`, which is written once its place is known.
#[inline(always)]
fn move_hole<K: Ord + Copy + Numbered>(
    keys: &mut [K],
    places: &mut [u32],
    key: K,
    at: usize,
    to: usize,
) -> usize
    requires at { at < length keys.old }
    requires to { to < length keys.old }
    requires few { length keys.old ≤ 2 ^ 32 }
    requires apart { to ≢ at }
    requires placed { ArePlacedBut K.number (slice_set keys.old at key) places.old at }
    ensures place { result ≡ to }
    ensures len { length keys.new ≡ length keys.old }
    ensures items { slice_set keys.new to key ≡ swap (slice_set keys.old at key) at to }
    ensures moved { IsMoved K.number (slice_set keys.old at key) (slice_set keys.new to key) places.old places.new to }
{
    let other = keys[to];
    let number = other.number();
    places[number] = at as u32;
    keys[at] = other;
    to
}

/// Whether the key at one place is less than that at another.
#[inline(always)]
fn is_less<K: Ord>(keys: &[K], at: usize, other: usize) -> bool
    requires at { at < length keys.now }
    requires other { other < length keys.now }
    ensures { ComparesAt (back K.cmp) keys.now other at result }
{
    keys[at].cmp(&keys[other]).is_lt()
}

/// Whether a key is less than the one at a place.
#[inline(always)]
fn precedes<K: Ord>(key: &K, keys: &[K], other: usize) -> bool
    requires other { other < length keys.now }
    ensures { (d : K) → result ≡ lt_by_cmp (back K.cmp) (slice_index_or keys.now other d) key.now }
{
    key.cmp(&keys[other]).is_lt()
}

/// The place of a least child.
#[inline(always)]
fn lesser_child<K: Ord>(keys: &[K], at: usize, len: usize) -> usize
    requires parent { 2 * at + 1 < len }
    requires len { len ≡ length keys.now }
    ensures within { result < len }
    ensures child { at * 2 + 1 ≤ result }
    ensures next { result ≤ at * 2 + 2 }
    ensures least { IsGreaterChild (back K.cmp) keys.now at result len }
{
    let left = 2 * at + 1;
    if len <= left + 1 {
        return left;
    }
    let is_left = is_less(keys, left, left + 1);
    left + !is_left as usize
}

/// Moves a hole up until the key before it isn't greater than the key that it stands for.
fn rise<K: Ord + Copy + Numbered>(
    keys: &mut [K],
    places: &mut [u32],
    key: K,
    mut at: usize,
) -> usize
    requires at { at < length keys.old }
    requires few { length keys.old ≤ 2 ^ 32 }
    requires placed { ArePlacedBut K.number (slice_set keys.old at key) places.old at }
    ensures len { length keys.new ≡ length keys.old }
    ensures moved { IsMoved K.number (slice_set keys.old at key) (slice_set keys.new result key) places.old places.new result }
    ensures rises { SiftsUp (back K.cmp) (slice_set keys.old at key) at (slice_set keys.new result key) }
{
    while 0 < at && precedes(&key, keys, (at - 1) / 2) {
        at = move_hole(keys, places, key, at, (at - 1) / 2);
    }
    at
}

/// Moves a hole down to a leaf, past the lesser of two children each time.
fn fall<K: Ord + Copy + Numbered>(
    keys: &mut [K],
    places: &mut [u32],
    key: K,
    mut at: usize,
) -> usize
    requires at { at < length keys.old }
    requires few { length keys.old ≤ 2 ^ 32 }
    requires placed { ArePlacedBut K.number (slice_set keys.old at key) places.old at }
    requires hole { IsHeapWithHole (lt_by_cmp (back K.cmp)) (slice_set keys.old at key) at (length keys.old) }
    ensures len { length keys.new ≡ length keys.old }
    ensures moved { IsMoved K.number (slice_set keys.old at key) (slice_set keys.new result key) places.old places.new result }
    ensures hole { IsHeapWithHole (lt_by_cmp (back K.cmp)) (slice_set keys.new result key) result (length keys.old) }
    ensures leaf { length keys.old ≤ result * 2 + 1 }
{
    let len = keys.len();
    while at < len / 2 {
        let child = lesser_child(keys, at, len);
        at = move_hole(keys, places, key, at, child);
    }
    at
}

/// Writes the key into the hole that stands for it, and its place.
#[inline(always)]
fn fill<K: Ord + Copy + Numbered>(keys: &mut [K], places: &mut [u32], key: K, at: usize)
    requires at { at < length keys.old }
    requires few { length keys.old ≤ 2 ^ 32 }
    requires placed { ArePlacedBut K.number (slice_set keys.old at key) places.old at }
    ensures keys { keys.new ≡ slice_set keys.old at key }
    ensures placed { ArePlaced K.number keys.new places.new }
    ensures numbers { length places.new ≡ length places.old }
{
    keys[at] = key;
    places[key.number()] = at as u32;
}

/// The key at a place, which may be anything, goes to where it belongs.
pub(crate) fn settle<K: Ord + Copy + Numbered>(keys: &mut [K], places: &mut [u32], from: usize)
    requires at { from < length keys.old }
    requires few { length keys.old ≤ 2 ^ 32 }
    requires placed { ArePlacedBut K.number keys.old places.old from }
    requires hole { IsHeapWithHole (lt_by_cmp (back K.cmp)) keys.old from (length keys.old) }
    ensures ordered { IsOrdered K.number keys.old keys.new places.old places.new }
    ensures heap { IsHeap (back K.cmp) keys.new }
{
    let key = keys[from];
    let leaf = fall(keys, places, key, from);
    let to = rise(keys, places, key, leaf);
    fill(keys, places, key, to);
}

/// The last key goes up to where it belongs.
pub(crate) fn lift<K: Ord + Copy + Numbered>(keys: &mut [K], places: &mut [u32], last: usize)
    requires at { last + 1 ≡ length keys.old }
    requires few { length keys.old ≤ 2 ^ 32 }
    requires placed { ArePlacedBut K.number keys.old places.old last }
    requires heap { IsHeapWithin (lt_by_cmp (back K.cmp)) keys.old 0 last }
    ensures ordered { IsOrdered K.number keys.old keys.new places.old places.new }
    ensures heap { IsHeap (back K.cmp) keys.new }
{
    let key = keys[last];
    let to = rise(keys, places, key, last);
    fill(keys, places, key, to);
}
