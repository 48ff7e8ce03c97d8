//! The keys of emptied links leave the heap, or count again.
ghost use Rattle.std.specs.Prelude.{◌≡◌, ◌+◌, ◌<◌, true, false, None, length, IsPermutation};
ghost use Rattle.dn_shaper.specs.Refinement.Emptied.{HasKept, IsFirstCounting, IsTidy, KeepsCounting, counting, is_left};
ghost use Rattle.dn_shaper.specs.Refinement.NextStarts.{backlogged, next_at};

use crate::links::emptied::Emptied;
use crate::links::next_start::NextStart;
use dn_heap::RunHeap;

/// Lets go of the first key if its link left it.
fn drop_one(heap: &mut RunHeap<NextStart>, emptied: &mut Emptied) -> bool
    requires kept { HasKept heap.old emptied.old }
    ensures kept { HasKept heap.new emptied.new }
    ensures keeps { KeepsCounting heap.old emptied.old heap.new emptied.new }
    ensures fewer { result ≡ true → length heap.new.keys + 1 ≡ length heap.old.keys }
    ensures first { result ≡ false → IsFirstCounting heap.new.keys emptied.new }
{
    let Some(&top) = heap.peek() else {
        return false;
    };
    if !emptied.contains(&top) {
        return false;
    }
    heap.pop();
    emptied.forget(&top);
    true
}

/// Lets go of each key that its link left, as long as one is the first.
#[inline(never)]
pub fn drop_first(heap: &mut RunHeap<NextStart>, emptied: &mut Emptied)
    requires kept { HasKept heap.old emptied.old }
    ensures kept { HasKept heap.new emptied.new }
    ensures keeps { KeepsCounting heap.old emptied.old heap.new emptied.new }
    ensures first { IsFirstCounting heap.new.keys emptied.new }
{
    while drop_one(heap, emptied) {}
}

/// Keeps the keys that count.
fn keep_counting(heap: &mut RunHeap<NextStart>, emptied: &Emptied)
    ensures keys { IsPermutation (counting emptied.now heap.old.keys) heap.new.keys }
    ensures room { length heap.new.keys + heap.new.room ≡ length heap.old.keys + heap.old.room }
    ensures keeps_moves { heap.new.moves ≡ heap.old.moves }
{
    heap.retain(|key| !emptied.contains(key));
}

/// Lets go of each key that its link left, in one pass.
#[inline(never)]
fn drop_all(heap: &mut RunHeap<NextStart>, emptied: &mut Emptied)
    requires kept { HasKept heap.old emptied.old }
    ensures kept { HasKept heap.new emptied.new }
    ensures keeps { KeepsCounting heap.old emptied.old heap.new emptied.new }
    ensures none { backlogged emptied.new ≡ 0 }
{
    keep_counting(heap, emptied);
    emptied.clear();
}

/// Lets go of the keys that were left if one of them is at the place.
///
/// In a shaper none is: a link starts no packet while a key that it left is in the heap, so the key that comes back is the same.
pub fn make_way(heap: &mut RunHeap<NextStart>, emptied: &mut Emptied, place: usize)
    requires kept { HasKept heap.old emptied.old }
    ensures kept { HasKept heap.new emptied.new }
    ensures keeps { KeepsCounting heap.old emptied.old heap.new emptied.new }
    ensures none { next_at emptied.new place ≡ None }
{
    if emptied.has(place) {
        drop_all(heap, emptied);
    }
}

/// Lets go of the keys that were left if they take all room.
///
/// In a shaper they don't, since there is a place for each link and no link has two keys.
pub fn make_room(heap: &mut RunHeap<NextStart>, emptied: &mut Emptied, key: &NextStart)
    requires tidy { IsTidy heap.old emptied.old }
    requires some { 0 < heap.old.room + backlogged emptied.old }
    requires counts { is_left emptied.old key.now ≡ false }
    ensures tidy { IsTidy heap.new emptied.new }
    ensures keeps { KeepsCounting heap.old emptied.old heap.new emptied.new }
    ensures room { 0 < heap.new.room }
    ensures counts { is_left emptied.new key.now ≡ false }
{
    if heap.room() == 0 {
        drop_all(heap, emptied);
    }
}
