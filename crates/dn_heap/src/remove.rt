//! The removal of one key from the library's heap, which has no call for it.
ghost use Rattle.std.specs.Prelude.{◌≡◌, ◌+◌, ◌∷◌, true, IsPermutation};
ghost use Rattle.std.specs.BinaryHeap.{IsHeap, heap_capacity, heap_items, heap_len};
ghost use Rattle.std.specs.List.{list_any};
ghost use Rattle.std.specs.Ordering.{is_eq};

use std::cmp::Reverse;
use std::collections::BinaryHeap;

pub(crate) fn holds<K: Ord>(heap: &BinaryHeap<Reverse<K>>, key: &K) -> bool
    ensures value { result ≡ list_any (λ r. is_eq (K.cmp r.0 key.now)) (heap_items heap.now) }
{
    heap.iter().any(|held| held.0.cmp(key).is_eq())
}

pub(crate) fn remove_one<K: Ord + Drop>(heap: &mut BinaryHeap<Reverse<K>>, key: &K)
    requires held { list_any (λ r. is_eq (K.cmp r.0 key.now)) (heap_items heap.old) ≡ true }
    ensures removed { (r : _) × (is_eq (K.cmp r.0 key.now) ≡ true) × IsPermutation (heap_items heap.old) (r ∷ heap_items heap.new) }
    ensures heap_order { IsHeap (λ x y. K.cmp y.0 x.0) (heap_items heap.new) }
    ensures len { heap_len heap.new + 1 ≡ heap_len heap.old }
    ensures capacity { heap_capacity heap.new ≡ heap_capacity heap.old }
{
    // `retain` asks for each key once, so only the first equal one is let go.
    let mut removed = false;
    heap.retain(|held| {
        if !removed && held.0.cmp(key).is_eq() {
            removed = true;
            false
        } else {
            true
        }
    });
}
