//! One pass over the library's heap, which keeps the keys that a closure names.
ghost use Rattle.std.specs.Prelude.{◌≡◌, ◌≤◌, Bool, filter, map, IsPermutation};
ghost use Rattle.std.specs.BinaryHeap.{IsHeap, heap_capacity, heap_items, heap_len};
ghost use Rattle.std.specs.Fn.{FnReturnsAt};

use std::cmp::Reverse;
use std::collections::BinaryHeap;

pub(crate) fn keep_where<K: Ord + Drop, F: Fn(&K) -> bool>(
    heap: &mut BinaryHeap<Reverse<K>>,
    keep: F,
)
    requires { F.IsAlwaysCallable keep }
    ensures kept { (test : K → Bool) → ((key : K) (answer : Bool) → FnReturnsAt F.Fn keep key answer → answer ≡ test key) → IsPermutation (filter (λ r. test r.0) (heap_items heap.old)) (heap_items heap.new) }
    ensures heap_order { IsHeap (λ x y. K.cmp y.0 x.0) (heap_items heap.new) }
    ensures len { heap_len heap.new ≤ heap_len heap.old }
    ensures capacity { heap_capacity heap.new ≡ heap_capacity heap.old }
{
    heap.retain(
        |held|
            requires { F.IsAlwaysCallable keep }
            ensures { FnReturnsAt F.Fn keep held.now.0 result }
        { keep(&held.0) },
    );
}
