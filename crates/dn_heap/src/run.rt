//! The run of a heap: the keys that came in order, which need no sift.
ghost use Rattle.std.specs.Prelude.{◌≡◌, ◌<◌, ◌≤◌, Bool, length, true, false, All, filter};
ghost use Rattle.std.specs.Fn.{FnReturnsAt};
ghost use Rattle.std.specs.Ordering.{is_lt};
ghost use Rattle.std.specs.VecDeque.{deque_capacity, deque_len};
ghost use Rattle.dn_heap.specs.Run.{IsAscending, Leads};

use crate::min_heap::MinHeap;
use std::collections::VecDeque;

/// Whether a key can join the run at its end.
pub(crate) fn can_join<K: Ord>(run: &VecDeque<K>, key: &K) -> bool
    requires { IsAscending K.cmp run.now.items }
    ensures in_order { result ≡ true → All (λ k. is_lt (K.cmp key.now k) ≡ false) run.now.items }
{
    match run.back() {
        Some(last) => key.cmp(last).is_ge(),
        None => true,
    }
}

/// Whether the first key of the run leaves before the least of the heap.
pub(crate) fn leads<K: Ord>(run: &VecDeque<K>, heap: &MinHeap<K>) -> bool
    requires { IsAscending K.cmp run.now.items }
    ensures in_run { result ≡ true → 0 < length run.now.items }
    ensures run { result ≡ true → Leads K.cmp run.now.items heap.now.keys }
    ensures in_heap { result ≡ false → 0 < length run.now.items → 0 < length heap.now.keys }
    ensures heap { result ≡ false → Leads K.cmp heap.now.keys run.now.items }
{
    let Some(first) = run.front() else {
        return false;
    };
    match heap.peek() {
        Some(top) => first.cmp(top).is_lt(),
        None => true,
    }
}

/// One pass over the run, which keeps the keys that a closure names.
pub(crate) fn keep_in_run<K: Ord + Drop, F: Fn(&K) -> bool>(run: &mut VecDeque<K>, keep: F)
    requires callable { F.IsAlwaysCallable keep }
    requires in_order { IsAscending K.cmp run.old.items }
    ensures kept { (test : K → Bool) → ((key : K) (answer : Bool) → FnReturnsAt F.Fn keep key answer → answer ≡ test key) → run.new.items ≡ filter test run.old.items }
    ensures ascending { IsAscending K.cmp run.new.items }
    ensures len { deque_len run.new ≤ deque_len run.old }
    ensures capacity { deque_capacity run.new ≡ deque_capacity run.old }
{
    run.retain(
        |held|
            requires { F.IsAlwaysCallable keep }
            ensures { FnReturnsAt F.Fn keep held.now result }
        { keep(held) },
    );
}
