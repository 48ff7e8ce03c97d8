ghost use Rattle.std.specs.Prelude.{◌≡◌, ℕ, List, Option};
ghost use Rattle.dn_shaper.specs.Refinement.NextStarts.{Holds};
ghost use Rattle.dn_shaper.specs.Waking.{earlier as earlier_of, earliest};

use crate::links::link_heap::LinkHeap;

/// The earlier of two moments, where there are both.
pub fn earlier(one: Option<u64>, other: Option<u64>) -> Option<u64>
    ensures { result ≡ earlier_of one other }
{
    match (one, other) {
        (Some(one), Some(other)) => Some(one.min(other)),
        (Some(one), None) => Some(one),
        (None, other) => other,
    }
}

/// The moment from which a link with a backlog is free, of the one that is free first.
pub fn first_free(heap: &LinkHeap) -> Option<u64>
    ensures { (nexts : List (Option ℕ)) → Holds nexts heap.now.keys → result ≡ earliest nexts }
{
    match heap.peek() {
        Some(first) => Some(first.moment),
        None => None,
    }
}
