//! The queues of packets that a `Sched` keeps.
ghost use Rattle.std.specs.Prelude.{◌≡◌, ◌+◌, ◌<◌, ◌≤◌, [], drop, length, map, slice_get, IfOk, OnOk};
ghost use Rattle.std.specs.Vec.{vec_len, vec_capacity};
ghost use Rattle.dn_wf2q.specs.Schedule.{room_at};
ghost use Rattle.dn_wf2q.specs.Stored.{IsMore, spare};

use crate::rank::SLOTS;
use dn_types::{Len, Weight};
use std::alloc::{AllocError, Global};
use std::collections::VecDeque;

/// For how many packets a queue's first block of memory has room.
const FIRST_PLACES: usize = 4;

/// The first packet leaves, and the one that is then the first is answered.
pub(crate) fn take_first(queue: &mut VecDeque<(Len, Weight)>) -> Option<(Len, Weight)>
    ensures rest { queue.new.items ≡ drop 1 queue.old.items }
    ensures next { result ≡ slice_get queue.new.items 0 }
    ensures room { spare queue.old ≤ spare queue.new }
{
    let _sent = queue.pop_front();
    match queue.front() {
        Some(next) => Some(*next),
        None => None,
    }
}

/// A queue with room for the first packet at a slot that has none, and places for it and those before it.
pub(crate) fn reserve_queue(
    queues: &mut Vec<VecDeque<(Len, Weight)>>,
    alloc: Global,
    slot: usize,
) -> Result<VecDeque<(Len, Weight)>, AllocError>
    requires above { vec_len queues.old ≤ slot }
    ensures items { queues.new.items ≡ queues.old.items }
    ensures empty { IfOk result (λ queue. queue.items ≡ []) }
    ensures place { IfOk result (λ queue. 0 < spare queue) }
    ensures room { OnOk result (slot < vec_capacity queues.new) }
{
    // A key of the heaps has no room for a slot beyond these.
    if slot >= SLOTS {
        return Err(AllocError);
    }
    let queue = VecDeque::with_capacity(alloc, FIRST_PLACES)?;
    queues.reserve(slot + 1 - queues.len())?;
    Ok(queue)
}

/// Adds queues without packets, the last of them at `slot`.
pub(crate) fn add_queues(
    queues: &mut Vec<VecDeque<(Len, Weight)>>,
    alloc: Global,
    slot: usize,
    last: VecDeque<(Len, Weight)>,
)
    requires above { vec_len queues.old ≤ slot }
    requires room { slot < vec_capacity queues.old }
    requires empty { last.items ≡ [] }
    requires place { 0 < spare last }
    ensures more { IsMore queues.old.items queues.new.items }
    ensures len { length queues.new.items ≡ slot + 1 }
    ensures place { 0 < room_at (map spare queues.new.items) slot }
{
    'blanks: while queues.len() < slot {
        queues.push_reserved(VecDeque::new(alloc));
    }
    queues.push_reserved(last);
}
