ghost use Rattle.std.specs.Prelude.{◌≡◌, ◌≤◌, [], length, vec_len, vec_capacity, OnOk};
ghost use Rattle.dn_service.specs.Rooms.{FitsRoom, IsRoomFor};

use dn_types::{Call, Deliveries, Delivery, FlowStatus, Reply, Statuses};
use std::alloc::{AllocError, Global};
use std::mem;

/// Memory for the list of a reply's copy, taken before the reply is known.
///
/// It is kept for the next call, since it is taken for all that a reply may have, which is mostly far more than a reply
/// has.
#[derive(Drop)]
pub(crate) struct Room {
    deliveries: Vec<Delivery>,
    statuses: Vec<FlowStatus>,
}

impl Room {
    /// No room. It takes no memory.
    pub(crate) fn new(alloc: Global) -> Room {
        Room {
            deliveries: Vec::new(alloc),
            statuses: Vec::new(alloc),
        }
    }

    /// Room for the reply to the call, whose list has at most `items` items.
    pub(crate) fn reserve(&mut self, call: &Call, items: usize) -> Result<(), AllocError>
        ensures empty { OnOk result ((self.new.deliveries.items ≡ []) × (self.new.statuses.items ≡ [])) }
        ensures room { OnOk result (IsRoomFor call.now items (vec_capacity self.new.deliveries) (vec_capacity self.new.statuses)) }
    {
        self.deliveries.clear();
        self.statuses.clear();
        match call {
            Call::Collect(_) => self.deliveries.reserve(items),
            Call::Show => self.statuses.reserve(items),
            _ => Ok(()),
        }
    }

    /// An equal reply. Its list has memory of its own, or this room's where that is refused.
    pub(crate) fn copy_of(&mut self, alloc: Global, reply: &Reply) -> Reply
        requires empty { (self.old.deliveries.items ≡ []) × (self.old.statuses.items ≡ []) }
        requires room { FitsRoom (vec_capacity self.old.deliveries) (vec_capacity self.old.statuses) reply.now }
        ensures { result ≡ reply.now }
    {
        match reply {
            Reply::Configured => Reply::Configured,
            Reply::NoSuchPipe => Reply::NoSuchPipe,
            Reply::Deleted => Reply::Deleted,
            Reply::PipeHasQueues => Reply::PipeHasQueues,
            Reply::NoSuchQueue => Reply::NoSuchQueue,
            Reply::Queued { at, flow, packet } => Reply::Queued {
                at: *at,
                flow: *flow,
                packet: *packet,
            },
            Reply::Lost { at, flow } => Reply::Lost {
                at: *at,
                flow: *flow,
            },
            Reply::Full { at, flow } => Reply::Full {
                at: *at,
                flow: *flow,
            },
            Reply::NoTarget { at } => Reply::NoTarget { at: *at },
            Reply::Advanced { at } => Reply::Advanced { at: *at },
            Reply::Delivered { at, list } => Reply::Delivered {
                at: *at,
                list: Deliveries::from_vec(copied(&mut self.deliveries, alloc, list.as_slice())),
            },
            Reply::Status { list } => Reply::Status {
                list: Statuses::from_vec(copied(&mut self.statuses, alloc, list.as_slice())),
            },
            Reply::Exhausted => Reply::Exhausted,
        }
    }
}

/// A list of the items in no more memory than it needs.
///
/// If that is refused, it is the room with the items in it, and the next call takes other memory.
fn copied<T: Copy + Drop>(room: &mut Vec<T>, alloc: Global, items: &[T]) -> Vec<T>
    requires { (room.old.items ≡ []) × (length items.now ≤ vec_capacity room.old) }
    ensures { result.items ≡ items.now }
{
    match Vec::from_slice(alloc, items) {
        Ok(list) => list,
        Err(_) => filled(mem::replace(room, Vec::new(alloc)), items),
    }
}

/// The items in the room.
fn filled<T: Copy + Drop>(mut room: Vec<T>, items: &[T]) -> Vec<T>
    requires { (room.items ≡ []) × (length items.now ≤ vec_capacity room) }
    ensures { result.items ≡ items.now }
{
    for item in items {
        room.push_reserved(*item);
    }
    room
}
