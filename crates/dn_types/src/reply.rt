ghost use Rattle.std.specs.Prelude.{◌≡◌, IfOk};

use crate::deliveries::Deliveries;
use crate::statuses::Statuses;
use std::alloc::AllocError;

/// The reply to a call.
///
/// `at` is the effective moment in nanoseconds, `flow` a flow number, and `packet` a packet number.
#[derive(Debug, PartialEq, Eq, Drop)]
pub enum Reply {
    /// A configuration was accepted.
    Configured,
    /// A queue names a pipe without a configuration, or there is no such pipe to delete.
    NoSuchPipe,
    /// A delete was accepted.
    Deleted,
    /// A pipe that a configured queue names can't be deleted.
    PipeHasQueues,
    /// There is no such queue to delete.
    NoSuchQueue,
    /// The packet was accepted.
    Queued { at: u64, flow: usize, packet: u64 },
    /// The packet was lost by the loss rate.
    Lost { at: u64, flow: usize },
    /// The packet was refused by a full queue.
    Full { at: u64, flow: usize },
    /// The packet's target has no configuration.
    NoTarget { at: u64 },
    /// The clock was moved.
    Advanced { at: u64 },
    /// The packets that are due and that no earlier Collect gave.
    Delivered { at: u64, list: Deliveries },
    /// The state of all flows.
    Status { list: Statuses },
    /// 2^62 calls were answered before: nothing changes any more.
    Exhausted,
}

impl Reply {
    /// An equal reply, or an error where memory was refused.
    pub fn try_clone(&self) -> Result<Reply, AllocError>
        ensures { IfOk result (λ copy. copy ≡ self.now) }
    {
        Ok(match self {
            Reply::Configured => Reply::Configured,
            Reply::NoSuchPipe => Reply::NoSuchPipe,
            Reply::Deleted => Reply::Deleted,
            Reply::PipeHasQueues => Reply::PipeHasQueues,
            Reply::NoSuchQueue => Reply::NoSuchQueue,
            Reply::Queued { at, flow, packet } => Reply::Queued {
                at: *at,
                flow: *flow,
                packet: *packet,
            },
            Reply::Lost { at, flow } => Reply::Lost {
                at: *at,
                flow: *flow,
            },
            Reply::Full { at, flow } => Reply::Full {
                at: *at,
                flow: *flow,
            },
            Reply::NoTarget { at } => Reply::NoTarget { at: *at },
            Reply::Advanced { at } => Reply::Advanced { at: *at },
            Reply::Delivered { at, list } => Reply::Delivered {
                at: *at,
                list: list.try_clone()?,
            },
            Reply::Status { list } => Reply::Status {
                list: list.try_clone()?,
            },
            Reply::Exhausted => Reply::Exhausted,
        })
    }
}
