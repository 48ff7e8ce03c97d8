use crate::flow::Flow;
use dn_types::{Deliveries, Delivery, FlowKey, Reply, Statuses, Target};
use std::alloc::{AllocError, Global};
use std::test::Fail;

/// A reply in plain numbers and lists.
#[derive(Clone, Copy)]
pub enum Wanted<'a> {
    Configured,
    NoSuchPipe,
    Deleted,
    PipeHasQueues,
    NoSuchQueue,
    Queued { at: u64, flow: usize, packet: u64 },
    Lost { at: u64, flow: usize },
    Full { at: u64, flow: usize },
    NoTarget { at: u64 },
    Advanced { at: u64 },
    Delivered { at: u64, list: &'a [Delivery] },
    Status { list: &'a [Flow] },
}

// A list with room for so many items. What is refused memory here is tried twice more, so that the shaper is asked all the
// same.
fn with_room<T: Drop>(alloc: Global, n: usize) -> Result<Vec<T>, AllocError> {
    for _ in 0..2u64 {
        if let Ok(items) = Vec::with_capacity(alloc, n) {
            return Ok(items);
        }
    }
    Vec::with_capacity(alloc, n)
}

fn deliveries(alloc: Global, list: &[Delivery]) -> Result<Deliveries, Fail> {
    let mut items = with_room(alloc, list.len())?;
    items.extend_from_slice(list)?;
    Ok(Deliveries::from_vec(items))
}

fn statuses(alloc: Global, list: &[Flow]) -> Result<Statuses, Fail> {
    let mut items = with_room(alloc, list.len())?;
    // The prover asks that a body that moves a state into a list names the types in it.
    let _key: Option<FlowKey> = None;
    let _target: Option<Target> = None;
    for flow in list {
        items.push(flow.status()?)?;
    }
    Ok(Statuses::from_vec(items))
}

impl Wanted<'_> {
    /// The reply.
    pub fn reply(&self, alloc: Global) -> Result<Reply, Fail> {
        Ok(match *self {
            Wanted::Configured => Reply::Configured,
            Wanted::NoSuchPipe => Reply::NoSuchPipe,
            Wanted::Deleted => Reply::Deleted,
            Wanted::PipeHasQueues => Reply::PipeHasQueues,
            Wanted::NoSuchQueue => Reply::NoSuchQueue,
            Wanted::Queued { at, flow, packet } => Reply::Queued { at, flow, packet },
            Wanted::Lost { at, flow } => Reply::Lost { at, flow },
            Wanted::Full { at, flow } => Reply::Full { at, flow },
            Wanted::NoTarget { at } => Reply::NoTarget { at },
            Wanted::Advanced { at } => Reply::Advanced { at },
            Wanted::Delivered { at, list } => Reply::Delivered {
                at,
                list: deliveries(alloc, list)?,
            },
            Wanted::Status { list } => Reply::Status {
                list: statuses(alloc, list)?,
            },
        })
    }
}

pub fn queued<'a>(at: u64, flow: usize, packet: u64) -> Wanted<'a> {
    Wanted::Queued { at, flow, packet }
}

pub fn lost<'a>(at: u64, flow: usize) -> Wanted<'a> {
    Wanted::Lost { at, flow }
}

pub fn full<'a>(at: u64, flow: usize) -> Wanted<'a> {
    Wanted::Full { at, flow }
}

pub fn delivery(packet: u64, flow: usize, start: u64, due: u64) -> Delivery {
    Delivery {
        due,
        packet,
        flow,
        start,
    }
}
