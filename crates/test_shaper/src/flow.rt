use crate::key::Key;
use dn_types::FlowStatus;
use std::test::Fail;

/// The state of a flow that a Show gives, with a key of plain numbers.
#[derive(Clone, Copy)]
pub struct Flow {
    pub flow: usize,
    pub key: Key,
    pub queued: u64,
    pub bytes: u64,
    pub lost: u64,
    pub full: u64,
    pub started: u64,
    pub discarded: u64,
}

impl Flow {
    /// The state, for a reply.
    pub fn status(&self) -> Result<FlowStatus, Fail> {
        Ok(FlowStatus {
            flow: self.flow,
            key: self.key.flow_key()?,
            queued: self.queued,
            bytes: self.bytes,
            lost: self.lost,
            full: self.full,
            started: self.started,
            discarded: self.discarded,
        })
    }
}

/// The state of a flow that has lost or refused no packet.
pub fn status(
    flow: usize,
    key: Key,
    (queued, bytes): (u64, u64),
    started: u64,
    discarded: u64,
) -> Flow {
    Flow {
        flow,
        key,
        queued,
        bytes,
        lost: 0,
        full: 0,
        started,
        discarded,
    }
}
