use crate::flow_key::FlowKey;

/// The state of one flow: what is in its queue, and the counts of its packets so far.
#[derive(Clone, Copy, Debug, PartialEq, Eq)]
pub struct FlowStatus {
    pub flow: usize,
    pub key: FlowKey,
    /// Packets in the queue.
    pub queued: u64,
    /// Bytes in the queue.
    pub bytes: u64,
    pub lost: u64,
    /// Packets refused by a full queue.
    pub full: u64,
    pub started: u64,
    /// Packets that a delete took out of the queue.
    pub discarded: u64,
}
