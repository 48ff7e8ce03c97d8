/// The counts of a flow's packets that are never sent.
///
/// They lie apart from the queues, since no packet that is sent reads them.
#[derive(Clone, Copy)]
pub struct Unsent {
    /// Lost by the loss rate.
    pub lost: u64,
    /// Refused by a full queue.
    pub full: u64,
    /// Discarded by a delete.
    pub discarded: u64,
}
