use dn_types::{Len, Weight};

/// A packet in its flow's queue.
#[derive(Clone, Copy, Debug, PartialEq, Eq)]
pub struct Waiting {
    /// The packet number: the count of packets accepted before it.
    pub packet: u64,
    pub len: Len,
    /// Its queue's weight when it joined.
    pub weight: Weight,
}
