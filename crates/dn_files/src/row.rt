use dn_types::{Moment, Packet, Target};

/// A row of a packet file: a packet, where it is sent, and when.
#[derive(Clone, Copy, Debug, PartialEq, Eq)]
pub struct Row {
    pub moment: Moment,
    pub target: Target,
    pub packet: Packet,
}
