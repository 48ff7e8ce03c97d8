ghost use Rattle.std.specs.Prelude.{◌≡◌};
ghost use Rattle.std.specs.Option.{option_map};
ghost use Rattle.dn_wf2q.specs.Queue.{untagged};

use dn_types::{Len, Weight};

/// A packet that waits. Its tags follow from its place in its flow's queue.
#[derive(Clone, Copy)]
pub(crate) struct QueuedPacket {
    pub(crate) len: u16,
    pub(crate) weight: u8,
}

impl QueuedPacket {
    /// The packet of this length and weight, where there is one.
    pub(crate) fn of(packet: Option<(Len, Weight)>) -> Option<QueuedPacket>
        ensures { option_map untagged result ≡ packet }
    {
        match packet {
            Some((len, weight)) => Some(QueuedPacket {
                len: len.get(),
                weight: weight.get(),
            }),
            None => None,
        }
    }
}
