ghost use Rattle.std.specs.Prelude.{◌≡◌, List, []};
ghost use Rattle.std.specs.Borrow.{ftrue};
ghost use Rattle.dn_wf2q.specs.declared.queued_packet.QueuedPacket.{QueuedPacket};

use crate::queued_packet::QueuedPacket;
use std::marker::Model;

/// What becomes of the packets behind a head.
#[derive(Clone, Copy)]
pub(crate) enum Change {
    /// This packet joins them.
    Joins(QueuedPacket),
    /// The first of them is the head.
    FirstLeaves,
}

/// The packets of a flow that wait behind its head, oldest first. Only proofs know them, so they take no memory.
///
/// The caller keeps them, and tells the scheduler the one that becomes the head.
#[derive(Drop)]
pub(crate) struct Behind {
    pub(crate) ghost packets: { List QueuedPacket },
}

impl Model for Behind {
    ghost also_owns = { λ _. ftrue };
}

// A struct with `also_owns` is neither by itself. This one owns nothing.
unsafe impl Send for Behind {}

unsafe impl Sync for Behind {}

impl Behind {
    ghost use Rattle.dn_wf2q.specs.Queue.{changed};

    pub(crate) fn new() -> Behind
        ensures { result.packets ≡ [] }
    {
        Behind {}
    }

    /// The packets after a change.
    pub(crate) fn then(&self, _change: &Change) -> Behind
        ensures { result.packets ≡ changed _change.now self.now.packets }
    {
        Behind {}
    }
}
