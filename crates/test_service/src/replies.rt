//! What the replies about pipe 1 have to be.
use dn_types::{Delivery, Reply};
use std::process::Abort;

/// The first packet, which was submitted at that moment, makes the first flow.
pub(crate) fn check_queued<R: Abort>(rt: &R, reply: &Reply, moment: u64) {
    assert!(rt; matches!(reply, Reply::Queued { at, flow: 0, packet: 0 } if *at == moment));
}

/// The deliveries that were collected at that moment.
pub(crate) fn check_delivered<R: Abort>(
    rt: &R,
    reply: &Reply,
    moment: u64,
    deliveries: &[Delivery],
) {
    let Reply::Delivered { at, list } = reply else {
        panic!(rt; "nothing was collected")
    };
    assert!(rt; *at == moment);
    assert!(rt; list.as_slice() == deliveries);
}
