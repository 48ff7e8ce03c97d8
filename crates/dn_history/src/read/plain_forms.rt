//! The records of which a long history has most, read from the bytes of their lines.

ghost use Rattle.std.specs.Prelude.{IfSome};
ghost use Rattle.dn_history.specs.PlainRecords.{BeginsCall, BeginsDelivery, BeginsReply};

use dn_config::number_until;
use dn_files::{number_at_end, target_at_front, tuple_at_front};
use dn_types::{Call, Delivery, Len, Moment, Packet, Reply};

/// The caller and the call of the plain line of a Submit that a text begins with, and what follows the line.
///
/// None if the text begins otherwise.
pub(crate) fn submit_at_front(text: &[u8]) -> Option<(usize, Call, &[u8])>
    ensures { IfSome result (λ p. BeginsCall text.now p.0 p.1 p.2.now) }
{
    let text = text.strip_prefix(b"c,")?;
    let (caller, text) = number_until(text, b',', 0, 15)?;
    let text = text.strip_prefix(b"submit,")?;
    // The prover has no rule for `?` at a pair of a value of dn_types and a slice.
    let Some((target, text)) = target_at_front(text) else {
        return None;
    };
    let Some((tuple, text)) = tuple_at_front(text) else {
        return None;
    };
    let (len, text) = number_until(text, b',', 1, 65_535)?;
    let (word, text) = number_until(text, b',', 0, 4_294_967_295)?;
    let (moment, text) = number_at_end(text, 0, 1 << 62)?;
    let packet = Packet {
        tuple,
        len: Len::new(len as u16)?,
        word: word as u32,
    };
    let call = Call::Submit {
        target,
        packet,
        moment: Moment::new(moment)?,
    };
    Some((caller as usize, call, text))
}

/// The reply of the plain line of an accepted packet that a text begins with, and what follows the line.
///
/// None if the text begins otherwise.
pub(crate) fn queued_at_front(text: &[u8]) -> Option<(Reply, &[u8])>
    ensures { IfSome result (λ p. BeginsReply text.now p.0 p.1.now) }
{
    let text = text.strip_prefix(b"r,queued,")?;
    let (at, text) = number_until(text, b',', 0, u64::MAX)?;
    let (flow, text) = number_until(text, b',', 0, u64::MAX)?;
    let (packet, text) = number_at_end(text, 0, u64::MAX)?;
    let reply = Reply::Queued {
        at,
        flow: flow as usize,
        packet,
    };
    Some((reply, text))
}

/// The delivery of the plain line that a text begins with, and what follows the line.
///
/// None if the text begins otherwise.
pub(crate) fn delivery_at_front(text: &[u8]) -> Option<(Delivery, &[u8])>
    ensures { IfSome result (λ p. BeginsDelivery text.now p.0 p.1.now) }
{
    let text = text.strip_prefix(b"d,")?;
    let (packet, text) = number_until(text, b',', 0, u64::MAX)?;
    let (flow, text) = number_until(text, b',', 0, u64::MAX)?;
    let (start, text) = number_until(text, b',', 0, u64::MAX)?;
    let (due, text) = number_at_end(text, 0, u64::MAX)?;
    let delivery = Delivery {
        due,
        packet,
        flow: flow as usize,
        start,
    };
    Some((delivery, text))
}
