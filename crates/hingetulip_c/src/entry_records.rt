//! What a call and a reply are in C's words.

ghost use Rattle.std.specs.Prelude.{◌≡◌};
ghost use Rattle.hingetulip_c.specs.EntryRecords.{call_number, only_at, only_moment, packet_of as call_packet, refusal, reply_number, told_fate};
ghost use Rattle.hingetulip_c.specs.Statuses.{list_count};

use crate::records::{CFate, CPacket};
use crate::rows::packet_of;
use crate::status::{EXHAUSTED, NO_SUCH_PIPE, NO_SUCH_QUEUE, OK, PIPE_HAS_QUEUES};
use crate::written::{put_count, put_fate};
use dn_files::Row;
use dn_types::{Call, Reply};

/// The number of a call.
pub(crate) fn call_number(call: &Call) -> u8
    ensures { result ≡ call_number call.now }
{
    match call {
        Call::Configure(_) => 0,
        Call::Submit { .. } => 1,
        Call::Advance(_) => 2,
        Call::Collect(_) => 3,
        Call::Show => 4,
    }
}

/// A packet of a moment alone.
fn only_moment(moment: u64) -> CPacket
    ensures { result ≡ only_moment moment }
{
    CPacket {
        moment,
        src: 0,
        dst: 0,
        word: 0,
        sport: 0,
        dport: 0,
        length: 0,
        number: 0,
        kind: 0,
        proto: 0,
        reserved: 0,
    }
}

/// The packet of a call.
pub(crate) fn call_packet(call: &Call) -> CPacket
    ensures { result ≡ call_packet call.now }
{
    match call {
        Call::Submit {
            target,
            packet,
            moment,
        } => {
            let row = Row {
                moment: *moment,
                target: *target,
                packet: *packet,
            };
            packet_of(&row)
        }
        Call::Advance(moment) => only_moment(moment.get()),
        Call::Collect(moment) => only_moment(moment.get()),
        Call::Configure(_) => only_moment(0),
        Call::Show => only_moment(0),
    }
}

/// The number of what a reply tells.
pub(crate) fn reply_number(reply: &Reply) -> u8
    ensures { result ≡ reply_number reply.now }
{
    match reply {
        Reply::Configured => 1,
        Reply::Deleted => 2,
        Reply::Queued { .. } => 3,
        Reply::Lost { .. } => 3,
        Reply::Full { .. } => 3,
        Reply::NoTarget { .. } => 3,
        Reply::Advanced { .. } => 4,
        Reply::Delivered { .. } => 5,
        Reply::Status { .. } => 6,
        _ => 0,
    }
}

/// The status that a refusal is, and DN_OK of another reply.
pub(crate) fn refusal(reply: &Reply) -> u32
    ensures { result ≡ refusal reply.now }
{
    match reply {
        Reply::Exhausted => EXHAUSTED,
        Reply::NoSuchPipe => NO_SUCH_PIPE,
        Reply::PipeHasQueues => PIPE_HAS_QUEUES,
        Reply::NoSuchQueue => NO_SUCH_QUEUE,
        _ => OK,
    }
}

/// A fate of a moment alone.
fn only_at(at: u64) -> CFate
    ensures { result ≡ only_at at }
{
    CFate {
        at,
        flow: 0,
        packet: 0,
        outcome: 0,
        reserved: 0,
    }
}

/// The fate of a reply.
pub(crate) fn told_fate(reply: &Reply) -> CFate
    ensures { result ≡ told_fate reply.now }
{
    match reply {
        Reply::Advanced { at } => only_at(*at),
        Reply::Delivered { at, list: _ } => only_at(*at),
        _ => {
            let mut fate = only_at(0);
            let _status = put_fate(reply, &mut fate);
            fate
        }
    }
}

/// How many items the list of a reply has.
pub(crate) fn list_count(reply: &Reply) -> u64
    ensures { result ≡ list_count 0 reply.now }
{
    let mut count = 0;
    let _status = put_count(reply, &mut count);
    count
}
