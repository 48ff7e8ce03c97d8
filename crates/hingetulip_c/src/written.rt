ghost use Rattle.std.specs.Prelude.{◌≡◌, ◌<◌, ℕ, true, IfSome};
ghost use Rattle.hingetulip_c.specs.Statuses.{answered, taken, configure_status, clock_status, clock_of, list_status, list_count, told_moment};
ghost use Rattle.hingetulip_c.specs.Submits.{fate_status, fate_of};

use crate::records::CFate;
use crate::status::{EXHAUSTED, NO_SUCH_PIPE, NO_SUCH_QUEUE, OK, PIPE_HAS_QUEUES};
use dn_types::Reply;

/// Writes a fate, with the numbers of the header.
fn write_fate(fate: &mut CFate, outcome: u32, at: u64, flow: usize, packet: u64) -> u32
    ensures status { result ≡ 0 }
    ensures fate { fate.new ≡ record { at = at; flow = flow; packet = packet; outcome = outcome; reserved = 0 } }
{
    *fate = CFate {
        at,
        flow: flow as u64,
        packet,
        outcome,
        reserved: 0,
    };
    OK
}

/// Writes the fate that a reply tells.
pub(crate) fn put_fate(reply: &Reply, fate: &mut CFate) -> u32
    ensures status { result ≡ fate_status reply.now }
    ensures fate { fate.new ≡ fate_of fate.old reply.now }
    ensures answered { answered result ≡ true }
{
    match reply {
        Reply::Queued { at, flow, packet } => write_fate(fate, 0, *at, *flow, *packet),
        Reply::Lost { at, flow } => write_fate(fate, 1, *at, *flow, 0),
        Reply::Full { at, flow } => write_fate(fate, 2, *at, *flow, 0),
        Reply::NoTarget { at } => write_fate(fate, 3, *at, 0, 0),
        _ => EXHAUSTED,
    }
}

/// Writes where the clock stands, as a reply tells it.
pub(crate) fn put_clock(reply: &Reply, clock: &mut u64) -> u32
    ensures status { result ≡ clock_status reply.now }
    ensures clock { clock.new ≡ clock_of clock.old reply.now }
    ensures answered { answered result ≡ true }
{
    match reply {
        Reply::Advanced { at } => {
            *clock = *at;
            OK
        }
        _ => EXHAUSTED,
    }
}

/// Writes how many items the list of a reply has.
pub(crate) fn put_count(reply: &Reply, count: &mut u64) -> u32
    ensures status { result ≡ list_status reply.now }
    ensures count { count.new ≡ list_count count.old reply.now }
    ensures answered { answered result ≡ true }
{
    match reply {
        Reply::Delivered { at: _, list } => {
            *count = list.as_slice().len() as u64;
            OK
        }
        Reply::Status { list } => {
            *count = list.as_slice().len() as u64;
            OK
        }
        _ => EXHAUSTED,
    }
}

/// The moment, and 2^64 - 1 for none.
pub(crate) fn or_never(first: Option<u64>) -> u64
    ensures value { result ≡ told_moment first }
    ensures before { (at : ℕ) → at < result → IfSome first (λ moment. at < moment) }
{
    match first {
        Some(moment) => moment,
        None => u64::MAX,
    }
}

/// The status that the reply to a command is.
pub(crate) fn command_status(reply: &Reply) -> u32
    ensures status { result ≡ configure_status reply.now }
    ensures taken { taken result ≡ true }
{
    match reply {
        Reply::Configured => OK,
        Reply::Deleted => OK,
        Reply::NoSuchPipe => NO_SUCH_PIPE,
        Reply::PipeHasQueues => PIPE_HAS_QUEUES,
        Reply::NoSuchQueue => NO_SUCH_QUEUE,
        _ => EXHAUSTED,
    }
}
