use crate::asked::Asked;
use crate::destination::{Destination, pipe, queue};
use crate::flow::Flow;
use crate::sent::{Sent, sized};
use crate::wanted::Wanted;
use dn_types::Delivery;

/// A call and the reply that it gets: a row of an example's table.
///
/// It is plain data, so that a table is made by calls that can't fail.
#[derive(Clone, Copy)]
pub struct Step<'a> {
    pub asked: Asked<'a>,
    pub wanted: Wanted<'a>,
}

/// A Configure call of a configuration line.
pub fn line<'a>(line: &'a str, wanted: Wanted<'a>) -> Step<'a> {
    Step {
        asked: Asked::Line(line),
        wanted,
    }
}

/// A Configure call that is answered Configured.
pub fn config(text: &str) -> Step<'_> {
    line(text, Wanted::Configured)
}

/// A Submit of a packet.
pub fn submit(destination: Destination, packet: Sent, at: u64, wanted: Wanted<'_>) -> Step<'_> {
    Step {
        asked: Asked::Submit {
            destination,
            packet,
            at,
        },
        wanted,
    }
}

/// A Submit of a packet of 1,000 bytes to a pipe.
pub fn to_pipe(number: u32, at: u64, wanted: Wanted<'_>) -> Step<'_> {
    submit(pipe(number), sized(1_000), at, wanted)
}

/// A Submit of a packet of 1,000 bytes to a queue.
pub fn to_queue(number: u32, at: u64, wanted: Wanted<'_>) -> Step<'_> {
    submit(queue(number), sized(1_000), at, wanted)
}

/// An Advance to a moment that no call before it has passed.
pub fn advance<'a>(at: u64) -> Step<'a> {
    Step {
        asked: Asked::Advance(at),
        wanted: Wanted::Advanced { at },
    }
}

/// A Collect at a moment that no call before it has passed.
pub fn collect(at: u64, list: &[Delivery]) -> Step<'_> {
    Step {
        asked: Asked::Collect(at),
        wanted: Wanted::Delivered { at, list },
    }
}

/// A Show.
pub fn show(list: &[Flow]) -> Step<'_> {
    Step {
        asked: Asked::Show,
        wanted: Wanted::Status { list },
    }
}
