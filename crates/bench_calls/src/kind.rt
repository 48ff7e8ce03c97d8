use crate::calls::{packet, pipe};
use dn_types::{Call, Moment};

/// How many packets are under way before the Collects.
const HELD: u64 = 20_000;

/// What is called for again and again.
#[derive(Clone, Copy, PartialEq, Eq)]
pub enum Kind {
    /// Moves of the clock, which cost the shaper next to nothing.
    Moves,
    /// Packets that start when they are submitted.
    Packets,
    /// Collects of nothing, while `HELD` packets are under way.
    Collects,
}

impl Kind {
    pub fn name(&self) -> &'static str {
        match self {
            Kind::Moves => "moves",
            Kind::Packets => "packets",
            Kind::Collects => "collects",
        }
    }
}

/// One of the calls that come before those that are measured.
///
/// The pipe is first. Where Collects are measured, the packets that are under way follow.
pub fn before(kind: Kind, place: u64) -> Option<Call> {
    let delay = if kind == Kind::Collects { 1 } else { 0 };
    if place == 0 { pipe(delay) } else { packet(0) }
}

/// How many calls come before those that are measured.
pub fn count_before(kind: Kind) -> u64 {
    if kind == Kind::Collects { HELD + 1 } else { 1 }
}

/// The calls that are measured.
pub fn measured(kind: Kind, moment: u64) -> Option<Call> {
    match kind {
        Kind::Moves => Some(Call::Advance(Moment::new(moment)?)),
        Kind::Packets => packet(moment),
        Kind::Collects => Some(Call::Collect(Moment::new(0)?)),
    }
}
