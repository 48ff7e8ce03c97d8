//! For the tests of other crates: readers and writers that give and take bytes in parts and fail on demand, and a packet.
#![tactic(auto)]

mod packets;
mod parts;
mod room;
mod sink;

pub use packets::{example_packet, no_bits, one_started};
pub use parts::Parts;
pub use room::with_room;
pub use sink::{Sink, WhenFull};
