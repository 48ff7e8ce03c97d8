//! What a link does with a packet: how long its transmission takes, when it is due, and the packets under way.
#![tactic(auto)]

mod delay_line;
mod link;
mod timing;

pub use delay_line::DelayLine;
pub use link::Link;
pub use timing::{due, tx_time};
