//! Many callers of one dummynet, whose calls become one lawful history.
#![tactic(auto)]

mod after_fault;
mod bell;
mod book;
mod caller;
mod close_fault;
mod closed;
mod desk;
mod hand_out;
mod lasting;
mod lock;
mod open_fault;
mod patience;
mod placed;
mod room;
mod rule;
mod seen;
mod segment;
mod service;
mod steps;
mod take_in;
mod taker;
mod try_after_fault;
mod try_fault;
mod unclosed;
mod unlasting;
mod view;

pub use after_fault::AfterFault;
pub use caller::Caller;
pub use close_fault::CloseFault;
pub use closed::Closed;
pub use dn_shaper::HashKey;
pub use lasting::Lasting;
pub use open_fault::OpenFault;
pub use placed::Placed;
pub use seen::Seen;
pub use segment::Segment;
pub use service::Service;
pub use taker::Taker;
pub use try_after_fault::TryAfterFault;
pub use try_fault::TryFault;
pub use unclosed::Unclosed;
pub use unlasting::Unlasting;
