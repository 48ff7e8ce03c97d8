//! A live session: calls come as records, a line each, and each is answered at once.
#![tactic(auto)]

mod answers;
mod asked;
mod bad_line;
mod cause;
mod line_fields;
mod line_source;
mod read_line;
mod served;
mod session;

pub use dn_shaper::HashKey;
pub use served::Served;
pub use session::live;
