//! The report of a history: what became of the packet of each row.

mod delivered;
mod fate;
mod kept;
mod kept_rows;
mod line;
mod line_text;
mod marks;
mod order;
mod others;
mod outcome;
mod outs;
mod parts;
mod refusal;
mod write;
mod write_kept;

pub(crate) use delivered::{delivered_by, last_delivered};
pub(crate) use kept::Kept;
pub use outcome::Outcome;
pub use write::write_report;
pub(crate) use write_kept::write_kept;
