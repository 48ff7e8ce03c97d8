//! A history file is written record by record.

mod calls;
mod history;
mod items;
mod parts;
mod ranges;
mod replies;
mod target;

pub use history::{write_end, write_entry, write_history};
pub use parts::{parts_are_a_file, write_history_end, write_history_front, write_history_part};
pub use ranges::entry_in_range;
