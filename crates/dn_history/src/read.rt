//! A history file's text is read as a rule and entries.

mod batch;
mod calls;
mod entries;
mod entry_reader;
mod fields;
mod header;
mod history;
mod history_parts;
mod items;
mod items_ahead;
mod numbered_records;
mod plain_forms;
mod progress;
mod remarks;
mod replies;

pub use calls::{is_call, read_caller, read_plain_call};
pub use entry_reader::EntryReader;
pub use history::{HISTORY_LIMIT, read_history};
pub use history_parts::HistoryParts;
