//! History files: calls and their replies are written, read back, and audited.
#![tactic(auto)]

mod file_audit;
mod history_audit;
mod history_version;
mod read;
mod running_audit;
mod verdict;
mod write;

pub use file_audit::{FileAudit, audit_file, audit_file_with_key, audit_file_within};
pub use history_audit::{audit, audit_with_key};
pub use read::{
    EntryReader, HISTORY_LIMIT, HistoryParts, is_call, read_caller, read_history, read_plain_call,
};
pub use verdict::Verdict;
pub use write::{
    entry_in_range, parts_are_a_file, write_end, write_entry, write_history, write_history_end,
    write_history_front, write_history_part,
};
