//! Replays and reports: from a configuration and packets to the report of what became of each.
#![tactic(auto)]

mod callers;
mod config;
mod replays;
mod report;

pub use callers::{Gate, NoGate, replay_callers, replay_callers_with_key};
pub use dn_files::{PACKET_LIMIT, ReplayFault, Row, Source, read_config, read_packets};
pub use dn_history::{
    FileAudit, HISTORY_LIMIT, Verdict, audit, audit_file, audit_file_with_key, audit_file_within,
    audit_with_key, read_history, write_history,
};
pub use dn_records::{FromReader, FromWriter, Inlet, Outlet};
pub use dn_shaper::HashKey;
pub use replays::{FileReplay, Manner, replay, replay_files, replay_input, replay_joined};
pub use report::{Outcome, write_report};
