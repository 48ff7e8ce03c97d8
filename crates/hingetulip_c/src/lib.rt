//! Dummynet for C, as include/hingetulip.h declares it: a handle holds a sequential shaper, and each call answers a status.
#![tactic(auto)]

mod audit_handle;
mod caller_handle;
mod client;
mod command_lines;
mod convert;
mod copy;
mod copy_part;
mod entries;
mod entry_lists;
mod entry_records;
mod exports;
mod handle;
mod history_lines;
mod ledger;
mod put;
mod raw_box;
mod reason;
mod records;
mod rows;
mod service_handle;
mod status;
mod written;
