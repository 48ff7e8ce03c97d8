//! Reads configurations and packet files.
//!
//! What dn_history shares with them is public too: faults, whole inputs and outlets, and the fields of records.
#![tactic(auto)]

mod config;
mod feed;
mod fields;
mod input;
mod line_end;
mod output;
mod packet_fields;
mod packet_reader;
mod packets;
mod plain_row;
mod quoted_row;
mod replay_fault;
mod row;
mod row_fields;
mod row_parts;
mod source;
mod wide_row;

pub use config::{CONFIG_LIMIT, command_at, read_config};
pub use feed::{Feed, feed_all};
pub use fields::{column, is_form, is_name, number_at};
pub use input::read_input;
pub use line_end::{behind_first, number_at_end};
pub use output::{number, write_text};
pub use packet_fields::{moment_at, packet_at, target_at, target_number_at, tuple_at};
pub use packet_reader::PacketReader;
pub use packets::{PACKET_LIMIT, read_packets, rows_of_text};
pub use plain_row::{target_at_front, tuple_at_front};
pub use replay_fault::ReplayFault;
pub use row::Row;
pub use row_parts::{FrontRows, rows_at_front, rows_below_header};
pub use source::Source;
