//! Reading and writing of whole texts, and of the CSV records in them.
#![tactic(auto)]

mod address;
mod append;
mod field;
mod first_record;
mod from_reader;
mod from_writer;
mod inlet;
mod line;
mod outlet;
mod plain_line;
mod read_fault;
mod record_reader;
mod record_writer;
mod records;
mod state;
mod whole;
mod whole_records;
mod write_fault;

pub use field::Field;
pub use from_reader::FromReader;
pub use from_writer::FromWriter;
pub use inlet::Inlet;
pub use line::Line;
pub use outlet::Outlet;
pub use plain_line::read_plain_line;
pub use read_fault::ReadFault;
pub use record_reader::RecordReader;
pub use record_writer::RecordWriter;
pub use records::Records;
pub use whole::{read_whole, write_whole};
pub use whole_records::behind_records;
pub use write_fault::WriteFault;
