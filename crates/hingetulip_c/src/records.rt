//! What C hands in and is handed, field by field as in the header.

mod c_delivery;
mod c_entry;
mod c_fate;
mod c_fault;
mod c_flow;
mod c_history;
mod c_packet;
mod c_verdict;

pub use c_delivery::CDelivery;
pub use c_entry::CEntry;
pub use c_fate::CFate;
pub use c_fault::CFault;
pub use c_flow::CFlow;
pub use c_history::CHistory;
pub use c_packet::CPacket;
pub use c_verdict::CVerdict;
