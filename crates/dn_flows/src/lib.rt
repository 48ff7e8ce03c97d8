//! The flow table: flows by key and by number, each with its queue and the counts of its packets.
#![tactic(auto)]

mod by_number;
mod drop_rule;
mod factors;
mod flow_queue;
mod flows;
mod hash_key;
mod home;
mod keyed_hash;
mod keyed_hasher;
mod keys;
mod listed;
mod members;
mod packet_store;
mod stored;
mod table_key;
mod unsent;
mod verdict;
mod waiting;

pub use drop_rule::DropRule;
pub use flows::Flows;
pub use hash_key::HashKey;
pub use home::Home;
pub use verdict::Verdict;
pub use waiting::Waiting;
