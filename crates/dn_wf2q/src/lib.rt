//! WF2Q+ on one shared link: which flow sends next, and what virtual time is.
#![tactic(auto)]

mod arrive;
mod behind;
mod discard;
mod head_sched;
mod packet_queues;
mod pass;
mod pick;
mod queued_packet;
mod rank;
mod reserve;
mod scaled;
mod sched;
mod sched_parts;
mod tagged_packet;
mod tagged_queue;

pub use head_sched::HeadSched;
pub use sched::Sched;
