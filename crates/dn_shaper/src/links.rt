//! The links, the packets that wait for them, and the starts.
pub mod accept;
pub mod arrive;
pub mod discard;
pub mod emptied;
pub mod judge;
pub mod leaving;
pub mod link_heap;
pub mod link_parts;
pub mod next_start;
pub mod parts;
pub mod pass;
pub mod settle;
pub mod shared_link;
pub mod short;
pub mod start;
pub mod wake;
