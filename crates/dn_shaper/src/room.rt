//! The growths, all of which come before the first change.
pub mod make;
pub mod prepare;
pub mod reserve;
pub mod reserve_packet;
pub mod shared_places;
