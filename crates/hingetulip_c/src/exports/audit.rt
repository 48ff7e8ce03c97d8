//! The calls of the header on an audit.

mod feed;
mod finish;
mod open;
