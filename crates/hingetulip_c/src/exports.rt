//! The calls of the header. Where a call could answer two statuses, it tests its numbers before the handle.

mod advance;
mod audit;
mod caller;
mod close;
mod collect;
mod configure;
mod lifetime;
mod read_history;
mod read_packets;
mod reason;
mod reserve;
mod service;
mod show;
mod submit;
mod submit_many;
mod texts;
mod wake;
