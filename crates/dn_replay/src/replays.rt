//! A replay by one caller whose packets are submitted as their text comes.
//!
//! A report is written, and a history is kept if it is asked for.

mod file_replay;
mod held;
mod inlets;
mod manner;
mod pass;
mod passing;
mod stage;
mod unkeyed;

pub use file_replay::FileReplay;
pub use inlets::{replay_files, replay_input};
pub use manner::Manner;
pub use unkeyed::{replay, replay_joined};
