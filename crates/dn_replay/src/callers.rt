//! A replay by several callers in threads of their own.

mod calls;
mod gate;
mod inputs;
mod replay;

pub use gate::{Gate, NoGate};
pub use replay::{replay_callers, replay_callers_with_key};
