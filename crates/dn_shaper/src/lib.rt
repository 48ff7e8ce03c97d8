//! Sequential dummynet: each call answered after the calls before it.
#![tactic(auto)]

mod calls;
mod emulator;
mod links;
mod room;
mod runs;
mod settings;
mod shaper;
mod state;

pub use dn_flows::HashKey;
pub use emulator::Emulator;
pub use runs::run;
pub use shaper::Shaper;
