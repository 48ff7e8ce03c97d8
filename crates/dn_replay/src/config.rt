//! The configuration of a replay: what has come of its text, and the run that makes its commands.

pub(crate) mod config_part;
pub(crate) mod run;
