//! Live sessions: what is written for an input, readers and writers that fail, and refused growths.
#![tactic(auto)]

#[cfg(test)]
mod broken;
#[cfg(test)]
mod memory;
#[cfg(test)]
mod sessions;
