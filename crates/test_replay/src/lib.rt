//! Worked examples of replays by one caller and by several in threads: reports, faults, broken input, refused growths.
#![tactic(auto)]

#[cfg(test)]
mod broken;
#[cfg(test)]
mod callers;
#[cfg(test)]
mod callers_memory;
#[cfg(test)]
mod example;
#[cfg(test)]
mod fed;
#[cfg(test)]
mod gates;
#[cfg(test)]
mod memory;
#[cfg(test)]
mod parts;
#[cfg(test)]
mod replays;
