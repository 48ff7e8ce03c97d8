//! Worked examples of the whole shaper: lists of calls, each with the reply that it gets.
#![tactic(auto)]

#[cfg(test)]
mod asked;
#[cfg(test)]
mod destination;
#[cfg(test)]
mod emulator;
#[cfg(test)]
mod example;
#[cfg(test)]
mod flow;
#[cfg(test)]
mod key;
#[cfg(test)]
mod lent;
#[cfg(test)]
mod links;
#[cfg(test)]
mod refused_growths;
#[cfg(test)]
mod reserve;
#[cfg(test)]
mod sent;
#[cfg(test)]
mod shown_step;
#[cfg(test)]
mod step;
#[cfg(test)]
mod trial;
#[cfg(test)]
mod wanted;
