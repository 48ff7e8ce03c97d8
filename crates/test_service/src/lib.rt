//! Worked examples of the service: one caller, two callers in turn, callers in threads, and a service that lasts.
#![tactic(auto)]

#[cfg(test)]
mod calls;
#[cfg(test)]
mod lasting;
#[cfg(test)]
mod one_caller;
#[cfg(test)]
mod order;
#[cfg(test)]
mod parts;
#[cfg(test)]
mod replies;
#[cfg(test)]
mod threads;
#[cfg(test)]
mod two_callers;
#[cfg(test)]
mod wakes;
