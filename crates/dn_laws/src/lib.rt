//! The laws of the definitions of dn_types, which hold for all lists of calls.
#![tactic(auto)]

pub mod determined;
pub mod laws;
pub mod lines;
pub mod records;
pub mod reports;
pub mod reservations;
pub mod services;
pub mod sessions;
