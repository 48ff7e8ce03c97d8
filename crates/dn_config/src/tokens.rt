//! How numbers, addresses, words and lines are written, so that each is read in one place.

mod address;
mod digits;
mod joined;
mod lines;
mod number_fault;
mod numbers;
mod until;
mod words;

pub use address::read_address;
pub use digits::split_digits;
pub use joined::split_joined;
pub use lines::Lines;
pub use number_fault::NumberFault;
pub use numbers::{read_number, read_numeral};
pub use until::{address_until, number_until};
pub use words::Words;
