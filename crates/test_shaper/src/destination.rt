use dn_types::{Number, Target};
use std::test::Fail;

/// Where a packet is sent, by its number.
#[derive(Clone, Copy)]
pub enum Destination {
    Pipe(u32),
    Queue(u32),
}

/// A pipe's or a queue's number.
pub fn number(value: u32) -> Result<Number, Fail> {
    Ok(Number::new(value).ok_or("a number of a pipe or a queue")?)
}

impl Destination {
    /// The target, for a call.
    pub fn target(self) -> Result<Target, Fail> {
        match self {
            Destination::Pipe(value) => Ok(Target::Pipe(number(value)?)),
            Destination::Queue(value) => Ok(Target::Queue(number(value)?)),
        }
    }
}

pub fn pipe(value: u32) -> Destination {
    Destination::Pipe(value)
}

pub fn queue(value: u32) -> Destination {
    Destination::Queue(value)
}
