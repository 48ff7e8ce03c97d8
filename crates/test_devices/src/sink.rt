use std::alloc::Global;
use std::io;
use std::io::{ErrorKind, Write};

/// What a sink does once it is full.
#[derive(Clone, Copy)]
pub enum WhenFull {
    Fails,
    TakesNothing,
}

/// Takes one byte a call until it holds `room` bytes.
#[derive(Drop)]
pub struct Sink {
    pub held: Vec<u8>,
    pub room: usize,
    pub when_full: WhenFull,
}

impl Sink {
    pub fn new(alloc: Global, room: usize, when_full: WhenFull) -> Sink {
        Sink {
            held: Vec::new(alloc),
            room,
            when_full,
        }
    }
}

impl Write for Sink {
    fn write(&mut self, buf: &[u8]) -> io::Result<usize> {
        let Some(byte) = buf.first() else {
            return Ok(0);
        };
        if self.held.len() >= self.room || self.held.push(*byte).is_err() {
            return match self.when_full {
                WhenFull::Fails => Err(io::Error::from(ErrorKind::Interrupted)),
                WhenFull::TakesNothing => Ok(0),
            };
        }
        Ok(1)
    }

    fn flush(&mut self) -> io::Result<()> {
        Ok(())
    }
}
