use std::io;
use std::io::{ErrorKind, Read};

/// Gives at most `step` bytes of a text a call. Once it has given `good` bytes it is interrupted.
#[derive(Drop)]
pub struct Parts<'a> {
    pub rest: &'a [u8],
    pub step: usize,
    pub good: usize,
    pub calls: usize,
}

impl<'a> Parts<'a> {
    /// The whole text, in as many calls as steps.
    pub fn of(text: &'a [u8], step: usize) -> Parts<'a> {
        Parts {
            rest: text,
            step,
            good: usize::MAX,
            calls: 0,
        }
    }

    /// The text in steps of any length, until `good` bytes have come.
    pub fn failing(text: &'a [u8], good: usize) -> Parts<'a> {
        Parts {
            rest: text,
            step: usize::MAX,
            good,
            calls: 0,
        }
    }
}

impl<'a> Read for Parts<'a> {
    fn read(&mut self, buf: &mut [u8]) -> io::Result<usize> {
        self.calls = self.calls.saturating_add(1);
        if self.good == 0 {
            return Err(io::Error::from(ErrorKind::Interrupted));
        }
        let count = self.step.min(self.good).min(self.rest.len()).min(buf.len());
        buf[..count].copy_from_slice(&self.rest[..count]);
        self.rest = &self.rest[count..];
        self.good = self.good.saturating_sub(count);
        Ok(count)
    }
}
