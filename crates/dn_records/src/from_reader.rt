use crate::inlet::Inlet;
use std::io::Read;

/// A reader of the standard library as an inlet.
#[derive(Drop)]
pub struct FromReader<R> {
    reader: R,
    failed: bool,
}

impl<R: Read> FromReader<R> {
    ghost use Rattle.std.specs.Prelude.{◌≡◌, false};
    ghost use Rattle.dn_records.specs.Wrappers.{wrapped_reader, reader_has_failed};

    /// An inlet that reads from `reader` and has not failed.
    pub fn new(reader: R) -> FromReader<R>
        ensures reader { wrapped_reader result ≡ reader }
        ensures failed { reader_has_failed result ≡ false }
    {
        FromReader {
            reader,
            failed: false,
        }
    }
}

impl<R: Read> Inlet for FromReader<R> {
    ghost use Rattle.dn_records.specs.Wrappers.{wrapped_reader, reader_has_failed};

    ghost remaining = { λ s. R.remaining (wrapped_reader s) };

    ghost has_failed = { reader_has_failed };

    fn read(&mut self, buf: &mut [u8]) -> Option<usize> {
        match self.reader.read(buf) {
            Ok(count) => Some(count),
            Err(_) => {
                self.failed = true;
                None
            }
        }
    }

    fn failed(&self) -> bool {
        self.failed
    }
}
