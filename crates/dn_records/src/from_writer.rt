use crate::outlet::Outlet;
use std::io::Write;

/// A writer of the standard library as an outlet.
#[derive(Drop)]
pub struct FromWriter<W> {
    writer: W,
    failed: bool,
}

impl<W: Write> FromWriter<W> {
    ghost use Rattle.std.specs.Prelude.{◌≡◌, false};
    ghost use Rattle.dn_records.specs.Wrappers.{wrapped_writer, writer_has_failed};

    /// An outlet that writes to `writer` and has not failed.
    pub fn new(writer: W) -> FromWriter<W>
        ensures writer { wrapped_writer result ≡ writer }
        ensures failed { writer_has_failed result ≡ false }
    {
        FromWriter {
            writer,
            failed: false,
        }
    }
}

impl<W: Write> Outlet for FromWriter<W> {
    ghost use Rattle.dn_records.specs.Wrappers.{wrapped_writer, writer_has_failed};

    ghost contents = { λ s. W.contents (wrapped_writer s) };

    ghost has_failed = { writer_has_failed };

    fn write(&mut self, buf: &[u8]) -> Option<usize> {
        match self.writer.write(buf) {
            Ok(count) => {
                if count == 0 && !buf.is_empty() {
                    self.failed = true;
                }
                Some(count)
            }
            Err(_) => {
                self.failed = true;
                None
            }
        }
    }

    fn failed(&self) -> bool {
        self.failed
    }
}
