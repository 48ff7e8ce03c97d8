use dn_files::{ReplayFault, Source};
use dn_history::{write_history_end, write_history_front, write_history_part};
use dn_records::{FromWriter, Outlet};
use dn_types::Entry;
use std::alloc::Global;
use std::io::Write;

/// A history file that is written while entries come. After a write that failed no more is written.
#[derive(Drop)]
pub struct HistoryFile<W: Write + Drop> {
    alloc: Global,
    out: FromWriter<W>,
    entries: usize,
}

impl<W: Write + Drop> HistoryFile<W> {
    /// The file with its front, and no entry yet.
    pub fn new(alloc: Global, writer: W) -> Result<HistoryFile<W>, ReplayFault> {
        let mut out = FromWriter::new(writer);
        write_history_front(alloc, &mut out)?;
        Ok(HistoryFile {
            alloc,
            out,
            entries: 0,
        })
    }

    /// Writes the entries that come next.
    pub fn append(&mut self, entries: &[Entry]) -> Result<(), ReplayFault> {
        if self.out.failed() {
            return Err(ReplayFault::Write(Source::History));
        }
        write_history_part(self.alloc, entries, &mut self.out)?;
        self.entries = self.entries.saturating_add(entries.len());
        Ok(())
    }

    /// Writes the end, and reports how many entries the file has.
    pub fn end(&mut self) -> Result<usize, ReplayFault> {
        if self.out.failed() {
            return Err(ReplayFault::Write(Source::History));
        }
        write_history_end(self.alloc, self.entries, &mut self.out)?;
        Ok(self.entries)
    }
}
