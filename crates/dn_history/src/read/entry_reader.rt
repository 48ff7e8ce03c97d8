ghost use Rattle.std.specs.Prelude.{◌≡◌, ◌<◌, ◌^◌, Err, IfOk, IfErr};
ghost use Rattle.dn_records.specs.Records.{records_of};
ghost use Rattle.dn_files.specs.Reading.{IsFaultOf};
ghost use Rattle.dn_history.specs.EntriesLeft.{IsAfter, entries_left, history_left};
ghost use Rattle.dn_history.specs.HistoryFile.{before, history_in};
ghost use Rattle.dn_history.specs.HistoryRecords.{rule_of};
ghost use Rattle.dn_history.specs.declared.read.progress.Progress.TheVariants.{Reading};

use crate::history_version::HistoryVersion;
use crate::read::entries::next_entry;
use crate::read::numbered_records::NumberedRecords;
use crate::read::progress::Progress;
use csv::ByteRecord;
use dn_files::ReplayFault;
use dn_types::{Entry, Rule};
use std::alloc::Global;
use std::marker::Model;

/// A reader of the entries of a history's text, one after another.
///
/// Its value is what it has left of the history.
#[derive(Drop)]
pub struct EntryReader<'a> {
    alloc: Global,
    version: HistoryVersion,
    given: usize,
    progress: Progress,
    records: NumberedRecords<'a>,
    // The fields of a record, whose memory is used again.
    fields: ByteRecord,
}

impl<'a> Model for EntryReader<'a> {
    ghost use Rattle.std.specs.Prelude.{◌+◌, length};
    ghost use Rattle.dn_history.specs.EntriesLeft.{EntriesLeft, IsSound, entries_left};
    ghost use Rattle.dn_history.specs.HistoryRecords.{rule_of};

    ghost Value = { EntriesLeft };

    ghost view = { λ s. record {
      rule = rule_of s.version;
      given = s.given;
      records = length s.records.records;
      entries = entries_left s.progress s.version s.given s.records;
    } };

    ghost invariant = { λ s. IsSound s.progress (s.given + length s.records.records) };
}

impl<'a> EntryReader<'a> {
    /// A reader of all entries of `text`, whose first record is read.
    ///
    /// If that tells no version the fault is `BadRecord(1)`. `OutOfMemory` says that memory was refused.
    #[tactic(auto, unfolding(crate::specs::HistoryFile::history_from))]
    pub fn new(alloc: Global, text: &'a [u8]) -> Result<EntryReader<'a>, ReplayFault>
        ensures ok { IfOk result (λ reader. history_in text.now ≡ history_left reader) }
        ensures given { IfOk result (λ reader. reader.given ≡ 0) }
        ensures err { IfErr result (λ fault. IsFaultOf (history_in text.now) fault) }
    {
        let mut records = NumberedRecords::from(alloc, text, 1);
        let mut fields = ByteRecord::new(alloc);
        match records.next(&mut fields) {
            Ok(()) => {}
            Err(fault) => return Err(fault),
        }
        let Ok(version) = HistoryVersion::read(&fields) else {
            return Err(ReplayFault::BadRecord(1));
        };
        Ok(EntryReader {
            alloc,
            version,
            given: 0,
            progress: Progress::Reading,
            records,
            fields,
        })
    }

    /// A reader of the entries that are left behind this many, in a text behind a line feed whose first record has this number.
    pub(crate) fn from(
        alloc: Global,
        version: HistoryVersion,
        given: usize,
        number: u64,
        text: &'a [u8],
    ) -> EntryReader<'a>
        requires { (given < 2 ^ 62) × (number < 2 ^ 62) }
        ensures left { result.entries ≡ entries_left Reading version given
            (record { number = number; records = records_of text.now }) }
        ensures rule { result.rule ≡ rule_of version }
        ensures given { result.given ≡ given }
    {
        EntryReader {
            alloc,
            version,
            given,
            progress: Progress::Reading,
            records: NumberedRecords::from(alloc, text, number),
            fields: ByteRecord::new(alloc),
        }
    }

    /// The rule of the history.
    ///
    /// It is Free in files of versions 1 and 2, and Ordered in those of version 3 and in the transcripts of live sessions.
    pub fn rule(&self) -> Rule
        ensures { result ≡ self.now.rule }
    {
        self.version.rule()
    }

    /// How many entries were given.
    pub fn given(&self) -> usize
        ensures { result ≡ self.now.given }
    {
        self.given
    }

    /// The next entry, or None at the end of the history and from then on.
    ///
    /// A fault is the one of the first bad record, or `OutOfMemory`, and the same fault is returned from then on.
    pub fn next(&mut self) -> Result<Option<Entry>, ReplayFault>
        ensures ok { IfOk result (λ next. self.old.entries ≡ before next self.new.entries) }
        ensures after { IfOk result (λ next. IsAfter next self.old self.new) }
        ensures rule { self.new.rule ≡ self.old.rule }
        ensures err { IfErr result (λ fault. IsFaultOf self.old.entries fault) }
        ensures stays { IfErr result (λ fault. self.new.entries ≡ Err fault) }
    {
        match self.progress {
            Progress::Reading => {}
            Progress::Ended => return Ok(None),
            Progress::Failed(fault) => return Err(fault),
        }
        match next_entry(
            self.alloc,
            self.version,
            self.given,
            &mut self.records,
            &mut self.fields,
        ) {
            Ok(Some(entry)) => {
                self.given += 1;
                Ok(Some(entry))
            }
            Ok(None) => {
                self.progress = Progress::Ended;
                Ok(None)
            }
            Err(fault) => {
                self.progress = Progress::Failed(fault);
                Err(fault)
            }
        }
    }
}
