ghost use Rattle.std.specs.Prelude.{◌≡◌, ◌<◌, ◌≤◌, ◌+◌, ◌^◌, ◌∷◌, ℕ, List, length, Ok, None, OnOk, OnSome, IfErr, MatchOption};
ghost use Rattle.csv.specs.Records.{fields_of};
ghost use Rattle.csv.specs.declared.parser.State.TheVariants as st;
ghost use Rattle.dn_records.specs.Reading.{BeginsLine, records_after};
ghost use Rattle.dn_records.specs.Records.{Fields, records_of};
ghost use Rattle.dn_history.specs.HistoryFile.{between, entry_from, nothing_in, reply_from};
ghost use Rattle.dn_history.specs.HistoryItems.{delivery_item};
ghost use Rattle.dn_history.specs.PlainRecords.{answered};
ghost use Rattle.dn_history.specs.RecordsLeft.{item_from, narrow_record, next_record};
ghost use Rattle.dn_history.specs.declared.history_version.HistoryVersion.{HistoryVersion as Version};
ghost use Rattle.dn_files.specs.Reading.{IsFaultOf};

use crate::history_version::HistoryVersion;
use crate::read::fields::TOO_MANY;
use crate::read::plain_forms::{delivery_at_front, queued_at_front, submit_at_front};
use crate::read::remarks::read_past_remarks;
use csv::ByteRecord;
use dn_files::ReplayFault;
use dn_records::Records;
use dn_types::{Call, Delivery, Reply};
use std::alloc::Global;
use std::marker::Model;

/// The records of a text that are left, with the number of the next one.
///
/// The first has number 1, and remarks have none.
#[derive(Drop)]
pub(crate) struct NumberedRecords<'a> {
    number: u64,
    records: Records<'a>,
}

impl<'a> Model for NumberedRecords<'a> {
    ghost use Rattle.std.specs.Prelude.{◌+◌, ◌<◌, ◌^◌, length};
    ghost use Rattle.dn_history.specs.RecordsLeft.{Rest};

    ghost Value = { Rest };

    ghost view = { λ s. record { number = s.number; records = s.records } };

    ghost invariant = { λ s. s.number + length s.records < 2 ^ 64 };
}

impl<'a> NumberedRecords<'a> {
    /// The records of a text, the first of which has this number.
    pub(crate) fn from(alloc: Global, text: &'a [u8], number: u64) -> NumberedRecords<'a>
        requires { number < 2 ^ 62 }
        ensures { result ≡ record { number = number; records = records_of text.now } }
    {
        NumberedRecords {
            number,
            records: Records::new(alloc, text),
        }
    }

    /// The text that is left.
    pub(crate) fn lines(&self) -> &'a [u8]
        ensures { self.now.records ≡ records_after st.StartRecord result.now }
    {
        self.records.lines()
    }

    /// The number of the next record.
    pub(crate) fn number(&self) -> u64
        ensures { result ≡ self.now.number }
    {
        self.number
    }

    /// Reads the next record into `fields`. One that is missing or has too many fields is a bad record.
    pub(crate) fn next(&mut self, fields: &mut ByteRecord) -> Result<(), ReplayFault>
        ensures ok { OnOk result (next_record self.old ≡ Ok (fields_of fields.new, self.new)) }
        ensures fewer { OnOk result (length self.new.records < length self.old.records) }
        ensures err { IfErr result (λ fault. IsFaultOf (narrow_record self.old) fault) }
    {
        let Ok(found) = self.records.read(TOO_MANY, fields) else {
            return Err(ReplayFault::OutOfMemory);
        };
        if !found {
            return Err(ReplayFault::BadRecord(self.number));
        }
        if fields.len() >= TOO_MANY {
            return Err(ReplayFault::BadRecord(self.number));
        }
        self.number += 1;
        Ok(())
    }

    /// As `next`, past the remarks that the version may have between two entries.
    pub(crate) fn next_past_remarks(
        &mut self,
        version: HistoryVersion,
        fields: &mut ByteRecord,
    ) -> Result<(), ReplayFault>
        ensures ok { OnOk result (next_record (between version self.old) ≡ Ok (fields_of fields.new, self.new)) }
        ensures fewer { OnOk result (length self.new.records < length self.old.records) }
        ensures err { IfErr result (λ fault. IsFaultOf (narrow_record (between version self.old)) fault) }
    {
        let Ok(found) = read_past_remarks(version, &mut self.records, fields) else {
            return Err(ReplayFault::OutOfMemory);
        };
        if !found {
            return Err(ReplayFault::BadRecord(self.number));
        }
        if fields.len() >= TOO_MANY {
            return Err(ReplayFault::BadRecord(self.number));
        }
        self.number += 1;
        Ok(())
    }

    /// Reads on to see that no record is left. One that is left is a bad record.
    pub(crate) fn end(&mut self, fields: &mut ByteRecord) -> Result<(), ReplayFault>
        ensures ok { OnOk result (nothing_in self.old self.old.records ≡ Ok (None, self.new)) }
        ensures fewer { OnOk result (length self.new.records ≤ length self.old.records) }
        ensures err { IfErr result (λ fault. IsFaultOf (nothing_in self.old self.old.records) fault) }
    {
        let Ok(found) = self.records.read(0, fields) else {
            return Err(ReplayFault::OutOfMemory);
        };
        if found {
            return Err(ReplayFault::BadRecord(self.number));
        }
        Ok(())
    }

    /// Goes on behind the line of the next record, with which the text that is left begins.
    fn pass_line(&mut self, text: &'a [u8], rest: &'a [u8])
        requires records { self.old.records ≡ records_after st.StartRecord text.now }
        requires line { (field : List ℕ) × (others : Fields) × BeginsLine text.now (field ∷ others) rest.now }
        ensures next { self.new ≡ record { number = self.old.number + 1; records = records_after st.StartRecord rest.now } }
        ensures fewer { length self.new.records < length self.old.records }
    {
        self.records.go_on(text, rest);
        self.number += 1;
    }

    /// The caller and the call of the next record, where it is a Submit whose line is written plainly.
    pub(crate) fn take_submit(&mut self) -> Option<(usize, Call)>
        ensures call { MatchOption result (self.new ≡ self.old)
            (λ p. (version : Version) (count : ℕ) → entry_from version count self.old ≡ answered version p.0 p.1 self.new) }
        ensures fewer { OnSome result (length self.new.records < length self.old.records) }
    {
        let text = self.lines();
        let Some((caller, call, rest)) = submit_at_front(text) else {
            return None;
        };
        self.pass_line(text, rest);
        Some((caller, call))
    }

    /// The reply of the next record, where it is that to an accepted packet and its line is written plainly.
    pub(crate) fn take_queued(&mut self) -> Option<Reply>
        ensures reply { MatchOption result (self.new ≡ self.old)
            (λ reply. (version : Version) → reply_from version self.old ≡ Ok (reply, self.new)) }
        ensures fewer { OnSome result (length self.new.records < length self.old.records) }
    {
        let text = self.lines();
        let Some((reply, rest)) = queued_at_front(text) else {
            return None;
        };
        self.pass_line(text, rest);
        Some(reply)
    }

    /// The delivery of the next record, where its line is written plainly.
    pub(crate) fn take_delivery(&mut self) -> Option<Delivery>
        ensures delivery { MatchOption result (self.new ≡ self.old)
            (λ delivery. item_from delivery_item self.old ≡ Ok (delivery, self.new)) }
        ensures fewer { OnSome result (length self.new.records < length self.old.records) }
    {
        let text = self.lines();
        let Some((delivery, rest)) = delivery_at_front(text) else {
            return None;
        };
        self.pass_line(text, rest);
        Some(delivery)
    }
}
