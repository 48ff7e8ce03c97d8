ghost use Rattle.std.specs.Prelude.{◌≡◌, ◌≤◌, ◌<◌, length, Ok, IfOk, IfErr};
ghost use Rattle.csv.specs.Records.{fields_of};
ghost use Rattle.dn_files.specs.Reading.{IsFaultOf};
ghost use Rattle.dn_history.specs.HistoryFile.{end_by, entry_by, entry_from};
ghost use Rattle.dn_history.specs.PlainRecords.{answered};

use crate::history_version::HistoryVersion;
use crate::read::calls::{read_call, read_caller};
use crate::read::numbered_records::NumberedRecords;
use crate::read::replies::next_reply;
use csv::ByteRecord;
use dn_files::{ReplayFault, is_form, number_at};
use dn_types::{Call, Entry};
use std::alloc::Global;

/// The entry of a call by this caller, and of the next reply.
fn entry_of(
    alloc: Global,
    version: HistoryVersion,
    caller: usize,
    call: Call,
    records: &mut NumberedRecords<'_>,
    fields: &mut ByteRecord,
) -> Result<Option<Entry>, ReplayFault>
    ensures ok { IfOk result (λ next. answered version caller call records.old ≡ Ok (next, records.new)) }
    ensures fewer { IfOk result (λ _. length records.new.records < length records.old.records) }
    ensures err { IfErr result (λ fault. IsFaultOf (answered version caller call records.old) fault) }
{
    match next_reply(alloc, version, records, fields) {
        Ok(reply) => Ok(Some(Entry {
            caller,
            call,
            reply,
        })),
        Err(fault) => Err(fault),
    }
}

/// The entry of the call record with this number, which stands in `fields`, and of the reply behind it.
#[tactic(auto, unfolding(crate::specs::HistoryFile::entry_by))]
fn entry_by(
    alloc: Global,
    version: HistoryVersion,
    number: u64,
    records: &mut NumberedRecords<'_>,
    fields: &mut ByteRecord,
) -> Result<Option<Entry>, ReplayFault>
    ensures ok { IfOk result (λ next. entry_by version number (fields_of fields.old) records.old ≡ Ok (next, records.new)) }
    ensures fewer { IfOk result (λ _. length records.new.records ≤ length records.old.records) }
    ensures err { IfErr result (λ fault. IsFaultOf (entry_by version number (fields_of fields.old) records.old) fault) }
{
    let Ok(caller) = read_caller(fields) else {
        return Err(ReplayFault::BadRecord(number));
    };
    let call = match read_call(version, number, fields) {
        Ok(call) => call,
        Err(fault) => return Err(fault),
    };
    entry_of(alloc, version, caller, call, records, fields)
}

/// Succeeds if the record with this number, which is in `fields`, tells this count of entries and none follows.
#[tactic(auto, unfolding(crate::specs::HistoryFile::end_by))]
fn end_by(
    count: usize,
    number: u64,
    records: &mut NumberedRecords<'_>,
    fields: &mut ByteRecord,
) -> Result<Option<Entry>, ReplayFault>
    ensures ok { IfOk result (λ next. end_by count number (fields_of fields.old) records.old ≡ Ok (next, records.new)) }
    ensures fewer { IfOk result (λ _. length records.new.records ≤ length records.old.records) }
    ensures err { IfErr result (λ fault. IsFaultOf (end_by count number (fields_of fields.old) records.old) fault) }
{
    if number_at(fields, 2, count as u64, count as u64).is_err() {
        return Err(ReplayFault::BadRecord(number));
    }
    match records.end(fields) {
        Ok(()) => Ok(None),
        Err(fault) => Err(fault),
    }
}

/// As `next_entry`, by the fields of each record.
#[tactic(auto, unfolding(crate::specs::HistoryFile::entry_from))]
fn read_entry(
    alloc: Global,
    version: HistoryVersion,
    count: usize,
    records: &mut NumberedRecords<'_>,
    fields: &mut ByteRecord,
) -> Result<Option<Entry>, ReplayFault>
    ensures ok { IfOk result (λ next. entry_from version count records.old ≡ Ok (next, records.new)) }
    ensures fewer { IfOk result (λ _. length records.new.records < length records.old.records) }
    ensures err { IfErr result (λ fault. IsFaultOf (entry_from version count records.old) fault) }
{
    let number = records.number();
    match records.next_past_remarks(version, fields) {
        Ok(()) => {}
        Err(fault) => return Err(fault),
    }
    if is_form(fields, 1, b"end", 2) {
        end_by(count, number, records, fields)
    } else {
        entry_by(alloc, version, number, records, fields)
    }
}

/// The next entry after this many, or None at the end of the history.
pub(crate) fn next_entry(
    alloc: Global,
    version: HistoryVersion,
    count: usize,
    records: &mut NumberedRecords<'_>,
    fields: &mut ByteRecord,
) -> Result<Option<Entry>, ReplayFault>
    ensures ok { IfOk result (λ next. entry_from version count records.old ≡ Ok (next, records.new)) }
    ensures fewer { IfOk result (λ _. length records.new.records < length records.old.records) }
    ensures err { IfErr result (λ fault. IsFaultOf (entry_from version count records.old) fault) }
{
    match records.take_submit() {
        Some((caller, call)) => entry_of(alloc, version, caller, call, records, fields),
        None => read_entry(alloc, version, count, records, fields),
    }
}
