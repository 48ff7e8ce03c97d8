ghost use Rattle.std.specs.Prelude.{◌≡◌, ◌≤◌, ◌<◌, length, Ok, IfOk, IfErr};
ghost use Rattle.csv.specs.Records.{fields_of};
ghost use Rattle.dn_files.specs.Reading.{IsFaultOf};
ghost use Rattle.dn_history.specs.HistoryFile.{delivered_from, reply_by, reply_from, status_from};
ghost use Rattle.dn_history.specs.HistoryRecords.{is_delete_reply, is_reply, plain_reply, queued_of, timed_reply, two_of};

use crate::history_version::HistoryVersion;
use crate::read::fields::{in_record, long_at};
use crate::read::items::{read_deliveries, read_statuses};
use crate::read::numbered_records::NumberedRecords;
use csv::ByteRecord;
use dn_files::{ReplayFault, is_form, is_name};
use dn_types::{Deliveries, Reply, Statuses};
use std::alloc::Global;

/// Whether a reply record has this name and this many fields.
fn is_reply(fields: &ByteRecord, name: &[u8], count: usize) -> bool
    ensures { result ≡ is_reply name.now count (fields_of fields.now) }
{
    is_name(fields, 1, b"r") && is_form(fields, 2, name, count)
}

/// Whether a record is the reply of this name to a delete, where the version has deletes.
fn is_delete_reply(version: HistoryVersion, fields: &ByteRecord, name: &[u8]) -> bool
    ensures { result ≡ is_delete_reply version name.now (fields_of fields.now) }
{
    version.has_deletes() && is_reply(fields, name, 2)
}

/// The numbers in the third and the fourth field, or the place of the first bad one.
#[tactic(auto, unfolding(crate::specs::HistoryRecords::two_of))]
fn read_two(fields: &ByteRecord) -> Result<(u64, u64), u64>
    ensures { result ≡ two_of (fields_of fields.now) }
{
    Ok((long_at(fields, 3)?, long_at(fields, 4)?))
}

/// The reply to an accepted packet, or the place of the first bad field.
#[tactic(auto, unfolding(crate::specs::HistoryRecords::queued_of))]
fn read_queued(fields: &ByteRecord) -> Result<Reply, u64>
    ensures { result ≡ queued_of (fields_of fields.now) }
{
    Ok(Reply::Queued {
        at: long_at(fields, 3)?,
        flow: long_at(fields, 4)? as usize,
        packet: long_at(fields, 5)?,
    })
}

/// A reply with a moment and without a list, or the place of the first bad field.
#[tactic(auto, unfolding(crate::specs::HistoryRecords::timed_reply))]
fn read_timed_reply(fields: &ByteRecord) -> Result<Reply, u64>
    ensures { result ≡ timed_reply (fields_of fields.now) }
{
    if is_reply(fields, b"queued", 5) {
        read_queued(fields)
    } else if is_reply(fields, b"lost", 4) {
        let (at, flow) = read_two(fields)?;
        Ok(Reply::Lost {
            at,
            flow: flow as usize,
        })
    } else if is_reply(fields, b"full", 4) {
        let (at, flow) = read_two(fields)?;
        Ok(Reply::Full {
            at,
            flow: flow as usize,
        })
    } else if is_reply(fields, b"no-target", 3) {
        let at = long_at(fields, 3)?;
        Ok(Reply::NoTarget { at })
    } else if is_reply(fields, b"advanced", 3) {
        let at = long_at(fields, 3)?;
        Ok(Reply::Advanced { at })
    } else {
        Err(2)
    }
}

/// A reply without a list, or the place of the first bad field.
#[tactic(auto, unfolding(crate::specs::HistoryRecords::plain_reply))]
fn read_plain_reply(version: HistoryVersion, fields: &ByteRecord) -> Result<Reply, u64>
    ensures { result ≡ plain_reply version (fields_of fields.now) }
{
    if is_reply(fields, b"configured", 2) {
        Ok(Reply::Configured)
    } else if is_reply(fields, b"no-such-pipe", 2) {
        Ok(Reply::NoSuchPipe)
    } else if is_reply(fields, b"exhausted", 2) {
        Ok(Reply::Exhausted)
    } else if is_delete_reply(version, fields, b"deleted") {
        Ok(Reply::Deleted)
    } else if is_delete_reply(version, fields, b"pipe-has-queues") {
        Ok(Reply::PipeHasQueues)
    } else if is_delete_reply(version, fields, b"no-such-queue") {
        Ok(Reply::NoSuchQueue)
    } else {
        read_timed_reply(fields)
    }
}

/// The rest of a reply with deliveries, whose record has this number and stands in `fields`.
#[tactic(auto, unfolding(crate::specs::HistoryFile::delivered_from))]
fn read_delivered(
    alloc: Global,
    number: u64,
    records: &mut NumberedRecords<'_>,
    fields: &mut ByteRecord,
) -> Result<Reply, ReplayFault>
    ensures ok { IfOk result (λ reply. delivered_from number (fields_of fields.old) records.old ≡ Ok (reply, records.new)) }
    ensures fewer { IfOk result (λ _. length records.new.records ≤ length records.old.records) }
    ensures err { IfErr result (λ fault. IsFaultOf (delivered_from number (fields_of fields.old) records.old) fault) }
{
    let Ok((at, count)) = read_two(fields) else {
        return Err(ReplayFault::BadRecord(number));
    };
    match read_deliveries(alloc, count, records, fields) {
        Ok(list) => Ok(Reply::Delivered {
            at,
            list: Deliveries::from_vec(list),
        }),
        Err(fault) => Err(fault),
    }
}

/// The rest of a reply with the states of flows, whose record has this number and stands in `fields`.
#[tactic(auto, unfolding(crate::specs::HistoryFile::status_from))]
fn read_status_reply(
    alloc: Global,
    version: HistoryVersion,
    number: u64,
    records: &mut NumberedRecords<'_>,
    fields: &mut ByteRecord,
) -> Result<Reply, ReplayFault>
    ensures ok { IfOk result (λ reply. status_from version number (fields_of fields.old) records.old ≡ Ok (reply, records.new)) }
    ensures fewer { IfOk result (λ _. length records.new.records ≤ length records.old.records) }
    ensures err { IfErr result (λ fault. IsFaultOf (status_from version number (fields_of fields.old) records.old) fault) }
{
    let Ok(count) = long_at(fields, 3) else {
        return Err(ReplayFault::BadRecord(number));
    };
    match read_statuses(alloc, version, count, records, fields) {
        Ok(list) => Ok(Reply::Status {
            list: Statuses::from_vec(list),
        }),
        Err(fault) => Err(fault),
    }
}

/// The reply of the record with this number, which stands in `fields`, and of the items behind it.
#[tactic(auto, unfolding(crate::specs::HistoryFile::reply_by))]
fn reply_by(
    alloc: Global,
    version: HistoryVersion,
    number: u64,
    records: &mut NumberedRecords<'_>,
    fields: &mut ByteRecord,
) -> Result<Reply, ReplayFault>
    ensures ok { IfOk result (λ reply. reply_by version number (fields_of fields.old) records.old ≡ Ok (reply, records.new)) }
    ensures fewer { IfOk result (λ _. length records.new.records ≤ length records.old.records) }
    ensures err { IfErr result (λ fault. IsFaultOf (reply_by version number (fields_of fields.old) records.old) fault) }
{
    if is_reply(fields, b"delivered", 4) {
        read_delivered(alloc, number, records, fields)
    } else if is_reply(fields, b"status", 3) {
        read_status_reply(alloc, version, number, records, fields)
    } else {
        in_record(number, read_plain_reply(version, fields))
    }
}

/// As `next_reply`, by the fields of the records.
#[tactic(auto, unfolding(crate::specs::HistoryFile::reply_from))]
fn read_reply(
    alloc: Global,
    version: HistoryVersion,
    records: &mut NumberedRecords<'_>,
    fields: &mut ByteRecord,
) -> Result<Reply, ReplayFault>
    ensures ok { IfOk result (λ reply. reply_from version records.old ≡ Ok (reply, records.new)) }
    ensures fewer { IfOk result (λ _. length records.new.records < length records.old.records) }
    ensures err { IfErr result (λ fault. IsFaultOf (reply_from version records.old) fault) }
{
    let number = records.number();
    match records.next(fields) {
        Ok(()) => reply_by(alloc, version, number, records, fields),
        Err(fault) => Err(fault),
    }
}

/// The next reply.
pub(crate) fn next_reply(
    alloc: Global,
    version: HistoryVersion,
    records: &mut NumberedRecords<'_>,
    fields: &mut ByteRecord,
) -> Result<Reply, ReplayFault>
    ensures ok { IfOk result (λ reply. reply_from version records.old ≡ Ok (reply, records.new)) }
    ensures fewer { IfOk result (λ _. length records.new.records < length records.old.records) }
    ensures err { IfErr result (λ fault. IsFaultOf (reply_from version records.old) fault) }
{
    match records.take_queued() {
        Some(reply) => Ok(reply),
        None => read_reply(alloc, version, records, fields),
    }
}
