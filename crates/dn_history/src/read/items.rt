ghost use Rattle.std.specs.Prelude.{◌≡◌, ◌≤◌, ◌<◌, length, Ok, IfOk, IfErr};
ghost use Rattle.csv.specs.Records.{fields_of};
ghost use Rattle.dn_files.specs.Reading.{IsFaultOf};
ghost use Rattle.dn_history.specs.HistoryItems.{delivery_item, discarded_item, key_item, mask_item, status_item, status_width};
ghost use Rattle.dn_history.specs.RecordsLeft.{item_from, items_from};

use crate::history_version::HistoryVersion;
use crate::read::fields::{in_record, long_at};
use crate::read::numbered_records::NumberedRecords;
use csv::ByteRecord;
use dn_files::{ReplayFault, is_form, target_at, target_number_at, tuple_at};
use dn_types::{Delivery, FlowKey, FlowStatus, Mask, Target};
use std::alloc::Global;

/// The delivery of an item record, or the place of the first bad field.
#[tactic(auto, unfolding(crate::specs::HistoryItems::delivery_item))]
fn read_delivery(fields: &ByteRecord) -> Result<Delivery, u64>
    ensures { result ≡ delivery_item (fields_of fields.now) }
{
    if !is_form(fields, 1, b"d", 5) {
        return Err(1);
    }
    Ok(Delivery {
        packet: long_at(fields, 2)?,
        flow: long_at(fields, 3)? as usize,
        start: long_at(fields, 4)?,
        due: long_at(fields, 5)?,
    })
}

/// The mask in five fields from the place on, or the place of the first bad one.
#[tactic(auto, unfolding(crate::specs::HistoryItems::mask_item))]
fn mask_at(fields: &ByteRecord, place: usize) -> Result<Mask, u64>
    requires { (1 ≤ place) × (place ≤ 100) }
    ensures { result ≡ mask_item place (fields_of fields.now) }
{
    let bits = tuple_at(fields, place)?;
    Ok(Mask {
        src: bits.src,
        dst: bits.dst,
        proto: bits.proto,
        sport: bits.sport,
        dport: bits.dport,
    })
}

/// The key of a flow, or the place of the first bad field.
#[tactic(auto, unfolding(crate::specs::HistoryItems::key_item))]
fn read_key(fields: &ByteRecord) -> Result<FlowKey, u64>
    ensures { result ≡ key_item (fields_of fields.now) }
{
    Ok(FlowKey {
        target: target_at(fields, 3)?,
        pipe: target_number_at(fields, 5)?,
        mask: mask_at(fields, 6)?,
        tuple: tuple_at(fields, 11)?,
    })
}

/// How many fields a status has.
fn status_width(version: HistoryVersion) -> usize
    ensures { result ≡ status_width version }
{
    if version.has_deletes() { 21 } else { 20 }
}

/// The count of discarded packets of a status, 0 where the version has none, or the field's place.
fn read_discarded(version: HistoryVersion, fields: &ByteRecord) -> Result<u64, u64>
    ensures { result ≡ discarded_item version (fields_of fields.now) }
{
    if version.has_deletes() {
        long_at(fields, 21)
    } else {
        Ok(0)
    }
}

/// The state of a flow in an item record, or the place of the first bad field.
#[tactic(auto, unfolding(crate::specs::HistoryItems::status_item))]
fn read_status(version: HistoryVersion, fields: &ByteRecord) -> Result<FlowStatus, u64>
    ensures { result ≡ status_item version (fields_of fields.now) }
{
    if !is_form(fields, 1, b"f", status_width(version)) {
        return Err(1);
    }
    Ok(FlowStatus {
        flow: long_at(fields, 2)? as usize,
        key: read_key(fields)?,
        queued: long_at(fields, 16)?,
        bytes: long_at(fields, 17)?,
        lost: long_at(fields, 18)?,
        full: long_at(fields, 19)?,
        started: long_at(fields, 20)?,
        discarded: read_discarded(version, fields)?,
    })
}

/// As `next_delivery`, by the fields of the record.
#[tactic(auto, unfolding(crate::specs::RecordsLeft::item_from))]
fn read_next_delivery(
    records: &mut NumberedRecords<'_>,
    fields: &mut ByteRecord,
) -> Result<Delivery, ReplayFault>
    ensures ok { IfOk result (λ item. item_from delivery_item records.old ≡ Ok (item, records.new)) }
    ensures fewer { IfOk result (λ _. length records.new.records < length records.old.records) }
    ensures err { IfErr result (λ fault. IsFaultOf (item_from delivery_item records.old) fault) }
{
    let number = records.number();
    match records.next(fields) {
        Ok(()) => in_record(number, read_delivery(fields)),
        Err(fault) => Err(fault),
    }
}

/// The delivery of the next record.
fn next_delivery(
    records: &mut NumberedRecords<'_>,
    fields: &mut ByteRecord,
) -> Result<Delivery, ReplayFault>
    ensures ok { IfOk result (λ item. item_from delivery_item records.old ≡ Ok (item, records.new)) }
    ensures fewer { IfOk result (λ _. length records.new.records < length records.old.records) }
    ensures err { IfErr result (λ fault. IsFaultOf (item_from delivery_item records.old) fault) }
{
    match records.take_delivery() {
        Some(delivery) => Ok(delivery),
        None => read_next_delivery(records, fields),
    }
}

/// The state of a flow of the next record.
#[tactic(auto, unfolding(crate::specs::RecordsLeft::item_from))]
fn next_status(
    version: HistoryVersion,
    records: &mut NumberedRecords<'_>,
    fields: &mut ByteRecord,
) -> Result<FlowStatus, ReplayFault>
    ensures ok { IfOk result (λ item. item_from (status_item version) records.old ≡ Ok (item, records.new)) }
    ensures fewer { IfOk result (λ _. length records.new.records < length records.old.records) }
    ensures err { IfErr result (λ fault. IsFaultOf (item_from (status_item version) records.old) fault) }
{
    // The prover has to meet the modules of these types here.
    let _key: Option<FlowKey> = None;
    let _target: Option<Target> = None;
    let number = records.number();
    match records.next(fields) {
        Ok(()) => in_record(number, read_status(version, fields)),
        Err(fault) => Err(fault),
    }
}

/// The deliveries of the next records, as many as `count`.
///
/// No room is taken by that number, which may be any.
pub(crate) fn read_deliveries(
    alloc: Global,
    count: u64,
    records: &mut NumberedRecords<'_>,
    fields: &mut ByteRecord,
) -> Result<Vec<Delivery>, ReplayFault>
    ensures ok { IfOk result (λ list. items_from delivery_item count records.old ≡ Ok (list.items, records.new)) }
    ensures fewer { IfOk result (λ _. length records.new.records ≤ length records.old.records) }
    ensures err { IfErr result (λ fault. IsFaultOf (items_from delivery_item count records.old) fault) }
{
    let mut list = Vec::new(alloc);
    let mut left = count;
    while left > 0 {
        match next_delivery(records, fields) {
            Ok(delivery) => {
                if list.push(delivery).is_err() {
                    return Err(ReplayFault::OutOfMemory);
                }
            }
            Err(fault) => return Err(fault),
        }
        left -= 1;
    }
    Ok(list)
}

/// The states of flows of the next records, as many as `count`. No room is taken by that number.
pub(crate) fn read_statuses(
    alloc: Global,
    version: HistoryVersion,
    count: u64,
    records: &mut NumberedRecords<'_>,
    fields: &mut ByteRecord,
) -> Result<Vec<FlowStatus>, ReplayFault>
    ensures ok { IfOk result (λ list. items_from (status_item version) count records.old ≡ Ok (list.items, records.new)) }
    ensures fewer { IfOk result (λ _. length records.new.records ≤ length records.old.records) }
    ensures err { IfErr result (λ fault. IsFaultOf (items_from (status_item version) count records.old) fault) }
{
    // The prover has to meet the modules of these types here.
    let _key: Option<FlowKey> = None;
    let _target: Option<Target> = None;
    let mut list = Vec::new(alloc);
    let mut left = count;
    while left > 0 {
        match next_status(version, records, fields) {
            Ok(status) => {
                if list.push(status).is_err() {
                    return Err(ReplayFault::OutOfMemory);
                }
            }
            Err(fault) => return Err(fault),
        }
        left -= 1;
    }
    Ok(list)
}
