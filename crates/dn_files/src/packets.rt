ghost use Rattle.std.specs.Prelude.{◌≡◌, ◌≤◌, ◌^◌, false, Ok, IfOk, IfErr};
ghost use Rattle.dn_records.specs.Records.{records_of};
ghost use Rattle.dn_files.specs.PacketFile.{TakesRow, packet_file, rows_from, rows_of};
ghost use Rattle.dn_files.specs.Reading.{IsFaultOf, IsRefusal, ReadsAs};
ghost use Rattle.dn_files.specs.declared.source.Source.TheVariants.{Packets};

use crate::input::read_input;
use crate::packet_reader::PacketReader;
use crate::replay_fault::ReplayFault;
use crate::row::Row;
use crate::row_fields::{is_header, read_row};
use crate::source::Source;
use crate::wide_row::begins_wide;
use csv::ByteRecord;
use dn_records::{Inlet, RecordReader};
use std::alloc::Global;

/// The greatest length of a packet file in bytes.
pub const PACKET_LIMIT: usize = 67_108_864;

/// The row of the next record, or None where no record is left.
fn next_row(
    reader: &mut RecordReader<'_>,
    fields: &mut ByteRecord,
    number: u64,
) -> Result<Option<Row>, ReplayFault>
    ensures ok { IfOk result (λ next. TakesRow reader.old reader.new next) }
    ensures err { IfErr result (λ fault. IsFaultOf (rows_from number reader.old) fault) }
{
    let Ok(found) = reader.read(fields) else {
        return Err(ReplayFault::OutOfMemory);
    };
    if !found {
        return Ok(None);
    }
    match read_row(fields) {
        Ok(row) => Ok(Some(row)),
        Err(field) => Err(ReplayFault::BadRow { row: number, field }),
    }
}

/// The rows of the records that are left, the first with this number. Each record is read into `fields`.
fn rows_below(
    alloc: Global,
    reader: &mut RecordReader<'_>,
    fields: &mut ByteRecord,
    first: u64,
) -> Result<Vec<Row>, ReplayFault>
    requires { first ≤ 2 ^ 63 }
    ensures ok { IfOk result (λ rows. rows_from first reader.old ≡ Ok rows.items) }
    ensures err { IfErr result (λ fault. IsFaultOf (rows_from first reader.old) fault) }
{
    let mut rows = Vec::new(alloc);
    loop {
        match next_row(reader, fields, first + rows.len() as u64) {
            Ok(Some(row)) => {
                // The prover has to meet the module of this type here.
                let _target = row.target;
                if rows.push(row).is_err() {
                    return Err(ReplayFault::OutOfMemory);
                }
            }
            Ok(None) => return Ok(rows),
            Err(fault) => return Err(fault),
        }
    }
}

/// The rows of a packet file's text.
///
/// BadRow names the first bad row, from 1 on and 0 for the header, and its first bad field. OutOfMemory says that a growth
/// was refused.
#[tactic(auto, using(crate::proofs::WideRows::wide_header))]
pub fn rows_of_text(alloc: Global, text: &[u8]) -> Result<Vec<Row>, ReplayFault>
    ensures ok { IfOk result (λ rows. rows_of text.now ≡ Ok rows.items) }
    ensures err { IfErr result (λ fault. IsFaultOf (rows_of text.now) fault) }
{
    if begins_wide(alloc, text) {
        return Err(ReplayFault::BadRow { row: 0, field: 0 });
    }
    let mut reader = RecordReader::new(alloc, text);
    let mut fields = ByteRecord::new(alloc);
    let Ok(found) = reader.read(&mut fields) else {
        return Err(ReplayFault::OutOfMemory);
    };
    if !found {
        return Ok(Vec::new(alloc));
    }
    if !is_header(&fields) {
        return Err(ReplayFault::BadRow { row: 0, field: 0 });
    }
    rows_below(alloc, &mut reader, &mut fields, 1)
}

/// The rows of a text without a header, the first with this number.
#[tactic(auto, using(crate::proofs::WideRows::wide_row))]
pub(crate) fn rows_from_text(
    alloc: Global,
    text: &[u8],
    first: u64,
) -> Result<Vec<Row>, ReplayFault>
    requires { first ≤ 2 ^ 63 }
    ensures ok { IfOk result (λ rows. rows_from first (records_of text.now) ≡ Ok rows.items) }
    ensures err { IfErr result (λ fault. IsFaultOf (rows_from first (records_of text.now)) fault) }
{
    if begins_wide(alloc, text) {
        return Err(ReplayFault::BadRow {
            row: first,
            field: 0,
        });
    }
    let mut reader = RecordReader::new(alloc, text);
    let mut fields = ByteRecord::new(alloc);
    rows_below(alloc, &mut reader, &mut fields, first)
}

/// The rows of a packet file of at most 67,108,864 bytes, in their order.
///
/// The fault of a file is the one of its first bad row, and of the first bad field there.
pub fn read_packets<I: Inlet>(alloc: Global, reader: &mut I) -> Result<Vec<Row>, ReplayFault>
    requires { I.has_failed reader.old ≡ false }
    ensures ok { IfOk result (λ rows. ReadsAs packet_file (I.remaining reader.old) rows.items) }
    ensures sound { IfOk result (λ _. I.has_failed reader.new ≡ false) }
    ensures err { IfErr result (λ fault.
        IsRefusal Packets packet_file (I.remaining reader.old) (I.has_failed reader.new) fault) }
{
    let text = read_input(alloc, reader, PACKET_LIMIT, Source::Packets)?;
    let mut packets = PacketReader::of_text(alloc, text);
    packets.all_rows()
}
