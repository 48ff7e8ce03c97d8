ghost use Rattle.std.specs.Prelude.{◌≡◌, ◌∷◌, ◌++◌, [], true, false, IfOk};
ghost use Rattle.csv.specs.Records.{fields_of};
ghost use Rattle.dn_records.specs.Records.{records_of};
ghost use Rattle.dn_live.specs.Asked.{records_in};
ghost use Rattle.dn_live.specs.LinesTaken.{has_none, IsRead};

use csv::ByteRecord;
use dn_records::{RecordReader, read_plain_line};
use memchr::memchr;
use std::alloc::{AllocError, Global};

/// Whether no record is left.
#[tactic(auto, using(crate::proofs::FieldSteps::none_left))]
fn is_at_end(alloc: Global, records: &mut RecordReader<'_>) -> Result<bool, AllocError>
    ensures { IfOk result (λ none. none ≡ has_none records.old) }
{
    let mut next = ByteRecord::new(alloc);
    let Ok(found) = records.read(&mut next) else {
        return Err(AllocError);
    };
    Ok(!found)
}

/// Reads the first record of a line as CSV, and answers whether there is no more than one.
#[tactic(auto, using(crate::proofs::FieldSteps::none_read))]
fn read_quoted(alloc: Global, line: &[u8], fields: &mut ByteRecord) -> Result<bool, AllocError>
    ensures { IfOk result (λ one. IsRead (records_of line.now) one (fields_of fields.new)) }
{
    let mut records = RecordReader::new(alloc, line);
    let Ok(found) = records.read(fields) else {
        return Err(AllocError);
    };
    if !found {
        fields.clear();
        return Ok(true);
    }
    is_at_end(alloc, &mut records)
}

/// Reads a line that ends in a carriage return, and is given without it, if it is written plainly.
///
/// Returns whether it is. Any other may have more than one record, or begin with a byte order mark.
fn read_before_return(line: &[u8], fields: &mut ByteRecord) -> Result<bool, AllocError>
    ensures { IfOk result (λ plain. plain ≡ true → IsRead (records_of (line.now ++ 13 ∷ [])) true (fields_of fields.new)) }
{
    let [first, ..] = line else {
        fields.clear();
        return Ok(true);
    };
    if *first == 0xEF {
        return Ok(false);
    }
    if memchr(b'\n', line).is_some() {
        return Ok(false);
    }
    read_plain_line(line, fields)
}

/// Reads a line if it is written plainly, and returns whether it is. A carriage return may end it.
#[tactic(auto, unfolding(crate::specs::Asked::records_in))]
fn read_bare(line: &[u8], fields: &mut ByteRecord) -> Result<bool, AllocError>
    ensures read { IfOk result (λ plain. plain ≡ true → IsRead (records_in line.now) true (fields_of fields.new)) }
    ensures left { IfOk result (λ plain. plain ≡ false → records_in line.now ≡ records_of line.now) }
{
    match line.strip_suffix(b"\r") {
        Some(front) => read_before_return(front, fields),
        None => read_plain_line(line, fields),
    }
}

/// Reads the first record of a line into `fields`, and returns whether there is no more than one.
///
/// A reader of CSV is made only if the line has quotes, or a carriage return before its end. That takes some fifty times
/// as long.
pub(crate) fn read_fields(
    alloc: Global,
    line: &[u8],
    fields: &mut ByteRecord,
) -> Result<bool, AllocError>
    ensures { IfOk result (λ one. IsRead (records_in line.now) one (fields_of fields.new)) }
{
    match read_bare(line, fields) {
        Ok(true) => Ok(true),
        Ok(false) => read_quoted(alloc, line, fields),
        Err(error) => Err(error),
    }
}
