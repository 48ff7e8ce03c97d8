ghost use Rattle.std.specs.Prelude.{◌≡◌, ◌==◌, not, true, false, take, IfOk, IfSome, OnOk};
ghost use Rattle.std.specs.List.{slice_split};
ghost use Rattle.csv.specs.Records.{fields_of};
ghost use Rattle.dn_records.specs.PlainLines.{BeginsBare, has_quotes};
ghost use Rattle.dn_records.specs.Steps.{BeginsFront};

use csv::ByteRecord;
use memchr::{memchr, memchr2};
use std::alloc::AllocError;

/// Whether a line has a quote or a carriage return, which mean something to CSV.
#[tactic(auto, using(crate::proofs::PlainLines::quotes_found))]
fn has_quotes(line: &[u8]) -> bool
    ensures { result ≡ has_quotes line.now }
{
    memchr2(b'"', b'\r', line).is_some()
}

/// Reads the first pieces of a line between its commas into a record, at most so many.
fn split_line(line: &[u8], most: usize, fields: &mut ByteRecord) -> Result<(), AllocError>
    ensures { OnOk result (fields_of fields.new ≡ take most (slice_split (λ b. b == 44) line.now)) }
{
    fields.clear();
    let mut left = line;
    loop {
        if fields.len() >= most {
            return Ok(());
        }
        let Some(comma) = memchr(b',', left) else {
            return fields.push_field(left);
        };
        match fields.push_field(&left[..comma]) {
            Ok(()) => {}
            Err(error) => return Err(error),
        }
        left = &left[comma + 1..];
    }
}

/// Reads the record of a line into `fields`, if the line has no quote and no carriage return, and returns whether it has none.
///
/// The line is given without its end. A line with one of them isn't read.
pub fn read_plain_line(line: &[u8], fields: &mut ByteRecord) -> Result<bool, AllocError>
    ensures plain { IfOk result (λ plain. has_quotes line.now ≡ not plain) }
    ensures fields { IfOk result (λ plain. plain ≡ true → fields_of fields.new ≡ slice_split (λ b. b == 44) line.now) }
    ensures kept { IfOk result (λ plain. plain ≡ false → fields.new ≡ fields.old) }
{
    if has_quotes(line) {
        return Ok(false);
    }
    split_line(line, line.len() + 1, fields)?;
    Ok(true)
}

/// The line that a text begins with, without its end, and what follows it. None if it doesn't end.
fn line_at_front(text: &[u8]) -> Option<(&[u8], &[u8])>
    ensures { IfSome result (λ p. BeginsBare text.now p.0.now p.1.now) }
{
    // A carriage return alone ends a record too, so that the search for a line feed stays within the record.
    let end = memchr2(b'\n', b'\r', text)?;
    if text[end] == b'\r' && !text[end + 1..].starts_with(b"\n") {
        return None;
    }
    let feed = memchr(b'\n', text)?;
    let rest = &text[feed + 1..];
    if let Some(line) = text[..feed].strip_suffix(b"\r") {
        return Some((line, rest));
    }
    Some((&text[..feed], rest))
}

/// Reads the front of the first line's record into `fields`, at most so many fields, and returns what follows the line.
///
/// None if the line is empty, has a quote or a carriage return within it, or doesn't end.
pub(crate) fn record_at_front<'a>(
    text: &'a [u8],
    most: usize,
    fields: &mut ByteRecord,
) -> Result<Option<&'a [u8]>, AllocError>
    ensures { IfOk result (λ found. IfSome found (λ rest. BeginsFront most text.now (fields_of fields.new) rest.now)) }
{
    let Some((line, rest)) = line_at_front(text) else {
        return Ok(None);
    };
    if line.is_empty() || has_quotes(line) {
        return Ok(None);
    }
    match split_line(line, most, fields) {
        Ok(()) => Ok(Some(rest)),
        Err(error) => Err(error),
    }
}
