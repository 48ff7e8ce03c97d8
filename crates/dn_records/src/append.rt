ghost use Rattle.std.specs.Prelude.{◌≡◌, ◌≤◌, ◌<◌, ◌+◌, ℕ, [], ◌∷◌, ◌++◌, cond, length, OnOk, OnErr};
ghost use Rattle.std.specs.Vec.{vec_capacity};
ghost use Rattle.std.specs.Io.{StartsWith};
ghost use Rattle.csv.specs.Writing.{default_writer, escaped, field_text, fields_text, needs_quotes, quoted, row_body};
ghost use Rattle.dn_records.specs.Records.{line_of};
ghost use Rattle.dn_records.specs.Writing.{bytes_of, record_of};

use crate::address::{LONGEST, format_address};
use crate::field::Field;
use itoa::Buffer;
use std::alloc::AllocError;

// Whether a field has to stand in quotes.
fn must_be_quoted(field: &[u8]) -> bool
    ensures { result ≡ needs_quotes default_writer field.now }
{
    field
        .iter()
        .any(|byte| matches!(*byte, b',' | b'"' | b'\r' | b'\n'))
}

// Appends a byte of a field in quotes: a quote is written twice.
#[tactic(auto, unfolding(csv::specs::Writing::escaped))]
fn append_escaped(text: &mut Vec<u8>, byte: u8) -> Result<(), AllocError>
    ensures ok { OnOk result
        (text.new.items ≡ text.old.items ++ escaped default_writer (byte ∷ [])) }
    ensures full { OnErr result (vec_capacity text.old
        < length text.old.items + length (escaped default_writer (byte ∷ []))) }
    ensures err { OnErr result (text.new.items ≡ text.old.items) }
    ensures capacity { vec_capacity text.old ≤ vec_capacity text.new }
{
    if byte == b'"' {
        text.extend_from_slice(b"\"\"")
    } else {
        text.extend_from_slice(&[byte])
    }
}

// Appends a field in quotes.
#[tactic(auto, unfolding(csv::specs::Writing::escaped))]
fn append_quoted(text: &mut Vec<u8>, field: &[u8]) -> Result<(), AllocError>
    ensures ok { OnOk result (text.new.items ≡ text.old.items ++ quoted default_writer field.now) }
    ensures full { OnErr result (vec_capacity text.old
        < length text.old.items + length (quoted default_writer field.now)) }
    ensures starts { StartsWith text.new.items text.old.items }
    ensures capacity { vec_capacity text.old ≤ vec_capacity text.new }
{
    text.push(b'"')?;
    for byte in field {
        append_escaped(text, *byte)?;
    }
    text.push(b'"')?;
    Ok(())
}

// Appends one field.
#[tactic(auto, using(crate::proofs::Lines::decimal_is_plain, crate::proofs::Lines::address_is_plain))]
fn append_field(text: &mut Vec<u8>, field: &Field) -> Result<(), AllocError>
    ensures ok { OnOk result
        (text.new.items ≡ text.old.items ++ field_text default_writer (bytes_of field.now)) }
    ensures full { OnErr result (vec_capacity text.old
        < length text.old.items + length (field_text default_writer (bytes_of field.now))) }
    ensures starts { StartsWith text.new.items text.old.items }
    ensures capacity { vec_capacity text.old ≤ vec_capacity text.new }
{
    match field {
        Field::Empty => Ok(()),
        Field::Text(word) if must_be_quoted(word.as_bytes()) => append_quoted(
            text,
            word.as_bytes(),
        ),
        Field::Text(word) => text.extend_from_slice(word.as_bytes()),
        Field::Number(number) => {
            let mut buffer = Buffer::new();
            text.extend_from_slice(buffer.format(*number).as_bytes())
        }
        Field::Address(address) => {
            let mut buffer = [0; LONGEST];
            text.extend_from_slice(format_address(*address, &mut buffer))
        }
    }
}

// Appends fields, each with a comma before it.
#[tactic(auto, unfolding(csv::specs::Writing::fields_text))]
fn append_rest(text: &mut Vec<u8>, fields: &[Field]) -> Result<(), AllocError>
    ensures ok { OnOk result (text.new.items
        ≡ text.old.items ++ fields_text default_writer (record_of fields.now)) }
    ensures full { OnErr result (vec_capacity text.old
        < length text.old.items + length (fields_text default_writer (record_of fields.now))) }
    ensures starts { StartsWith text.new.items text.old.items }
    ensures capacity { vec_capacity text.old ≤ vec_capacity text.new }
{
    for field in fields {
        text.push(b',')?;
        append_field(text, field)?;
    }
    Ok(())
}

// Appends the fields of a record, with commas between them.
fn append_fields(text: &mut Vec<u8>, fields: &[Field]) -> Result<(), AllocError>
    ensures ok { OnOk result (text.new.items
        ≡ text.old.items ++ row_body default_writer (record_of fields.now)) }
    ensures full { OnErr result (vec_capacity text.old
        < length text.old.items + length (row_body default_writer (record_of fields.now))) }
    ensures starts { StartsWith text.new.items text.old.items }
    ensures capacity { vec_capacity text.old ≤ vec_capacity text.new }
{
    let Some((first, rest)) = fields.split_first() else {
        return Ok(());
    };
    append_field(text, first)?;
    append_rest(text, rest)
}

// Ends a line. A line without a byte would be no record, so two quotes stand in it.
fn end_line(text: &mut Vec<u8>, is_blank: bool) -> Result<(), AllocError>
    ensures ok { OnOk result
        (text.new.items ≡ text.old.items ++ (cond is_blank (34 ∷ 34 ∷ []) [] ++ 10 ∷ [])) }
    ensures full { OnErr result (vec_capacity text.old
        < length text.old.items + length {A = ℕ} (cond is_blank (34 ∷ 34 ∷ []) [] ++ 10 ∷ [])) }
    ensures starts { StartsWith text.new.items text.old.items }
    ensures capacity { vec_capacity text.old ≤ vec_capacity text.new }
{
    if is_blank {
        text.extend_from_slice(b"\"\"\n")
    } else {
        text.push(b'\n')?;
        Ok(())
    }
}

// Appends the line of a record. After a refusal a part of the line may stand at the end of the text.
pub(crate) fn append_record(text: &mut Vec<u8>, fields: &[Field]) -> Result<(), AllocError>
    ensures ok { OnOk result
        (text.new.items ≡ text.old.items ++ line_of (record_of fields.now)) }
    ensures full { OnErr result (vec_capacity text.old
        < length text.old.items + length (line_of (record_of fields.now))) }
    ensures starts { StartsWith text.new.items text.old.items }
    ensures capacity { vec_capacity text.old ≤ vec_capacity text.new }
{
    let start = text.len();
    append_fields(text, fields)?;
    let is_blank = text.len() == start;
    end_line(text, is_blank)
}
