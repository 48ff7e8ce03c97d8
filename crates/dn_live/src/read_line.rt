ghost use Rattle.std.specs.Prelude.{◌≡◌, codes, cond, IfOk};
ghost use Rattle.csv.specs.Records.{fields_of};
ghost use Rattle.dn_files.specs.Fields.{column, is_form};
ghost use Rattle.dn_history.specs.HistoryRecords.{plain_call};
ghost use Rattle.dn_live.specs.Asked.{asked, asked_by, asked_by_first, bad, command_in, configure_asked, is_asking, is_comment, plain_asked, typed_asked};
ghost use Rattle.dn_live.specs.declared.asked.Asked.TheVariants.{Next};

use crate::asked::Asked;
use crate::bad_line::BadLine;
use crate::cause::Cause;
use crate::line_fields::read_fields;
use csv::ByteRecord;
use dn_config::parse_line;
use dn_files::{column, is_form, is_name};
use dn_history::{is_call, read_caller, read_plain_call};
use dn_types::{Call, Command};
use std::alloc::{AllocError, Global};
use std::str;

/// A line that is bad in this field.
fn bad(field: u64, cause: Cause) -> Asked
    ensures { result ≡ bad field cause }
{
    Asked::Bad(BadLine { field, cause })
}

/// The command of a configuration line, if it has one.
fn read_command(line: &[u8]) -> Result<Option<Command>, Cause>
    ensures { result ≡ command_in line.now }
{
    let Ok(line) = str::from_utf8(line) else {
        return Err(Cause::NotText);
    };
    match parse_line(line) {
        Ok(command) => Ok(command),
        Err(fault) => Err(Cause::Faulty(fault)),
    }
}

/// The Configure of a record.
fn configure_asked(caller: usize, fields: &ByteRecord) -> Asked
    ensures { result ≡ configure_asked caller (command_in (column 4 (fields_of fields.now))) }
{
    match read_command(column(fields, 4)) {
        Ok(Some(command)) => Asked::Calls(caller, Call::Configure(command)),
        Ok(None) => bad(4, Cause::NoCommand),
        Err(cause) => bad(4, cause),
    }
}

/// A call that is no Configure.
fn plain_asked(caller: usize, fields: &ByteRecord) -> Asked
    ensures { result ≡ plain_asked caller (plain_call (fields_of fields.now)) }
{
    match read_plain_call(fields) {
        Ok(call) => Asked::Calls(caller, call),
        Err(place) => bad(place, Cause::BadField),
    }
}

/// The Configure of a configuration line.
fn typed_asked(line: &[u8]) -> Asked
    ensures { result ≡ typed_asked (command_in line.now) }
{
    match read_command(line) {
        Ok(Some(command)) => Asked::Calls(0, Call::Configure(command)),
        Ok(None) => Asked::Nothing,
        Err(cause) => bad(1, cause),
    }
}

/// What a line asks for that isn't the record of a call.
fn no_call_asked(line: &[u8], fields: &ByteRecord) -> Asked
    ensures { result ≡ cond (is_form 1 (codes "next") 1 (fields_of fields.now)) Next (typed_asked (command_in line.now)) }
{
    if is_form(fields, 1, b"next", 1) {
        Asked::Next
    } else {
        typed_asked(line)
    }
}

/// What a line with these fields asks for.
#[tactic(auto, unfolding(crate::specs::Asked::asked_by))]
fn asked_by(line: &[u8], fields: &ByteRecord) -> Asked
    ensures { result ≡ asked_by line.now (fields_of fields.now) }
{
    if !is_name(fields, 1, b"c") {
        return no_call_asked(line, fields);
    }
    match read_caller(fields) {
        Ok(caller) => {
            if is_call(fields, b"configure", 4) {
                configure_asked(caller, fields)
            } else {
                plain_asked(caller, fields)
            }
        }
        Err(place) => bad(place, Cause::BadField),
    }
}

/// Whether a record asks for something by itself: a call, or when to ask next.
fn is_asking(fields: &ByteRecord) -> bool
    ensures { result ≡ is_asking (fields_of fields.now) }
{
    is_name(fields, 1, b"c") || is_form(fields, 1, b"next", 1)
}

/// What a line asks for whose first record has these fields, and is its only one or isn't.
fn asked_by_first(line: &[u8], one: bool, fields: &ByteRecord) -> Asked
    ensures { result ≡ asked_by_first line.now one (fields_of fields.now) }
{
    if !one && is_asking(fields) {
        bad(0, Cause::NotOneRecord)
    } else {
        asked_by(line, fields)
    }
}

/// Whether a line is a comment.
fn is_comment(line: &[u8]) -> bool
    ensures { result ≡ is_comment line.now }
{
    match line {
        [] => false,
        [first, ..] => *first == b'#',
    }
}

/// What a line asks for. Its record is read into `fields`.
#[tactic(auto, unfolding(crate::specs::Asked::asked))]
pub(crate) fn read_line(
    alloc: Global,
    line: &[u8],
    fields: &mut ByteRecord,
) -> Result<Asked, AllocError>
    ensures { IfOk result (λ what. what ≡ asked line.now) }
{
    if is_comment(line) {
        return Ok(Asked::Nothing);
    }
    let one = read_fields(alloc, line, fields)?;
    Ok(asked_by_first(line, one, fields))
}
