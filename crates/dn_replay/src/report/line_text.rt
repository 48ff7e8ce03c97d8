//! The lines of a report, each added to a text that has room for it.
//!
//! A line is built from its end towards its front in an array.

ghost use Rattle.std.specs.Prelude.{◌≡◌, ◌<◌, ◌≤◌, ◌+◌, ◌++◌, [], ◌∷◌, decimal, drop, length, vec_capacity};
ghost use Rattle.dn_records.specs.Records.{line_of};
ghost use Rattle.dn_replay.specs.Report.{line_fields, report_header};
ghost use Rattle.dn_replay.specs.declared.report.line.ReportLine.TheVariants.{Held, NoTarget, Out};
ghost use Rattle.dn_replay.specs.declared.report.line_text.TheConstants.{LINE};

use crate::report::line::ReportLine;
use itoa::{Buffer, write_digits};

/// No line has more bytes.
pub(crate) const LINE: usize = 160;

/// Puts a byte before those from `end` on, and answers where it stands.
pub(crate) fn put_byte(bytes: &mut [u8], end: usize, byte: u8) -> usize
    requires room { 0 < end }
    requires within { end ≤ length bytes.old }
    ensures start { result + 1 ≡ end }
    ensures written { drop result bytes.new ≡ byte ∷ drop end bytes.old }
    ensures len { length bytes.new ≡ length bytes.old }
{
    let start = end - 1;
    bytes[start] = byte;
    start
}

/// Puts a comma and a number before the bytes from `end` on, and answers where the comma stands.
pub(crate) fn put_number(bytes: &mut [u8], end: usize, number: u64) -> usize
    requires room { 21 ≤ end }
    requires within { end ≤ length bytes.old }
    ensures below { result ≤ end }
    ensures start { end ≤ result + 21 }
    ensures written { drop result bytes.new ≡ 44 ∷ (decimal number ++ drop end bytes.old) }
    ensures len { length bytes.new ≡ length bytes.old }
{
    let digits = write_digits(number, bytes, end);
    put_byte(bytes, digits, b',')
}

/// Puts a comma and a number of any length before the bytes from `end` on, and returns the place of the comma.
#[cold]
#[inline(never)]
fn put_long(bytes: &mut [u8], end: usize, number: u128) -> usize
    requires room { 40 ≤ end }
    requires within { end ≤ length bytes.old }
    ensures below { result ≤ end }
    ensures start { end ≤ result + 40 }
    ensures written { drop result bytes.new ≡ 44 ∷ (decimal number ++ drop end bytes.old) }
    ensures len { length bytes.new ≡ length bytes.old }
{
    let mut buffer = Buffer::new();
    let digits = buffer.format(number).as_bytes();
    let start = end - digits.len();
    bytes[start..end].copy_from_slice(digits);
    put_byte(bytes, start, b',')
}

/// Puts a comma and a row before the bytes from `end` on, and returns the place of the comma.
///
/// A row has more than 64 bits only if the callers are very many.
#[inline]
pub(crate) fn put_row(bytes: &mut [u8], end: usize, row: u128) -> usize
    requires room { 40 ≤ end }
    requires within { end ≤ length bytes.old }
    ensures below { result ≤ end }
    ensures start { end ≤ result + 40 }
    ensures written { drop result bytes.new ≡ 44 ∷ (decimal row ++ drop end bytes.old) }
    ensures len { length bytes.new ≡ length bytes.old }
{
    if row > u128::from(u64::MAX) {
        return put_long(bytes, end, row);
    }
    put_number(bytes, end, row as u64)
}

/// Puts the end of a line at the end of the array, and answers where it stands.
pub(crate) fn put_line_feed(bytes: &mut [u8]) -> usize
    requires { length bytes.old ≡ LINE }
    ensures start { result + 1 ≡ LINE }
    ensures written { drop result bytes.new ≡ 10 ∷ [] }
    ensures len { length bytes.new ≡ LINE }
{
    put_byte(bytes, LINE, b'\n')
}

/// Appends bytes for which there is room.
pub(crate) fn append(text: &mut Vec<u8>, bytes: &[u8])
    requires { length text.old.items + length bytes.now ≤ vec_capacity text.old }
    ensures items { text.new.items ≡ text.old.items ++ bytes.now }
    ensures capacity { vec_capacity text.old ≤ vec_capacity text.new }
{
    let Ok(()) = text.extend_from_slice(bytes) else {
        unreachable!()
    };
}

/// Appends the bytes of a line from a place on.
fn append_from(text: &mut Vec<u8>, bytes: &[u8], start: usize)
    requires within { start ≤ length bytes.now }
    requires room { length text.old.items + length bytes.now ≤ vec_capacity text.old + start }
    ensures items { text.new.items ≡ text.old.items ++ drop start bytes.now }
    ensures capacity { vec_capacity text.old ≤ vec_capacity text.new }
{
    append(text, &bytes[start..]);
}

/// Puts the end of a line without a start and a due moment, and before that end the Submit's moment.
fn put_submitted(bytes: &mut [u8], at: u64) -> usize
    requires { length bytes.old ≡ LINE }
    ensures below { result ≤ 157 }
    ensures start { 136 ≤ result }
    ensures written { drop result bytes.new ≡ 44 ∷ (decimal at ++ 44 ∷ 44 ∷ 10 ∷ []) }
    ensures len { length bytes.new ≡ LINE }
{
    let end = put_line_feed(bytes);
    let end = put_byte(bytes, end, b',');
    let end = put_byte(bytes, end, b',');
    put_number(bytes, end, at)
}

/// Adds a line: its first word, the row, and its bytes from `end` on.
fn add_row(text: &mut Vec<u8>, event: &[u8], row: u128, bytes: &mut [u8], end: usize)
    requires room { length text.old.items + LINE ≤ vec_capacity text.old }
    requires word { length event.now ≡ 4 }
    requires end { (44 ≤ end) × (end ≤ LINE) }
    requires line { length bytes.old ≡ LINE }
    ensures items { text.new.items ≡ text.old.items ++ (event.now ++ 44 ∷ (decimal row ++ drop end bytes.old)) }
    ensures capacity { vec_capacity text.old ≤ vec_capacity text.new }
{
    let start = put_row(bytes, end, row);
    append(text, event);
    append_from(text, bytes, start);
}

/// Adds the line of names.
pub(crate) fn add_header(text: &mut Vec<u8>)
    requires { length text.old.items + LINE ≤ vec_capacity text.old }
    ensures items { text.new.items ≡ text.old.items ++ line_of report_header }
    ensures capacity { vec_capacity text.old ≤ vec_capacity text.new }
{
    append(text, b"event,row,flow,packet,at,start,due\n");
}

/// Adds the line of a packet that was delivered.
pub(crate) fn add_out(
    text: &mut Vec<u8>,
    row: u128,
    flow: usize,
    packet: u64,
    at: u64,
    start: u64,
    due: u64,
)
    requires { length text.old.items + LINE ≤ vec_capacity text.old }
    ensures items { text.new.items ≡ text.old.items ++ line_of (line_fields (Out row flow packet at start due)) }
    ensures capacity { vec_capacity text.old ≤ vec_capacity text.new }
{
    let mut bytes = [0u8; LINE];
    let end = put_line_feed(&mut bytes);
    let end = put_number(&mut bytes, end, due);
    let end = put_number(&mut bytes, end, start);
    let end = put_number(&mut bytes, end, at);
    let end = put_number(&mut bytes, end, packet);
    let end = put_number(&mut bytes, end, flow as u64);
    let end = put_row(&mut bytes, end, row);
    let end = put_byte(&mut bytes, end, b't');
    let end = put_byte(&mut bytes, end, b'u');
    let end = put_byte(&mut bytes, end, b'o');
    append_from(text, &bytes, end);
}

/// Adds the line of a packet that was accepted and not delivered.
pub(crate) fn add_held(text: &mut Vec<u8>, row: u128, flow: usize, packet: u64, at: u64)
    requires { length text.old.items + LINE ≤ vec_capacity text.old }
    ensures items { text.new.items ≡ text.old.items ++ line_of (line_fields (Held row flow packet at)) }
    ensures capacity { vec_capacity text.old ≤ vec_capacity text.new }
{
    let mut bytes = [0u8; LINE];
    let end = put_submitted(&mut bytes, at);
    let end = put_number(&mut bytes, end, packet);
    let end = put_number(&mut bytes, end, flow as u64);
    add_row(text, b"held", row, &mut bytes, end);
}

/// Adds the line of a packet that has a flow and was not accepted.
pub(crate) fn add_refused(text: &mut Vec<u8>, event: &[u8], row: u128, flow: usize, at: u64)
    requires room { length text.old.items + LINE ≤ vec_capacity text.old }
    requires word { length event.now ≡ 4 }
    ensures items { text.new.items ≡ text.old.items ++ (event.now
        ++ 44 ∷ (decimal row ++ 44 ∷ (decimal flow ++ 44 ∷ 44 ∷ (decimal at ++ 44 ∷ 44 ∷ 10 ∷ [])))) }
    ensures capacity { vec_capacity text.old ≤ vec_capacity text.new }
{
    let mut bytes = [0u8; LINE];
    let end = put_submitted(&mut bytes, at);
    let end = put_byte(&mut bytes, end, b',');
    let end = put_number(&mut bytes, end, flow as u64);
    add_row(text, event, row, &mut bytes, end);
}

/// Adds the line of a packet without a target, which has neither a flow nor a number.
pub(crate) fn add_no_target(text: &mut Vec<u8>, row: u128, at: u64)
    requires { length text.old.items + LINE ≤ vec_capacity text.old }
    ensures items { text.new.items ≡ text.old.items ++ line_of (line_fields (NoTarget row at)) }
    ensures capacity { vec_capacity text.old ≤ vec_capacity text.new }
{
    let mut bytes = [0u8; LINE];
    let end = put_submitted(&mut bytes, at);
    let end = put_byte(&mut bytes, end, b',');
    let end = put_byte(&mut bytes, end, b',');
    add_row(text, b"none", row, &mut bytes, end);
}

/// Adds a line.
pub(crate) fn add_line(text: &mut Vec<u8>, line: &ReportLine)
    requires { length text.old.items + LINE ≤ vec_capacity text.old }
    ensures { text.new.items ≡ text.old.items ++ line_of (line_fields line.now) }
{
    match *line {
        ReportLine::Out {
            row,
            flow,
            packet,
            at,
            start,
            due,
        } => add_out(text, row, flow, packet, at, start, due),
        ReportLine::Held {
            row,
            flow,
            packet,
            at,
        } => add_held(text, row, flow, packet, at),
        ReportLine::Lost { row, flow, at } => add_refused(text, b"lost", row, flow, at),
        ReportLine::Full { row, flow, at } => add_refused(text, b"full", row, flow, at),
        ReportLine::NoTarget { row, at } => add_no_target(text, row, at),
    }
}
