ghost use Rattle.std.specs.Prelude.{◌≡◌, ◌≤◌, IfSome, codes, option_map};
ghost use Rattle.dn_files.specs.QuotedRow.{address_field, behind_name, header_until, last_field, number_field, pipe_fields, quoted_address, quoted_at_end, quoted_number, quoted_row_until, queue_fields, row_at_front, target_fields, tuple_fields};

use crate::line_end::{behind_end, behind_first, number_at_end};
use crate::plain_row::plain_row;
use crate::row::Row;
use dn_config::{address_until, number_until};
use dn_types::{FiveTuple, Len, Moment, Number, Packet, Target};

/// What follows the header at the front of a text, if its names are written plainly or all in quotes.
///
/// A byte order mark may come before it.
#[tactic(auto, unfolding(crate::specs::QuotedRow::header_until))]
pub(crate) fn behind_header(text: &[u8]) -> Option<&[u8]>
    ensures { option_map (λ rest. rest.now) result ≡ header_until text.now }
{
    match behind_first(
        text,
        b"moment,target,number,src,dst,proto,sport,dport,len,word",
    ) {
        Some(rest) => Some(rest),
        None => behind_first(
            text,
            b"\"moment\",\"target\",\"number\",\"src\",\"dst\",\"proto\",\"sport\",\"dport\",\"len\",\"word\"",
        ),
    }
}

// A number in quotes, and what follows the comma after them.
#[tactic(auto, unfolding(crate::specs::QuotedRow::quoted_number))]
fn quoted_number(text: &[u8], least: u64, greatest: u64) -> Option<(u64, &[u8])>
    ensures value { option_map (λ p. (p.0, p.1.now)) result ≡ quoted_number least greatest text.now }
    ensures in_range { IfSome result (λ p. (least ≤ p.0) × (p.0 ≤ greatest)) }
{
    let text = text.strip_prefix(b"\"")?;
    let (number, text) = number_until(text, b'"', least, greatest)?;
    let rest = text.strip_prefix(b",")?;
    Some((number, rest))
}

// A number as it is or in quotes, and what follows the comma after it.
#[tactic(auto, unfolding(crate::specs::QuotedRow::number_field))]
fn number_field(text: &[u8], least: u64, greatest: u64) -> Option<(u64, &[u8])>
    ensures value { option_map (λ p. (p.0, p.1.now)) result ≡ number_field least greatest text.now }
    ensures in_range { IfSome result (λ p. (least ≤ p.0) × (p.0 ≤ greatest)) }
{
    match number_until(text, b',', least, greatest) {
        Some(found) => Some(found),
        None => quoted_number(text, least, greatest),
    }
}

// A number in quotes, and what follows the end of the line after them.
#[tactic(auto, unfolding(crate::specs::QuotedRow::quoted_at_end))]
fn quoted_at_end(text: &[u8], least: u64, greatest: u64) -> Option<(u64, &[u8])>
    ensures value { option_map (λ p. (p.0, p.1.now)) result ≡ quoted_at_end least greatest text.now }
    ensures in_range { IfSome result (λ p. (least ≤ p.0) × (p.0 ≤ greatest)) }
{
    let text = text.strip_prefix(b"\"")?;
    let (number, text) = number_until(text, b'"', least, greatest)?;
    let rest = behind_end(text)?;
    Some((number, rest))
}

// A number as it is or in quotes, and what follows the end of the line after it.
#[tactic(auto, unfolding(crate::specs::QuotedRow::last_field))]
fn last_field(text: &[u8], least: u64, greatest: u64) -> Option<(u64, &[u8])>
    ensures value { option_map (λ p. (p.0, p.1.now)) result ≡ last_field least greatest text.now }
    ensures in_range { IfSome result (λ p. (least ≤ p.0) × (p.0 ≤ greatest)) }
{
    match number_at_end(text, least, greatest) {
        Some(found) => Some(found),
        None => quoted_at_end(text, least, greatest),
    }
}

// An address in quotes, and what follows the comma after them.
#[tactic(auto, unfolding(crate::specs::QuotedRow::quoted_address))]
fn quoted_address(text: &[u8]) -> Option<(u32, &[u8])>
    ensures { option_map (λ p. (p.0, p.1.now)) result ≡ quoted_address text.now }
{
    let text = text.strip_prefix(b"\"")?;
    let (address, text) = address_until(text, b'"')?;
    let rest = text.strip_prefix(b",")?;
    Some((address, rest))
}

// An address as it is or in quotes, and what follows the comma after it.
#[tactic(auto, unfolding(crate::specs::QuotedRow::address_field))]
fn address_field(text: &[u8]) -> Option<(u32, &[u8])>
    ensures { option_map (λ p. (p.0, p.1.now)) result ≡ address_field text.now }
{
    match address_until(text, b',') {
        Some(found) => Some(found),
        None => quoted_address(text),
    }
}

// What follows the name of a pipe, as it is or in quotes, and the comma after it.
#[tactic(auto, unfolding(crate::specs::QuotedRow::behind_name))]
fn behind_pipe(text: &[u8]) -> Option<&[u8]>
    ensures { option_map (λ rest. rest.now) result ≡ behind_name (codes "pipe") text.now }
{
    match text.strip_prefix(b"pipe,") {
        Some(rest) => Some(rest),
        None => text.strip_prefix(b"\"pipe\","),
    }
}

// What follows the name of a queue, as it is or in quotes, and the comma after it.
#[tactic(auto, unfolding(crate::specs::QuotedRow::behind_name))]
fn behind_queue(text: &[u8]) -> Option<&[u8]>
    ensures { option_map (λ rest. rest.now) result ≡ behind_name (codes "queue") text.now }
{
    match text.strip_prefix(b"queue,") {
        Some(rest) => Some(rest),
        None => text.strip_prefix(b"\"queue\","),
    }
}

// A pipe, and what follows the comma after its number.
#[tactic(auto, unfolding(crate::specs::QuotedRow::pipe_fields))]
fn pipe_fields(text: &[u8]) -> Option<(Target, &[u8])>
    ensures { option_map (λ p. (p.0, p.1.now)) result ≡ pipe_fields text.now }
{
    let rest = behind_pipe(text)?;
    let (number, rest) = number_field(rest, 1, 65_535)?;
    Some((Target::Pipe(Number::new(number as u32)?), rest))
}

// A queue, and what follows the comma after its number.
#[tactic(auto, unfolding(crate::specs::QuotedRow::queue_fields))]
fn queue_fields(text: &[u8]) -> Option<(Target, &[u8])>
    ensures { option_map (λ p. (p.0, p.1.now)) result ≡ queue_fields text.now }
{
    let rest = behind_queue(text)?;
    let (number, rest) = number_field(rest, 1, 65_535)?;
    Some((Target::Queue(Number::new(number as u32)?), rest))
}

// A target, and what follows the comma after its number.
#[tactic(auto, unfolding(crate::specs::QuotedRow::target_fields))]
fn target_fields(text: &[u8]) -> Option<(Target, &[u8])>
    ensures { option_map (λ p. (p.0, p.1.now)) result ≡ target_fields text.now }
{
    match pipe_fields(text) {
        Some(found) => Some(found),
        None => queue_fields(text),
    }
}

// The addresses, protocol and ports, and what follows the comma after them.
#[tactic(auto, unfolding(crate::specs::QuotedRow::tuple_fields))]
fn tuple_fields(text: &[u8]) -> Option<(FiveTuple, &[u8])>
    ensures { option_map (λ p. (p.0, p.1.now)) result ≡ tuple_fields text.now }
{
    let (src, text) = address_field(text)?;
    let (dst, text) = address_field(text)?;
    let (proto, text) = number_field(text, 0, 255)?;
    let (sport, text) = number_field(text, 0, 65_535)?;
    let (dport, text) = number_field(text, 0, 65_535)?;
    let tuple = FiveTuple {
        src,
        dst,
        proto: proto as u8,
        sport: sport as u16,
        dport: dport as u16,
    };
    Some((tuple, text))
}

// The row whose line a text begins with, if each field is written as it is or in quotes.
#[cold]
#[inline(never)]
#[tactic(auto, unfolding(crate::specs::QuotedRow::quoted_row_until))]
fn quoted_row(text: &[u8]) -> Option<(Row, &[u8])>
    ensures { option_map (λ p. (p.0, p.1.now)) result ≡ quoted_row_until text.now }
{
    let (moment, text) = number_field(text, 0, 1 << 62)?;
    // The prover has no rule for `?` at a pair of a value of dn_types and a slice.
    let Some((target, text)) = target_fields(text) else {
        return None;
    };
    let Some((tuple, text)) = tuple_fields(text) else {
        return None;
    };
    let (len, text) = number_field(text, 1, 65_535)?;
    let (word, text) = last_field(text, 0, 4_294_967_295)?;
    let packet = Packet {
        tuple,
        len: Len::new(len as u16)?,
        word: word as u32,
    };
    let row = Row {
        moment: Moment::new(moment)?,
        target,
        packet,
    };
    Some((row, text))
}

/// The row whose line a text begins with, and what follows that line: a plain line, or one with fields in quotes.
///
/// None if the text begins otherwise, as with an empty line, a quote within a field, a faulty row or a part of a row.
#[inline(always)]
#[tactic(auto, unfolding(crate::specs::QuotedRow::row_at_front))]
pub(crate) fn row_at_front(text: &[u8]) -> Option<(Row, &[u8])>
    ensures { option_map (λ p. (p.0, p.1.now)) result ≡ row_at_front text.now }
{
    if let Some(found) = plain_row(text) {
        return Some(found);
    }
    // Taken apart for the reason of `number_at_end`.
    let Some((row, rest)) = quoted_row(text) else {
        return None;
    };
    Some((row, rest))
}
