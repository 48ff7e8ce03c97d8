ghost use Rattle.std.specs.Prelude.{◌≡◌, ◌≤◌, true};
ghost use Rattle.csv.specs.declared.parser.State.TheVariants as st;
ghost use Rattle.dn_records.specs.Reading.{records_after};
ghost use Rattle.dn_records.specs.Records.{records_of};
ghost use Rattle.dn_files.specs.WideRows.{BeginsWide, has_commas, is_line_end, is_mark, missing_behind};

use dn_records::Records;
use std::alloc::Global;

// How many fields a row has.
const FIELDS: u64 = 10;

/// Whether a byte means something else to CSV than itself, except a comma.
fn is_mark(byte: u8) -> bool
    ensures { result ≡ is_mark byte }
{
    byte == b'"' || byte == b'\r' || byte == b'\n'
}

/// How many commas are missing behind a byte.
fn missing_behind(byte: u8, missing: u64) -> u64
    requires { 1 ≤ missing }
    ensures { result ≡ missing_behind byte missing }
{
    if byte == b',' { missing - 1 } else { missing }
}

/// Whether a text has so many commas ahead of the first quote and of the end of its first line.
#[tactic(auto, using(crate::proofs::WideRows::byte_more))]
fn has_commas(text: &[u8], count: u64) -> bool
    ensures { result ≡ has_commas count text.now }
{
    let mut left = text;
    let mut missing = count;
    loop {
        if missing == 0 {
            return true;
        }
        let [byte, rest @ ..] = left else {
            return false;
        };
        if is_mark(*byte) {
            return false;
        }
        missing = missing_behind(*byte, missing);
        left = rest;
    }
}

/// Whether a byte ends a line.
fn is_line_end(byte: u8) -> bool
    ensures { result ≡ is_line_end byte }
{
    byte == b'\r' || byte == b'\n'
}

/// A text behind the empty lines at its front, which are no records.
#[tactic(auto, using(crate::proofs::WideRows::end_more))]
fn behind_empty(text: &[u8]) -> &[u8]
    ensures { records_after st.StartRecord text.now ≡ records_after st.StartRecord result.now }
{
    let mut left = text;
    loop {
        let [byte, rest @ ..] = left else {
            return left;
        };
        if !is_line_end(*byte) {
            return left;
        }
        left = rest;
    }
}

/// Whether the first record of a text is seen to have more fields than a row.
///
/// Its fields aren't gathered, so a long line of commas takes no memory.
#[tactic(auto, using(crate::proofs::WideRows::wide_records))]
pub(crate) fn begins_wide(alloc: Global, text: &[u8]) -> bool
    ensures { result ≡ true → BeginsWide (records_of text.now) }
{
    has_commas(behind_empty(Records::new(alloc, text).lines()), FIELDS)
}
