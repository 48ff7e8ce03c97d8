//! Rows of a packet file behind its header, in parts.

ghost use Rattle.std.specs.Prelude.{◌≡◌, ◌≤◌, ◌<◌, ◌⊎◌, Ok, Some, None, drop, length, IfOk, IfErr, MatchOption};
ghost use Rattle.dn_files.specs.InChunks.{BeginsWith};
ghost use Rattle.dn_files.specs.PacketParts.{rows_left};
ghost use Rattle.dn_files.specs.QuotedRow.{row_at_front as first_row};
ghost use Rattle.dn_files.specs.Reading.{IsFaultOf};

use crate::packets::rows_from_text;
use crate::quoted_row::row_at_front;
use crate::replay_fault::ReplayFault;
use crate::row::Row;
use std::alloc::{AllocError, Global};

/// The rows at the front of a text, and how many bytes they take.
#[derive(Drop)]
pub struct FrontRows {
    pub rows: Vec<Row>,
    pub used: usize,
}

/// The row at the front of a text, if so many rows are fewer than the most.
fn next_row(count: usize, most: usize, text: &[u8]) -> Option<(Row, &[u8])>
    ensures { MatchOption result
        ((most ≤ count) ⊎ (first_row text.now ≡ None))
        (λ p. (Some (p.0, p.1.now) ≡ first_row text.now) × (count < most)) }
{
    if count < most {
        row_at_front(text)
    } else {
        None
    }
}

/// The rows that a text behind the header begins with, at most so many, as far as they are written plainly or in quotes.
pub fn rows_at_front(alloc: Global, text: &[u8], most: usize) -> Result<FrontRows, AllocError>
    ensures begins { IfOk result (λ front. BeginsWith text.now front.used front.rows.items) }
    ensures few { IfOk result (λ front. length front.rows.items ≤ most) }
    ensures stops { IfOk result (λ front. (length front.rows.items ≡ most) ⊎ (first_row (drop front.used text.now) ≡ None)) }
{
    let mut rows = Vec::new(alloc);
    let mut rest = text;
    while let Some((row, behind)) = next_row(rows.len(), most, rest) {
        // The prover has to meet the module of this type here.
        let _target = row.target;
        rows.push(row)?;
        rest = behind;
    }
    let used = text.len() - rest.len();
    Ok(FrontRows { rows, used })
}

/// The rows of a text behind the header, which ends there.
///
/// BadRow names the first bad row, from 1 on, and its first bad field. OutOfMemory says that a growth was refused.
pub fn rows_below_header(alloc: Global, text: &[u8]) -> Result<Vec<Row>, ReplayFault>
    ensures ok { IfOk result (λ rows. rows_left 1 text.now ≡ Ok rows.items) }
    ensures err { IfErr result (λ fault. IsFaultOf (rows_left 1 text.now) fault) }
{
    // A byte order mark would be passed over at the front of a text, and behind a line feed it isn't.
    let mut lines = Vec::new(alloc);
    if lines.push(b'\n').is_err() {
        return Err(ReplayFault::OutOfMemory);
    }
    if lines.extend_from_slice(text).is_err() {
        return Err(ReplayFault::OutOfMemory);
    }
    rows_from_text(alloc, lines.as_slice(), 1)
}
