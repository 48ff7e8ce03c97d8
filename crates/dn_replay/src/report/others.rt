//! The lines of rows whose packets were not given.

ghost use Rattle.std.specs.Prelude.{◌≡◌, ◌<◌, ◌≤◌, ◌+◌, ◌^◌, ◌∷◌, ◌++◌, List, None, cond, drop, slice_index_or, false, true, length, vec_capacity, OnOk, OnErr};
ghost use Rattle.dn_replay.specs.Kept.{accepted_line, fate_line, IsKeptOf, no_refusal, no_row, other_text, refusal_in, refusal_line, refused_row, rows_kept};
ghost use Rattle.dn_replay.specs.declared.report.fate.Fate.{Fate};
ghost use Rattle.dn_replay.specs.KeptReports.{AddsOthers, BreaksOffInOthers, OfFate, OfMarked};
ghost use Rattle.dn_replay.specs.declared.report.line_text.TheConstants.{LINE};

use crate::report::kept::Kept;
use crate::report::kept_rows::{AcceptedRow, RefusedRow};
use crate::report::line_text::{add_held, add_no_target, add_refused};
use crate::report::marks::is_given;
use crate::report::outs::row_of;
use crate::report::parts::write_full_part;
use crate::report::refusal::Refusal;
use dn_records::{Outlet, WriteFault};

/// Adds the line of an accepted packet, unless it was given.
fn add_accepted(text: &mut Vec<u8>, marks: &[bool], accepted: &[AcceptedRow], packet: usize)
    requires room { length text.old.items + LINE ≤ vec_capacity text.old }
    requires numbered { packet < length accepted.now }
    ensures items { OfMarked marks.now (length accepted.now) (λ given.
        text.new.items ≡ text.old.items ++ other_text (accepted_line packet given (slice_index_or accepted.now packet no_row))) }
    ensures capacity { vec_capacity text.old ≤ vec_capacity text.new }
{
    if is_given(marks, packet) {
        return;
    }
    let own = row_of(accepted, packet as u64);
    add_held(text, own.row as u128, own.flow, packet as u64, own.at);
}

/// Adds the line of a row whose packet was not accepted, if it has one.
fn add_refusal(text: &mut Vec<u8>, row: usize, why: Refusal)
    requires room { length text.old.items + LINE ≤ vec_capacity text.old }
    ensures items { text.new.items ≡ text.old.items ++ other_text (refusal_line row why) }
    ensures capacity { vec_capacity text.old ≤ vec_capacity text.new }
{
    match why {
        Refusal::Lost { flow, at } => add_refused(text, b"lost", row as u128, flow, at),
        Refusal::Full { flow, at } => add_refused(text, b"full", row as u128, flow, at),
        Refusal::NoTarget { at } => add_no_target(text, row as u128, at),
        Refusal::Unanswered => {}
    }
}

/// The refused row at a place.
fn refused_at(refused: &[RefusedRow], place: usize) -> RefusedRow
    requires { place < length refused.now }
    ensures { result ≡ slice_index_or refused.now place no_refusal }
{
    refused[place]
}

/// The refusal of a row's packet, if it was refused. At the place begin the refused rows from this one on.
fn refusal_of(refused: &[RefusedRow], place: usize, row: usize) -> Option<Refusal>
    ensures { (fate : Fate) (fates : List Fate) →
        drop place refused.now ≡ rows_kept refused_row row (fate ∷ fates) → result ≡ refusal_in fate }
{
    if place >= refused.len() {
        return None;
    }
    let next = refused_at(refused, place);
    if next.row == row {
        Some(next.why)
    } else {
        None
    }
}

/// Adds the line of a row, unless its packet was given. If it wasn't refused, it is the next that was accepted.
fn add_other(
    text: &mut Vec<u8>,
    marks: &[bool],
    accepted: &[AcceptedRow],
    row: usize,
    packet: usize,
    refusal: Option<Refusal>,
)
    requires room { length text.old.items + LINE ≤ vec_capacity text.old }
    requires numbered { refusal ≡ None → packet < length accepted.now }
    ensures items { OfFate marks.now accepted.now row packet refusal (λ given fate.
        text.new.items ≡ text.old.items ++ other_text (fate_line row packet given fate)) }
    ensures capacity { vec_capacity text.old ≤ vec_capacity text.new }
{
    match refusal {
        Some(why) => add_refusal(text, row, why),
        None => add_accepted(text, marks, accepted, packet),
    }
}

/// The number of the next packet that is accepted.
fn next_number(packet: usize, accepted: bool) -> usize
    requires { packet + 1 < 2 ^ 64 }
    ensures { result ≡ cond accepted (packet + 1) packet }
{
    if accepted { packet + 1 } else { packet }
}

/// Writes the lines of rows whose packets were not given, in the order of rows.
pub(crate) fn write_others<O: Outlet>(
    kept: &Kept,
    marks: &[bool],
    text: &mut Vec<u8>,
    out: &mut O,
) -> Result<(), WriteFault>
    requires kept { (fates : List Fate) × IsKeptOf kept.now fates }
    requires room { 65536 + LINE ≤ vec_capacity text.old }
    requires short { length text.old.items < 65536 }
    requires sound { O.has_failed out.old ≡ false }
    ensures ok { OnOk result (AddsOthers kept.now marks.now (O.contents out.old) text.old.items (O.contents out.new) text.new.items) }
    ensures room { OnOk result (65536 + LINE ≤ vec_capacity text.new) }
    ensures short { OnOk result (length text.new.items < 65536) }
    ensures sound { OnOk result (O.has_failed out.new ≡ false) }
    ensures part { OnErr result (BreaksOffInOthers kept.now marks.now (O.contents out.old) text.old.items (O.contents out.new)) }
    ensures failed { OnErr result (O.has_failed out.new ≡ true) }
{
    let rows = kept.rows();
    let accepted = kept.accepted.as_slice();
    let refused = kept.refused.as_slice();
    let mut packet = 0usize;
    for place in 0..rows {
        let row = place + 1;
        let refusal = refusal_of(refused, place - packet, row);
        add_other(text, marks, accepted, row, packet, refusal);
        packet = next_number(packet, refusal.is_none());
        write_full_part(text, out)?;
    }
    Ok(())
}
