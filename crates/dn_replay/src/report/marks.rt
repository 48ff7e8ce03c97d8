//! Marks of the packets that are given, by their numbers.

ghost use Rattle.std.specs.Prelude.{◌≡◌, ℕ, ◌<◌, ◌||◌, List, true, length, nat_eq, slice_index_or, IfOk};
ghost use Rattle.dn_types.specs.declared.call.Call.{Call};
ghost use Rattle.dn_replay.specs.Kept.{AreMarksOf, CanReport};

use crate::report::kept::Kept;
use dn_types::Delivery;
use std::alloc::{AllocError, Global};

/// Marks a packet, if it has a place.
fn mark(marks: &mut Vec<bool>, packet: u64)
    ensures len { length marks.new.items ≡ length marks.old.items }
    ensures marked { (p : ℕ) → p < length marks.old.items →
        slice_index_or marks.new.items p true ≡ slice_index_or marks.old.items p true || nat_eq packet p }
{
    let place = packet as usize;
    if place >= marks.len() {
        return;
    }
    marks[place] = true;
}

/// Marks the packets that are given, by their numbers. If all are, no mark is needed.
pub(crate) fn given_marks(
    alloc: Global,
    kept: &Kept,
    given: &[Delivery],
) -> Result<Vec<bool>, AllocError>
    requires { (calls : List Call) × CanReport kept.now given.now calls }
    ensures { IfOk result (λ marks. AreMarksOf marks.items (length kept.now.accepted.items) given.now) }
{
    let count = kept.accepted.len();
    // No packet is given twice.
    if given.len() == count {
        return Ok(Vec::new(alloc));
    }
    let mut marks = vec![in alloc; false; count]?;
    for delivery in given {
        mark(&mut marks, delivery.packet);
    }
    Ok(marks)
}

/// Whether a packet was given, by the marks.
pub(crate) fn is_given(marks: &[bool], packet: usize) -> bool
    ensures { result ≡ slice_index_or marks.now packet true }
{
    if packet >= marks.len() {
        return true;
    }
    marks[packet]
}
