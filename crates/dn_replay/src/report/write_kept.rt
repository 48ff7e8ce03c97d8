//! The report of what is kept, written in parts.

ghost use Rattle.std.specs.Prelude.{◌≡◌, ◌<◌, ◌≤◌, ◌+◌, List, [], false, true, length, vec_capacity, OnOk, OnErr, IfOk, IfErr};
ghost use Rattle.dn_records.specs.Records.{line_of};
ghost use Rattle.dn_types.specs.declared.call.Call.{Call};
ghost use Rattle.dn_replay.specs.Kept.{AreKnown, AreMarksOf, CanReport, IsKeptOf};
ghost use Rattle.dn_replay.specs.Report.{report_header};
ghost use Rattle.dn_replay.specs.declared.report.fate.Fate.{Fate};
ghost use Rattle.dn_replay.specs.KeptReports.{BreaksOffKept, LeavesKept, ReportsKept, WritesKept};
ghost use Rattle.dn_replay.specs.declared.report.line_text.TheConstants.{LINE};

use crate::report::kept::Kept;
use crate::report::line_text::{LINE, add_header};
use crate::report::marks::given_marks;
use crate::report::others::write_others;
use crate::report::outcome::Outcome;
use crate::report::outs::write_outs;
use crate::report::parts::{PART, write_part};
use dn_files::{ReplayFault, Source};
use dn_records::{Outlet, WriteFault};
use dn_types::Delivery;
use std::alloc::Global;

/// Begins a report with the line of names.
fn begin(text: &mut Vec<u8>)
    requires room { 65536 + LINE ≤ vec_capacity text.old }
    requires empty { text.old.items ≡ [] }
    ensures items { text.new.items ≡ line_of report_header }
    ensures room { 65536 + LINE ≤ vec_capacity text.new }
    ensures short { length text.new.items < 65536 }
{
    add_header(text);
}

/// Writes the header, the lines of the deliveries and the others.
fn write_lines<O: Outlet>(
    kept: &Kept,
    given: &[Delivery],
    marks: &[bool],
    text: &mut Vec<u8>,
    out: &mut O,
) -> Result<(), WriteFault>
    requires kept { (fates : List Fate) × IsKeptOf kept.now fates }
    requires known { AreKnown kept.now given.now }
    requires marks { AreMarksOf marks.now (length kept.now.accepted.items) given.now }
    requires room { 65536 + LINE ≤ vec_capacity text.old }
    requires empty { text.old.items ≡ [] }
    requires sound { O.has_failed out.old ≡ false }
    ensures ok { OnOk result (WritesKept kept.now given.now (O.contents out.old) (O.contents out.new)) }
    ensures sound { OnOk result (O.has_failed out.new ≡ false) }
    ensures part { OnErr result (BreaksOffKept kept.now given.now (O.contents out.old) (O.contents out.new)) }
    ensures failed { OnErr result (O.has_failed out.new ≡ true) }
{
    begin(text);
    write_outs(kept, given, text, out)?;
    write_others(kept, marks, text, out)?;
    write_part(text, out)?;
    Ok(())
}

/// Writes the report of what is kept by way of an empty text with room.
fn write_by<O: Outlet>(
    kept: &Kept,
    given: &[Delivery],
    marks: Vec<bool>,
    mut text: Vec<u8>,
    out: &mut O,
) -> Result<Outcome, ReplayFault>
    requires kept { (calls : List Call) × CanReport kept.now given.now calls }
    requires marks { AreMarksOf marks.items (length kept.now.accepted.items) given.now }
    requires room { 65536 + LINE ≤ vec_capacity text }
    requires empty { text.items ≡ [] }
    requires sound { O.has_failed out.old ≡ false }
    ensures ok { IfOk result (λ outcome. ReportsKept kept.now given.now outcome.untargeted (O.contents out.old) (O.contents out.new)) }
    ensures sound { OnOk result (O.has_failed out.new ≡ false) }
    ensures err { IfErr result (λ fault. LeavesKept kept.now given.now (O.contents out.old) (O.contents out.new) (O.has_failed out.new) fault) }
{
    match write_lines(kept, given, marks.as_slice(), &mut text, out) {
        Ok(()) => Ok(Outcome {
            untargeted: kept.all_untargeted(),
        }),
        Err(_) => Err(ReplayFault::Write(Source::Report)),
    }
}

/// Writes the report of what is kept.
///
/// `given` is what a Collect at the last moment gives if none was made before it, so it is what all Collects gave. Its lines
/// follow the deliveries in their order. The text is written in parts, for which room is made before the first is written.
pub(crate) fn write_kept<O: Outlet>(
    alloc: Global,
    kept: &Kept,
    given: &[Delivery],
    out: &mut O,
) -> Result<Outcome, ReplayFault>
    requires kept { (calls : List Call) × CanReport kept.now given.now calls }
    requires sound { O.has_failed out.old ≡ false }
    ensures ok { IfOk result (λ outcome. ReportsKept kept.now given.now outcome.untargeted (O.contents out.old) (O.contents out.new)) }
    ensures sound { OnOk result (O.has_failed out.new ≡ false) }

    // Before a failed write a part of the report was written, and before a want of memory nothing.
    ensures err { IfErr result (λ fault. LeavesKept kept.now given.now (O.contents out.old) (O.contents out.new) (O.has_failed out.new) fault) }
{
    let Ok(marks) = given_marks(alloc, kept, given) else {
        return Err(ReplayFault::OutOfMemory);
    };
    let Ok(text) = Vec::with_capacity(alloc, PART + LINE) else {
        return Err(ReplayFault::OutOfMemory);
    };
    write_by(kept, given, marks, text, out)
}
