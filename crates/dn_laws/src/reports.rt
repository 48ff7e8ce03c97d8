//! The laws of replays and their reports.

ghost use Rattle.dn_laws.specs.ReportLaws.{InputsAreCalls, LinesAreInOrder, LinesAreTold, ReportsAreWritten};

/// A replay makes the calls of its inputs, in order, and its report tells what became of each packet.
///
/// Each line is of one Submit, and says what its reply said, and of an accepted packet when it started and was due, if it was delivered.
/// Packets that were delivered come first, by due moment and packet, and the others by row.
pub fn laws_of_reports()
    ensures inputs { InputsAreCalls }
    ensures lines { LinesAreTold }
    ensures order { LinesAreInOrder }
    ensures text { ReportsAreWritten }
{}
