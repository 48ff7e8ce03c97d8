//! The laws of packet files, histories and audits.

ghost use Rattle.dn_laws.specs.AuditLaws.{NoneHasTwoVerdicts, TruthsSuffice, VerdictsAreTrue};
ghost use Rattle.dn_laws.specs.RecordLaws.{HistoriesAreRead, HistoriesAreWritten, LimitsAreKnown, OnlyRowsAreRead, RowsAreRead, RowsHaveTenFields};
ghost use Rattle.dn_laws.specs.HistoryRefusals.{OnlyHistoriesAreRead};

/// The columns of a packet file and the records of a history say what their names say, each in its units.
///
/// What is read consists of such columns and records, and of nothing else. A history ends with its last record, and only a transcript has remarks.
/// An audit finds that all replies are right, or the first wrong one.
pub fn laws_of_records()
    ensures rows { RowsAreRead }
    ensures only_rows { OnlyRowsAreRead }
    ensures ten { RowsHaveTenFields }
    ensures written { HistoriesAreWritten }
    ensures read { HistoriesAreRead }
    ensures only_histories { OnlyHistoriesAreRead }
    ensures limits { LimitsAreKnown }
    ensures verdicts { VerdictsAreTrue }
    ensures suffice { TruthsSuffice }
    ensures one { NoneHasTwoVerdicts }
{}
