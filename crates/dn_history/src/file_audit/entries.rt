ghost use Rattle.std.specs.Prelude.{◌≡◌, List, length, IfOk, IfErr, OnOk};
ghost use Rattle.dn_types.specs.declared.entry.Entry.{Entry as EntryValue};
ghost use Rattle.dn_types.specs.declared.rule.Rule.{Rule as RuleValue};
ghost use Rattle.dn_files.specs.Reading.{IsFaultOf};
ghost use Rattle.dn_history.specs.HistoryFile.{history_in};
ghost use Rattle.dn_history.specs.Audit.{HasAudited};
ghost use Rattle.dn_history.specs.FileAudit.{AreAudited, HasVerdict};

use crate::read::EntryReader;
use crate::running_audit::RunningAudit;
use crate::verdict::Verdict;
use dn_files::ReplayFault;
use dn_shaper::HashKey;
use std::alloc::Global;

/// Audits all entries that a reader has left, each as it is read, behind those that were audited before.
pub(crate) fn audit_entries(
    reader: &mut EntryReader<'_>,
    audit: &mut RunningAudit,
) -> Result<(), ReplayFault>
    ensures ok { OnOk result ((rule : RuleValue) (front : List EntryValue) → HasAudited rule audit.old front → reader.old.given ≡ length front
        → AreAudited rule front reader.old.entries audit.new reader.new.given) }
    ensures rule { reader.new.rule ≡ reader.old.rule }
    ensures err { IfErr result (λ fault. IsFaultOf reader.old.entries fault) }
{
    loop {
        let index = reader.given();
        match reader.next() {
            Ok(Some(entry)) => {
                let outcome = audit.compare(index, &entry);
                drop(entry);
                if outcome.is_err() {
                    return Err(ReplayFault::OutOfMemory);
                }
            }
            Ok(None) => return Ok(()),
            Err(fault) => return Err(fault),
        }
    }
}

/// The verdict on the history of a text, and the count of its entries.
///
/// The first difference is kept while reading goes on, because a fault of the text comes before a verdict.
pub(crate) fn audit_text(
    alloc: Global,
    key: HashKey,
    text: &[u8],
) -> Result<(Verdict, usize), ReplayFault>
    ensures ok { IfOk result (λ found. HasVerdict text.now found.0 found.1) }
    ensures err { IfErr result (λ fault. IsFaultOf (history_in text.now) fault) }
{
    let mut reader = match EntryReader::new(alloc, text) {
        Ok(reader) => reader,
        Err(fault) => return Err(fault),
    };
    let rule = reader.rule();
    let mut audit = RunningAudit::new(alloc, key, rule);
    let outcome = audit_entries(&mut reader, &mut audit);
    let verdict = audit.verdict();
    // The proof of a drop by a call has one step, where that of a drop at the end has one for each field.
    drop(audit);
    match outcome {
        Ok(()) => Ok((verdict, reader.given())),
        Err(fault) => Err(fault),
    }
}
