//! The audit of a history file, whose text is read in parts.

ghost use Rattle.std.specs.Prelude.{◌≡◌, false, ℕ, List, string_bytes, IfOk, IfErr, Ok};
ghost use Rattle.dn_files.specs.Reading.{IsRefusal, IsTextOf, within_limit};
ghost use Rattle.dn_files.specs.declared.source.Source.TheVariants.{History};
ghost use Rattle.dn_history.specs.FileAudit.{HasVerdict, history_within, IsAuditFault, IsAudited, IsAuditedWithin, IsUnaudited, IsUnauditedWithin, verdict_line};

mod entries;
mod file_audit;
mod parts_audit;

use crate::read::HISTORY_LIMIT;
use crate::verdict::Verdict;
use dn_files::{ReplayFault, Source, write_text};
use dn_records::{Inlet, Outlet};
use dn_shaper::HashKey;
pub use file_audit::FileAudit;
use std::alloc::{AllocError, Global};

/// The line that tells a verdict on a history of this many entries.
fn verdict_line(alloc: Global, entries: usize, verdict: Verdict) -> Result<String, AllocError>
    ensures { IfOk result (λ line. string_bytes line ≡ verdict_line entries verdict) }
{
    match verdict {
        Verdict::Lawful => format!(in alloc; "lawful {entries}\n"),
        Verdict::Differs(index) => format!(in alloc; "differs {index}\n"),
    }
}

/// Reads a history file and audits it: the verdict, and the count of its entries.
fn audit_input<I: Inlet>(
    alloc: Global,
    key: HashKey,
    limit: usize,
    history: &mut I,
) -> Result<(Verdict, usize), ReplayFault>
    requires { I.has_failed history.old ≡ false }
    ensures ok { IfOk result (λ found. (text : List ℕ) × IsTextOf (I.remaining history.old) text
        × (within_limit limit History text ≡ Ok text) × HasVerdict text found.0 found.1) }
    ensures sound { IfOk result (λ _. I.has_failed history.new ≡ false) }
    ensures err { IfErr result (λ fault. IsRefusal History (history_within limit)
        (I.remaining history.old) (I.has_failed history.new) fault) }
{
    let mut audit = FileAudit::within(alloc, key, limit);
    match audit.read(history) {
        Ok(()) => audit.finish(),
        Err(fault) => {
            // The proof of a drop by a call has one step, where that of a drop at the end has one for each field.
            drop(audit);
            Err(fault)
        }
    }
}

/// Reads a history file, audits it by the rule of its version, and writes one line.
///
/// The line is `lawful` and the count of the entries, or `differs` and the first entry that differs, counted from 0. A
/// history file has at most 268,435,456 bytes; the history of a large replay can be longer. The faults are those of
/// `read_history`. `OutOfMemory` is also returned if an audit or the line was refused memory, and `Write(Report)` if a
/// write of the line failed.
pub fn audit_file<I: Inlet, O: Outlet>(
    alloc: Global,
    history: &mut I,
    out: &mut O,
) -> Result<Verdict, ReplayFault>
    requires input { I.has_failed history.old ≡ false }
    requires out { O.has_failed out.old ≡ false }
    ensures ok { IfOk result (λ verdict. IsAudited (I.remaining history.old) verdict
        (O.contents out.old) (O.contents out.new)) }

    // No read and no write failed.
    ensures inputs { IfOk result (λ _. I.has_failed history.new ≡ false) }
    ensures sound { IfOk result (λ _. O.has_failed out.new ≡ false) }
    ensures err { IfErr result (λ fault. IsUnaudited (I.remaining history.old) (I.has_failed history.new)
        (O.contents out.old) (O.contents out.new) (O.has_failed out.new) fault) }
    ensures faults { IfErr result (λ fault. IsAuditFault fault) }
{
    audit_file_with_key(alloc, HashKey(0), history, out)
}

/// [`audit_file`] with a secret for the flow table's hash, for packets that a stranger chose.
///
/// No verdict depends on it.
pub fn audit_file_with_key<I: Inlet, O: Outlet>(
    alloc: Global,
    key: HashKey,
    history: &mut I,
    out: &mut O,
) -> Result<Verdict, ReplayFault>
    requires input { I.has_failed history.old ≡ false }
    requires out { O.has_failed out.old ≡ false }
    ensures ok { IfOk result (λ verdict. IsAudited (I.remaining history.old) verdict
        (O.contents out.old) (O.contents out.new)) }

    // No read and no write failed.
    ensures inputs { IfOk result (λ _. I.has_failed history.new ≡ false) }
    ensures sound { IfOk result (λ _. O.has_failed out.new ≡ false) }
    ensures err { IfErr result (λ fault. IsUnaudited (I.remaining history.old) (I.has_failed history.new)
        (O.contents out.old) (O.contents out.new) (O.has_failed out.new) fault) }
    ensures faults { IfErr result (λ fault. IsAuditFault fault) }
{
    audit_file_within(alloc, key, HISTORY_LIMIT, history, out)
}

/// [`audit_file_with_key`] of a history file of at most `limit` bytes.
pub fn audit_file_within<I: Inlet, O: Outlet>(
    alloc: Global,
    key: HashKey,
    limit: usize,
    history: &mut I,
    out: &mut O,
) -> Result<Verdict, ReplayFault>
    requires input { I.has_failed history.old ≡ false }
    requires out { O.has_failed out.old ≡ false }
    ensures ok { IfOk result (λ verdict. IsAuditedWithin limit (I.remaining history.old) verdict
        (O.contents out.old) (O.contents out.new)) }

    // No read and no write failed.
    ensures inputs { IfOk result (λ _. I.has_failed history.new ≡ false) }
    ensures sound { IfOk result (λ _. O.has_failed out.new ≡ false) }
    ensures err { IfErr result (λ fault. IsUnauditedWithin limit (I.remaining history.old) (I.has_failed history.new)
        (O.contents out.old) (O.contents out.new) (O.has_failed out.new) fault) }
    ensures faults { IfErr result (λ fault. IsAuditFault fault) }
{
    let (verdict, entries) = match audit_input(alloc, key, limit, history) {
        Ok(found) => found,
        Err(fault) => return Err(fault),
    };
    let Ok(line) = verdict_line(alloc, entries, verdict) else {
        return Err(ReplayFault::OutOfMemory);
    };
    match write_text(out, Source::Report, line.as_bytes()) {
        Ok(()) => Ok(verdict),
        Err(fault) => Err(fault),
    }
}
