ghost use Rattle.std.specs.Prelude.{◌≡◌, IfOk, OnErr};
ghost use Rattle.dn_types.specs.History.{IsLawful};
ghost use Rattle.dn_history.specs.Audit.{CanWantMemory, IsVerdict};
ghost use Rattle.dn_history.specs.declared.verdict.Verdict.TheVariants.{Lawful};

use crate::running_audit::RunningAudit;
use crate::verdict::Verdict;
use dn_shaper::HashKey;
use dn_types::{Entry, Rule};
use std::alloc::{AllocError, Global};

/// Asks a new shaper the calls of a history, oldest first, and compares each reply with the entry's.
///
/// The verdict has the first entry that differs. It doesn't matter which caller made a call. Err says that memory was
/// refused for a call.
pub fn audit(alloc: Global, rule: Rule, entries: &[Entry]) -> Result<Verdict, AllocError>
    ensures ok { IfOk result (λ verdict. IsVerdict rule entries.now verdict) }
    ensures lawful { IfOk result (λ verdict. IsLawful rule entries.now → verdict ≡ Lawful) }
    ensures err { OnErr result (CanWantMemory rule entries.now) }
{
    audit_with_key(alloc, HashKey(0), rule, entries)
}

/// [`audit`] with a secret for the flow table's hash, where a stranger chose the packets. No verdict depends on it.
pub fn audit_with_key(
    alloc: Global,
    key: HashKey,
    rule: Rule,
    entries: &[Entry],
) -> Result<Verdict, AllocError>
    ensures ok { IfOk result (λ verdict. IsVerdict rule entries.now verdict) }
    ensures lawful { IfOk result (λ verdict. IsLawful rule entries.now → verdict ≡ Lawful) }
    ensures err { OnErr result (CanWantMemory rule entries.now) }
{
    let mut audit = RunningAudit::new(alloc, key, rule);
    let outcome = audit.compare_all(0, entries);
    let verdict = audit.verdict();
    // The proof of a drop by a call has one step, where that of a drop at the end has one for each field.
    drop(audit);
    match outcome {
        Ok(()) => Ok(verdict),
        Err(error) => Err(error),
    }
}
