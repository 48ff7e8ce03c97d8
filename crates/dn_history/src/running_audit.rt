ghost use Rattle.std.specs.Prelude.{◌≡◌, ◌<◌, ◌+◌, ◌^◌, List, [], ◌∷◌, ◌++◌, length, OnOk, OnErr};
ghost use Rattle.dn_types.specs.declared.entry.Entry.{Entry as EntryValue};
ghost use Rattle.dn_types.specs.declared.rule.Rule.{Rule as RuleValue};
ghost use Rattle.dn_history.specs.Audit.{CanWantMemory, HasAudited};

use crate::verdict::Verdict;
use dn_shaper::{HashKey, Shaper};
use dn_types::{Entry, Rule};
use std::alloc::{AllocError, Global};

/// An audit under way: a shaper that was asked the calls of the entries so far, and what was found of these.
///
/// After the first entry that differs no call is asked.
#[derive(Drop)]
pub(crate) struct RunningAudit {
    shaper: Shaper,
    verdict: Verdict,
}

impl RunningAudit {
    /// An audit of no entry yet.
    pub(crate) fn new(alloc: Global, key: HashKey, rule: Rule) -> RunningAudit
        ensures { HasAudited rule result [] }
    {
        RunningAudit {
            shaper: Shaper::with_key(alloc, rule, key),
            verdict: Verdict::Lawful,
        }
    }

    /// What was found of the entries so far.
    pub(crate) fn verdict(&self) -> Verdict
        ensures { result ≡ self.now.verdict }
    {
        self.verdict
    }

    /// Asks the call of the next entry, which has this index, and compares the reply with the entry's.
    pub(crate) fn compare(&mut self, index: usize, entry: &Entry) -> Result<(), AllocError>
        ensures ok { OnOk result ((rule : RuleValue) (history : List EntryValue)
            → HasAudited rule self.old history → index ≡ length history
            → HasAudited rule self.new (history ++ entry.now ∷ [])) }
        ensures err { OnErr result ((rule : RuleValue) (history : List EntryValue)
            → HasAudited rule self.old history
            → CanWantMemory rule (history ++ entry.now ∷ [])) }
    {
        if let Verdict::Differs(_) = self.verdict {
            return Ok(());
        }
        let reply = self.shaper.apply(&entry.call)?;
        if reply != entry.reply {
            self.verdict = Verdict::Differs(index);
        }
        Ok(())
    }

    /// Asks the calls of the next entries, oldest first, the first of which has this index.
    pub(crate) fn compare_all(&mut self, first: usize, entries: &[Entry]) -> Result<(), AllocError>
        requires { first + length entries.now < 2 ^ 64 }
        ensures ok { OnOk result ((rule : RuleValue) (front : List EntryValue)
            → HasAudited rule self.old front → first ≡ length front
            → HasAudited rule self.new (front ++ entries.now)) }
        ensures err { OnErr result ((rule : RuleValue) (front : List EntryValue)
            → HasAudited rule self.old front → first ≡ length front
            → CanWantMemory rule (front ++ entries.now)) }
    {
        for (place, entry) in entries.iter().enumerate() {
            self.compare(first + place, entry)?;
        }
        Ok(())
    }
}
