ghost use Rattle.std.specs.Prelude.{◌≡◌, ◌++◌, ℕ, List, [], IfOk, IfErr, OnOk};
ghost use Rattle.dn_files.specs.Reading.{IsFaultOf};
ghost use Rattle.dn_history.specs.HistoryFile.{history_in};
ghost use Rattle.dn_history.specs.HistoryParts.{HasRead};
ghost use Rattle.dn_history.specs.FileAudit.{HasVerdict, IsAuditing};

use crate::file_audit::entries::audit_entries;
use crate::read::HistoryParts;
use crate::running_audit::RunningAudit;
use crate::verdict::Verdict;
use dn_files::ReplayFault;
use dn_shaper::HashKey;
use std::alloc::{AllocError, Global};

/// The audit of a history whose text comes in parts, by the rule of its version.
#[derive(Drop)]
pub(crate) struct PartsAudit {
    pub(crate) parts: HistoryParts,
    pub(crate) audit: RunningAudit,
}

impl PartsAudit {
    /// An audit of the history of these parts, of which no entry was given.
    pub(crate) fn new(alloc: Global, key: HashKey, parts: HistoryParts) -> PartsAudit
        ensures { (text : List ℕ) → HasRead parts text [] → IsAuditing result text }
    {
        let audit = RunningAudit::new(alloc, key, parts.rule());
        PartsAudit { parts, audit }
    }

    // Audits the entries that have come whole.
    fn audit_given(&mut self) -> Result<(), AllocError>
        ensures { OnOk result ((text : List ℕ) → IsAuditing self.old text → IsAuditing self.new text) }
    {
        let first = self.parts.given();
        let entries = self.parts.take()?;
        self.audit.compare_all(first, entries.as_slice())
    }

    /// Takes a part of the text, and audits the entries that have come whole.
    pub(crate) fn take(&mut self, part: &[u8]) -> Result<(), AllocError>
        ensures { OnOk result ((text : List ℕ) → IsAuditing self.old text → IsAuditing self.new (text ++ part.now)) }
    {
        self.parts.feed(part)?;
        self.audit_given()
    }

    /// The verdict on the history, whose text has ended, and the count of its entries.
    pub(crate) fn end(&mut self) -> Result<(Verdict, usize), ReplayFault>
        ensures ok { IfOk result (λ found. (text : List ℕ) → IsAuditing self.old text → HasVerdict text found.0 found.1) }
        ensures err { IfErr result (λ fault. (text : List ℕ) → IsAuditing self.old text → IsFaultOf (history_in text) fault) }
    {
        let mut reader = self.parts.finish();
        match audit_entries(&mut reader, &mut self.audit) {
            Ok(()) => Ok((self.audit.verdict(), reader.given())),
            Err(fault) => Err(fault),
        }
    }
}
