ghost use Rattle.std.specs.Prelude.{◌≡◌, ◌≤◌, ◌+◌, ◌-◌, ◌++◌, length, ⊤, ℕ, List, [], IfOk, IfErr, OnOk, None, false};
ghost use Rattle.dn_types.specs.declared.entry.Entry.{Entry as EntryValue};
ghost use Rattle.dn_types.specs.declared.rule.Rule.{Rule as RuleValue};
ghost use Rattle.dn_files.specs.Reading.{IsFaultOf, IsRefusal, IsTextOf};
ghost use Rattle.dn_files.specs.declared.source.Source.TheVariants.{History};
ghost use Rattle.dn_history.specs.HistoryFile.{history_in};
ghost use Rattle.dn_history.specs.FileAudit.{HasCome, HasTaken, HasVerdict, history_within, IsUnfed};

use crate::file_audit::entries::audit_text;
use crate::file_audit::parts_audit::PartsAudit;
use crate::read::{HISTORY_LIMIT, HistoryParts};
use crate::verdict::Verdict;
use dn_files::{Feed, ReplayFault, Source, feed_all};
use dn_records::Inlet;
use dn_shaper::HashKey;
use std::alloc::{AllocError, Global};
use std::mem;

/// The audit of a history file that comes in parts of any length.
///
/// `HasCome` says which text has come. Once the line of the version has come, entries are audited as they come. If that
/// line isn't written plainly, the text is kept, and read at the end.
#[derive(Drop)]
pub struct FileAudit {
    alloc: Global,
    key: HashKey,
    pub(crate) limit: usize,
    pub(crate) length: usize,
    pub(crate) front: Vec<u8>,
    // In a block of its own, so that the proof that an audit is dropped doesn't go through all that is in it.
    pub(crate) begun: Option<Box<PartsAudit>>,
}

impl FileAudit {
    /// An audit of which nothing has come, of at most 268,435,456 bytes.
    ///
    /// No verdict depends on the key, the secret of the flow table.
    pub fn new(alloc: Global, key: HashKey) -> FileAudit
        ensures come { HasCome result [] }
        ensures limit { result.limit ≡ 268435456 }
    {
        FileAudit::within(alloc, key, HISTORY_LIMIT)
    }

    /// The same of at most `limit` bytes.
    pub fn within(alloc: Global, key: HashKey, limit: usize) -> FileAudit
        ensures come { HasCome result [] }
        ensures limit { result.limit ≡ limit }
    {
        FileAudit {
            alloc,
            key,
            limit,
            length: 0,
            front: Vec::new(alloc),
            begun: None,
        }
    }

    // Keeps a part of the text, and begins where the line of the version has come.
    fn begin(&mut self, part: &[u8]) -> Result<(), AllocError>
        requires { self.old.begun ≡ None }
        ensures taken { OnOk result ((text : List ℕ) → HasTaken self.old text → HasTaken self.new (text ++ part.now)) }
        ensures length { self.new.length ≡ self.old.length }
        ensures limit { self.new.limit ≡ self.old.limit }
    {
        self.front.extend_from_slice(part)?;
        let Some(parts) = HistoryParts::new(self.alloc, self.front.as_slice())? else {
            return Ok(());
        };
        let begun = Box::new(self.alloc, PartsAudit::new(self.alloc, self.key, parts))?;
        drop(mem::replace(&mut self.begun, Some(begun)));
        Ok(())
    }

    // Takes a part of the text, whatever its length.
    fn take(&mut self, part: &[u8]) -> Result<(), AllocError>
        ensures taken { OnOk result ((text : List ℕ) → HasTaken self.old text → HasTaken self.new (text ++ part.now)) }
        ensures length { self.new.length ≡ self.old.length }
        ensures limit { self.new.limit ≡ self.old.limit }
    {
        match &mut self.begun {
            Some(begun) => begun.take(part),
            None => self.begin(part),
        }
    }

    /// Takes the next part of the text, which has at most as many bytes in all as its limit says.
    ///
    /// TooLong says that the text has more, and OutOfMemory that a growth was refused. After either the audit is of no more
    /// use.
    #[tactic(auto, using(crate::proofs::FileAuditSteps::overflows, crate::proofs::FileAuditSteps::fits))]
    pub fn feed(&mut self, part: &[u8]) -> Result<(), ReplayFault>
        ensures ok { OnOk result ((text : List ℕ) → HasCome self.old text → HasCome self.new (text ++ part.now)) }
        ensures limit { self.new.limit ≡ self.old.limit }
        ensures room { OnOk result (length part.now + (self.new.limit - self.new.length) ≤ self.old.limit - self.old.length) }
        ensures err { IfErr result (λ fault. (text more : List ℕ) → HasCome self.old text
            → IsFaultOf (history_within self.old.limit (text ++ (part.now ++ more))) fault) }
        ensures faults { IfErr result (λ fault. IsUnfed self.old part.now fault) }
    {
        if part.len() > self.limit.saturating_sub(self.length) {
            return Err(ReplayFault::TooLong(Source::History));
        }
        let Ok(()) = self.take(part) else {
            return Err(ReplayFault::OutOfMemory);
        };
        self.length += part.len();
        Ok(())
    }

    /// Feeds what an inlet has left, in parts of at most 65,536 bytes.
    ///
    /// The faults are those of `feed`, and Read if a read failed. Once more bytes have come than a file has at most,
    /// nothing more is read.
    pub fn read<I: Inlet>(&mut self, inlet: &mut I) -> Result<(), ReplayFault>
        requires come { HasCome self.old [] }
        requires sound { I.has_failed inlet.old ≡ false }
        ensures ok { OnOk result ((text : List ℕ) × IsTextOf (I.remaining inlet.old) text × HasCome self.new text) }
        ensures limit { OnOk result (self.new.limit ≡ self.old.limit) }
        ensures sound { OnOk result (I.has_failed inlet.new ≡ false) }
        ensures err { IfErr result (λ fault. IsRefusal History (history_within self.old.limit)
            (I.remaining inlet.old) (I.has_failed inlet.new) fault) }
    {
        feed_all(self.alloc, inlet, self)
    }

    /// The verdict on the history, whose text has ended, and the count of its entries.
    ///
    /// The faults are BadRecord with the number of the first bad record, from 1, and OutOfMemory. The first difference is
    /// kept while reading goes on, because a fault of the text comes before a verdict.
    pub fn finish(self) -> Result<(Verdict, usize), ReplayFault>
        ensures ok { IfOk result (λ found. (text : List ℕ) → HasCome self text → HasVerdict text found.0 found.1) }
        ensures err { IfErr result (λ fault. (text : List ℕ) → HasCome self text → IsFaultOf (history_in text) fault) }
    {
        let mut audit = self;
        let found = match &mut audit.begun {
            Some(begun) => begun.end(),
            None => audit_text(audit.alloc, audit.key, audit.front.as_slice()),
        };
        // The proof of a drop by a call has one step, where that of a drop at the end has one for each field.
        drop(audit);
        found
    }
}

impl Feed for FileAudit {
    // The limit.
    ghost Known = { ℕ };

    ghost Value = { RuleValue × List EntryValue };

    ghost reading = { history_within };

    ghost source_of = { λ limit. History };

    ghost has_come = { λ limit audit text. HasCome audit text × (audit.limit ≡ limit) };

    ghost room = { λ audit. audit.limit - audit.length };

    fn feed(&mut self, part: &[u8]) -> Result<(), ReplayFault> {
        FileAudit::feed(self, part)
    }

    fn source(&self) -> Source {
        Source::History
    }
}
