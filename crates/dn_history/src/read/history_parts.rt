ghost use Rattle.std.specs.Prelude.{◌≡◌, ◌<◌, ◌^◌, ◌+◌, ◌++◌, [], ◌∷◌, ℕ, List, length, IfOk, MatchOption, OnErr, OnOk};
ghost use Rattle.dn_types.specs.declared.entry.Entry.{Entry as EntryValue};
ghost use Rattle.dn_history.specs.HistoryFile.{history_in};
ghost use Rattle.dn_history.specs.HistoryParts.{BeginsNoHistory, HasRead, history_behind};
ghost use Rattle.dn_history.specs.HistoryRecords.{rule_of};

use crate::history_version::HistoryVersion;
use crate::read::batch::{Batch, read_batch};
use crate::read::entry_reader::EntryReader;
use crate::read::header::header_at_front;
use crate::read::items_ahead::ends_in_item;
use csv::ByteRecord;
use dn_records::behind_records;
use dn_types::{Entry, Rule};
use std::alloc::{AllocError, Global};
use std::marker::Model;

/// The entries of a history whose text comes in parts.
///
/// `HasRead` says which text has been fed, and which entries have been given.
#[derive(Drop)]
pub struct HistoryParts {
    alloc: Global,
    version: HistoryVersion,
    given: usize,
    number: u64,
    // What has been fed and not read, behind a line feed.
    text: Vec<u8>,
    // How long that was when it was read last.
    tried: usize,
    // The fields of a record, whose memory is used again.
    fields: ByteRecord,
}

impl Model for HistoryParts {
    ghost use Rattle.std.specs.Prelude.{◌≡◌, ◌<◌, ◌^◌, ◌∷◌, drop};
    ghost use Rattle.dn_history.specs.HistoryParts.{Unread};

    ghost Value = { Unread };

    ghost view = { λ s. record { version = s.version; given = s.given; number = s.number; text = drop 1 s.text.items } };

    ghost invariant = { λ s. (s.given < 2 ^ 62) × (s.number < 2 ^ 62) × (s.text.items ≡ 10 ∷ drop 1 s.text.items) };
}

/// A line feed, and two texts behind it.
fn text_left(alloc: Global, front: &[u8], back: &[u8]) -> Result<Vec<u8>, AllocError>
    ensures { IfOk result (λ text. text.items ≡ 10 ∷ (front.now ++ back.now)) }
{
    let mut text = Vec::new(alloc);
    text.push(b'\n')?;
    text.extend_from_slice(front)?;
    text.extend_from_slice(back)?;
    Ok(text)
}

impl HistoryParts {
    /// The parts of a history that begins with this text.
    ///
    /// None if it doesn't begin with the whole line of a version, written plainly.
    pub fn new(alloc: Global, text: &[u8]) -> Result<Option<HistoryParts>, AllocError>
        ensures { IfOk result (λ found. MatchOption found (BeginsNoHistory text.now) (λ parts. HasRead parts text.now [])) }
    {
        let Some((version, rest)) = header_at_front(text) else {
            return Ok(None);
        };
        let left = text_left(alloc, rest, &[])?;
        Ok(Some(HistoryParts {
            alloc,
            version,
            given: 0,
            number: 2,
            text: left,
            tried: 0,
            fields: ByteRecord::new(alloc),
        }))
    }

    /// The rule of the history.
    ///
    /// It is Free in files of versions 1 and 2, and Ordered in those of version 3 and in the transcripts of live sessions.
    pub fn rule(&self) -> Rule
        ensures { result ≡ rule_of self.now.version }
    {
        self.version.rule()
    }

    /// How many entries were given.
    pub fn given(&self) -> usize
        ensures { result ≡ self.now.given }
    {
        self.given
    }

    // Whether it is worth to read again: a list isn't read before its end, and no entry more than a few times.
    fn is_due(&self) -> bool {
        self.text.len() / 2 >= self.tried && !ends_in_item(self.text.as_slice())
    }

    /// Takes the next part of the text, of any length. After an error it wasn't taken.
    pub fn feed(&mut self, part: &[u8]) -> Result<(), AllocError>
        ensures ok { OnOk result ((text : List ℕ) (entries : List EntryValue) → HasRead self.old text entries
            → HasRead self.new (text ++ part.now) entries) }
        ensures version { self.new.version ≡ self.old.version }
        ensures err { OnErr result (self.new ≡ self.old) }
    {
        self.text.extend_from_slice(part)
    }

    /// The next entries: those that have come whole, up to the first that isn't written plainly.
    ///
    /// That one and those behind it are left to the reader of `finish`. None is given while a list may be under way, or
    /// before the text that is left has twice the length that it had when it was read last.
    pub fn take(&mut self) -> Result<Vec<Entry>, AllocError>
        ensures ok { IfOk result (λ list. (text : List ℕ) (entries : List EntryValue) → HasRead self.old text entries
            → HasRead self.new text (entries ++ list.items)) }
        ensures version { self.new.version ≡ self.old.version }
        ensures given { IfOk result (λ list. (self.new.given ≡ self.old.given + length list.items) × (self.new.given < 2 ^ 62)) }
        ensures err { OnErr result (self.new ≡ self.old) }
    {
        if !self.is_due() {
            return Ok(Vec::new(self.alloc));
        }
        let whole = self.text.len() - behind_records(&self.text[1..]).len();
        let Batch {
            entries,
            given,
            number,
            left,
        } = read_batch(
            self.alloc,
            self.version,
            self.given,
            self.number,
            &self.text[..whole],
            &mut self.fields,
        )?;
        // What is left of whole records is whole records, which no clause of the reading says.
        if !behind_records(left).is_empty() {
            return Ok(Vec::new(self.alloc));
        }
        let text = text_left(self.alloc, left, &self.text[whole..])?;
        self.given = given;
        self.number = number;
        self.tried = text.len();
        self.text = text;
        Ok(entries)
    }

    /// A reader of the entries that are left, where the text has ended.
    pub fn finish(&self) -> EntryReader<'_>
        ensures left { (text : List ℕ) (entries : List EntryValue) → HasRead self.now text entries
            → history_in text ≡ history_behind entries result }
        ensures rule { result.rule ≡ rule_of self.now.version }
        ensures given { result.given ≡ self.now.given }
    {
        let left = self.text.as_slice();
        EntryReader::from(self.alloc, self.version, self.given, self.number, left)
    }
}
