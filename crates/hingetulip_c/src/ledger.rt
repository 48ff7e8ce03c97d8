ghost use Rattle.std.specs.Prelude.{◌≡◌, ◌≢◌, ◌⊎◌, ◌<◌, ◌≤◌, ◌+◌, [], ◌∷◌, drop, take, length, vec_len, IfOk, IfErr, OnOk, OnErr};
ghost use Rattle.std.specs.Option.{MatchOption};
ghost use Rattle.dn_history.specs.HistoryText.{entry_records};
ghost use Rattle.dn_records.specs.Records.{text_of};
ghost use Rattle.dn_service.specs.Lasting.{Takes};
ghost use Rattle.dn_types.specs.declared.entry.Entry.{Entry as EntryValue};
ghost use Rattle.hingetulip_c.specs.Clients.{IsOther};
ghost use Rattle.hingetulip_c.specs.Services.{next_text, service_losing, waiting, NotTaken, TakenOut, Written, WrittenMany};

use crate::copy_part::{first_of, rest_from};
use crate::history_lines::{entry_text, texts_within};
use crate::put::put_list;
use crate::status::{BUSY, MEMORY, NO_ENTRY, OK, ROOM, UNWRITTEN};
use dn_service::{Segment, Taker};
use dn_types::Entry;
use std::alloc::{AllocError, Global};
use std::mem;

/// A service with a caller of its own, by which entries are taken out, and the entries that it took out last.
#[derive(Drop)]
pub struct Ledger {
    pub(crate) taker: Taker,
    pub(crate) entries: Vec<Entry>,
    /// How many of the entries were written.
    pub(crate) written: usize,
}

impl Ledger {
    /// Takes out all entries so far, in the place of those that were written.
    ///
    /// `Err` has the number of the caller who is in a call.
    fn take(&mut self) -> Result<u64, usize>
        ensures ok { IfOk result (λ start. Takes self.old.taker.lasting self.old.taker.caller start self.new.entries.items self.new.taker.lasting self.new.taker.caller) }
        ensures written { IfOk result (λ start. self.new.written ≡ 0) }
        ensures lost { OnOk result (self.new.taker.caller.lost ≡ self.old.taker.caller.lost) }
        ensures err { IfErr result (λ k. self.new ≡ service_losing k self.old) }
        ensures busy { IfErr result (λ k. IsOther k self.old.taker.caller) }
    {
        match self.taker.try_take_quietly() {
            Ok(Segment { start, entries }) => {
                drop(mem::replace(&mut self.entries, entries));
                self.written = 0;
                Ok(start)
            }
            Err(holder) => Err(holder),
        }
    }

    /// Takes out all entries so far if none waits, and writes the place of the first and how many they are.
    pub(crate) fn take_out(&mut self, start: &mut u64, count: &mut u64, holder: &mut u64) -> u32
        ensures ok { result ≡ 0 → TakenOut start.new self.old self.new }
        ensures count { result ≡ 0 → count.new ≡ length (waiting self.new) }
        ensures refused { result ≢ 0 → NotTaken result holder.new (self.old ∷ []) (self.new ∷ []) × (start.new ≡ start.old) × (count.new ≡ count.old) }
        ensures why { result ≢ 0 → ((result ≡ 17) × (length (waiting self.old) ≢ 0)) ⊎ ((result ≡ 15) × IsOther holder.new self.old.taker.caller) }
        ensures holder { result ≢ 15 → holder.new ≡ holder.old }
    {
        if self.written < self.entries.len() {
            return UNWRITTEN;
        }
        match self.take() {
            Ok(first) => {
                *start = first;
                *count = self.entries.len() as u64;
                OK
            }
            Err(number) => {
                *holder = number as u64;
                BUSY
            }
        }
    }

    /// The text of the first entry that was not written, if there is one.
    fn next_text(&self, alloc: Global) -> Result<Option<Vec<u8>>, AllocError>
        ensures text { IfOk result (λ found. MatchOption found (waiting self.now ≡ [])
            (λ text. (entry : EntryValue) × (waiting self.now ≡ entry ∷ drop (self.now.written + 1) self.now.entries.items)
            × (text.items ≡ text_of (entry_records entry)) × (self.now.written < vec_len self.now.entries))) }
        ensures memory { OnErr result (length (waiting self.now) ≢ 0) }
    {
        match self.entries.get(self.written) {
            Some(entry) => match entry_text(alloc, entry) {
                Ok(text) => Ok(Some(text)),
                Err(fault) => Err(fault),
            },
            None => Ok(None),
        }
    }

    /// Writes the first entry that was not written, if there is one and it has room.
    pub(crate) fn write_next(&mut self, alloc: Global, text: &mut [u8], size: &mut u64) -> u32
        ensures statuses { (result ≡ 0) ⊎ (result ≡ 6) ⊎ (result ≡ 7) ⊎ (result ≡ 18) }
        ensures ok { result ≡ 0 → Written (take size.new text.new) self.old self.new }
        ensures within { result ≡ 0 → size.new ≤ length text.new }
        ensures others { result ≡ 0 → drop size.new text.new ≡ drop size.new text.old }
        ensures refused { result ≢ 0 → (self.new ≡ self.old) × (text.new ≡ text.old) }
        ensures room { result ≡ 7 → (length text.old < size.new) × (size.new ≡ length (next_text (waiting self.old))) }
        ensures size { result ≢ 0 → result ≢ 7 → size.new ≡ size.old }
        ensures none { result ≡ 18 → waiting self.old ≡ [] }
        ensures memory { result ≡ 6 → length (waiting self.old) ≢ 0 }
    {
        match self.next_text(alloc) {
            Err(_) => MEMORY,
            Ok(None) => NO_ENTRY,
            Ok(Some(line)) => {
                *size = line.len() as u64;
                if text.len() < line.len() {
                    return ROOM;
                }
                put_list(line.as_slice(), text);
                self.written += 1;
                OK
            }
        }
    }

    /// Writes the first entries that were not written, as many as have room.
    pub(crate) fn write_many(
        &mut self,
        alloc: Global,
        text: &mut [u8],
        size: &mut u64,
        count: &mut u64,
    ) -> u32
        ensures statuses { (result ≡ 0) ⊎ (result ≡ 6) ⊎ (result ≡ 7) ⊎ (result ≡ 18) }
        ensures ok { result ≡ 0 → WrittenMany count.new (length text.old) (take size.new text.new) self.old self.new }
        ensures within { result ≡ 0 → size.new ≤ length text.new }
        ensures others { result ≡ 0 → drop size.new text.new ≡ drop size.new text.old }
        ensures refused { result ≢ 0 → (self.new ≡ self.old) × (text.new ≡ text.old) × (count.new ≡ count.old) }
        ensures room { result ≡ 7 → (length text.old < size.new) × (size.new ≡ length (next_text (waiting self.old))) }
        ensures size { result ≢ 0 → result ≢ 7 → size.new ≡ size.old }
        ensures none { result ≡ 18 → waiting self.old ≡ [] }
        ensures memory { result ≡ 6 → length (waiting self.old) ≢ 0 }
    {
        let waiting = rest_from(self.entries.as_slice(), self.written);
        if waiting.is_empty() {
            return NO_ENTRY;
        }
        let Ok(made) = texts_within(alloc, waiting, text.len()) else {
            return MEMORY;
        };
        if made.count == 0 {
            *size = made.text.len() as u64;
            return ROOM;
        }
        put_list(first_of(made.text.as_slice(), made.size), text);
        *size = made.size as u64;
        *count = made.count as u64;
        self.written += made.count;
        OK
    }
}
