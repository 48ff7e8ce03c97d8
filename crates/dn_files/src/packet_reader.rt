ghost use Rattle.std.specs.Prelude.{◌≡◌, ◌≤◌, ◌<◌, ◌+◌, ◌^◌, ℕ, List, [], ◌∷◌, ◌++◌, drop, max, slice_set, Some, Ok, IfOk, IfErr, OnOk, OnErr, OnSome, MatchOption, length, vec_len};
ghost use Rattle.dn_records.specs.Records.{line_of};
ghost use Rattle.dn_files.specs.PacketFile.{rows_of};
ghost use Rattle.dn_files.specs.PacketParts.{BeginsNext, BeginsRow, HasRead, header};
ghost use Rattle.dn_files.specs.Reading.{IsFaultOf};
ghost use Rattle.dn_files.specs.declared.row.Row.{Row};

use crate::packets::{rows_from_text, rows_of_text};
use crate::quoted_row::{behind_header, row_at_front};
use crate::replay_fault::ReplayFault;
use crate::row::Row;
use dn_types::Target;
use std::alloc::{AllocError, Global};
use std::marker::Model;

// Rows from this number on are left for the end.
const MOST: u64 = 1 << 62;

// Takes that many bytes off the front of a text.
fn remove_front(text: &mut Vec<u8>, count: usize)
    requires { count ≤ vec_len text.old }
    ensures { text.new.items ≡ drop count text.old.items }
{
    let len = text.len();
    text.as_mut_slice().copy_within(count..len, 0);
    text.truncate(len - count);
}

// Writes a line feed at a place.
fn put_line_feed(text: &mut Vec<u8>, place: usize)
    requires { place < vec_len text.old }
    ensures { text.new.items ≡ slice_set text.old.items place 10 }
{
    text[place] = b'\n';
}

/// The rows of a packet file whose text comes in parts.
///
/// `HasRead` says which text has been fed, and which rows have been taken.
#[derive(Drop)]
pub struct PacketReader {
    alloc: Global,
    text: Vec<u8>,
    // The bytes of the text before it have been read.
    start: usize,
    // The number of the record that begins there, 0 for the header.
    number: u64,
}

impl Model for PacketReader {
    ghost use Rattle.std.specs.Prelude.{drop, length};
    ghost use Rattle.dn_files.specs.Unread.{StandsAt, Unread};

    ghost Value = { Unread };

    ghost view = { λ s. record { number = s.number; text = drop s.start s.text.items } };

    ghost invariant = { λ s. StandsAt s.number s.start (length s.text.items) };
}

impl PacketReader {
    /// A reader to which nothing has been fed.
    pub fn new(alloc: Global) -> PacketReader
        ensures read { HasRead result [] [] }
        ensures empty { result ≡ record { number = 0; text = [] } }
    {
        PacketReader::of_text(alloc, Vec::new(alloc))
    }

    // A reader to which this text has been fed.
    pub(crate) fn of_text(alloc: Global, text: Vec<u8>) -> PacketReader
        ensures read { HasRead result text.items [] }
        ensures whole { result ≡ record { number = 0; text = text.items } }
    {
        PacketReader {
            alloc,
            text,
            start: 0,
            number: 0,
        }
    }

    // Gives back the room of what has been read, but for its last byte, where that is more than what is
    // left, so that no byte is moved often.
    fn forget_read(&mut self)
        ensures { self.new ≡ self.old }
    {
        if self.start > self.text.len() / 2 {
            remove_front(&mut self.text, self.start - 1);
            self.start = 1;
        }
    }

    /// Appends a part of the text, of any length. After an error nothing was appended.
    pub fn feed(&mut self, part: &[u8]) -> Result<(), AllocError>
        ensures ok { OnOk result ((text : List ℕ) → (rows : List Row) → HasRead self.old text rows
            → HasRead self.new (text ++ part.now) rows) }
        ensures text { OnOk result (self.new ≡ record { number = self.old.number; text = self.old.text ++ part.now }) }
        ensures err { OnErr result (self.new ≡ self.old) }
    {
        self.forget_read();
        self.text.extend_from_slice(part)
    }

    // Reads the header, if it is next and written in a plain form.
    fn take_header(&mut self)
        ensures rows { (text : List ℕ) → (rows : List Row) → HasRead self.old text rows → HasRead self.new text rows }
        ensures no_longer { length self.new.text ≤ length self.old.text }
        ensures first { (below : List ℕ) → self.old.number ≡ 0 → self.old.text ≡ line_of header ++ below
            → self.new ≡ record { number = 1; text = below } }
        ensures later { 0 < self.old.number → self.new ≡ self.old }
    {
        if self.number != 0 {
            return;
        }
        let Some(rest) = behind_header(&self.text[self.start..]) else {
            return;
        };
        let left = rest.len();
        self.start = self.text.len() - left;
        self.number = 1;
    }

    // Reads the next row, if it is written in a plain form.
    #[inline(always)]
    fn take_row(&mut self) -> Option<Row>
        ensures rows { MatchOption result
            ((text : List ℕ) → (rows : List Row) → HasRead self.old text rows → HasRead self.new text rows)
            (λ row. (text : List ℕ) → (rows : List Row) → HasRead self.old text rows → HasRead self.new text (rows ++ row ∷ [])) }
        ensures shorter { OnSome result (length self.new.text < length self.old.text) }
        ensures gives { (row : Row) → (rest : List ℕ) → 0 < self.old.number → self.old.number < 2 ^ 62 → BeginsRow self.old.text row rest
            → (result ≡ Some row) × (self.new ≡ record { number = self.old.number + 1; text = rest }) }
    {
        if self.number == 0 {
            return None;
        }
        if self.number >= MOST {
            return None;
        }
        let Some((row, rest)) = row_at_front(&self.text[self.start..]) else {
            return None;
        };
        self.start = self.text.len() - rest.len();
        self.number += 1;
        Some(row)
    }

    /// The next row, or None if the text that has been fed doesn't go on with a whole row in a plain form.
    ///
    /// Each field of such a row is written as it is or in quotes. It ends in a line feed, or in a carriage return and a
    /// line feed. More text may make the row whole; `finish` reads any other.
    #[inline(always)]
    pub fn next(&mut self) -> Option<Row>
        ensures rows { MatchOption result
            ((text : List ℕ) → (rows : List Row) → HasRead self.old text rows → HasRead self.new text rows)
            (λ row. (text : List ℕ) → (rows : List Row) → HasRead self.old text rows → HasRead self.new text (rows ++ row ∷ [])) }
        ensures shorter { OnSome result (length self.new.text < length self.old.text) }
        ensures gives { (row : Row) → (rest : List ℕ) → self.old.number < 2 ^ 62 → BeginsNext self.old.number self.old.text row rest
            → (result ≡ Some row) × (self.new ≡ record { number = max 1 self.old.number + 1; text = rest }) }
    {
        self.take_header();
        self.take_row()
    }

    /// The rows that are left, after the end of the text.
    ///
    /// BadRow names the first bad row, from 1 on and 0 for the header, and its first bad field. OutOfMemory says that a
    /// growth was refused.
    pub fn finish(&mut self) -> Result<Vec<Row>, ReplayFault>
        ensures ok { IfOk result (λ last. (text : List ℕ) → (rows : List Row) → HasRead self.old text rows
            → rows_of text ≡ Ok (rows ++ last.items)) }
        ensures err { IfErr result (λ fault. (text : List ℕ) → (rows : List Row) → HasRead self.old text rows
            → IsFaultOf (rows_of text) fault) }
    {
        if self.number == 0 {
            return rows_of_text(self.alloc, &self.text[self.start..]);
        }
        // A byte order mark would be passed over at the front of a text, and behind a line feed it isn't.
        let front = self.start - 1;
        put_line_feed(&mut self.text, front);
        rows_from_text(self.alloc, &self.text[front..], self.number)
    }

    // The rows of the text that has been fed: those that `next` gives, and those that are left.
    pub(crate) fn all_rows(&mut self) -> Result<Vec<Row>, ReplayFault>
        ensures ok { IfOk result (λ rows. (text : List ℕ) → HasRead self.old text [] → rows_of text ≡ Ok rows.items) }
        ensures err { IfErr result (λ fault. (text : List ℕ) → HasRead self.old text [] → IsFaultOf (rows_of text) fault) }
    {
        let mut rows = Vec::new(self.alloc);
        while let Some(row) = self.next() {
            // The prover has to meet the module of this type here.
            let _target = row.target;
            if rows.push(row).is_err() {
                return Err(ReplayFault::OutOfMemory);
            }
        }
        let last = self.finish()?;
        if rows.extend_from_slice(last.as_slice()).is_err() {
            return Err(ReplayFault::OutOfMemory);
        }
        Ok(rows)
    }
}
