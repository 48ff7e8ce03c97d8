ghost use Rattle.std.specs.Prelude.{◌≡◌, ◌≤◌, ◌+◌, [], ◌++◌, length, OnOk, OnErr, IsOk};
ghost use Rattle.dn_records.specs.Records.{line_of};
ghost use Rattle.dn_records.specs.Writing.{record_of};

use crate::append::append_record;
use crate::field::Field;
use crate::line::Line;
use std::alloc::{AllocError, Global};
use std::marker::Model;

/// A writer of CSV records into a text in memory. Its value is the text so far with its room.
#[derive(Drop)]
pub struct RecordWriter {
    text: Vec<u8>,
}

impl Model for RecordWriter {
    ghost use Rattle.std.specs.Prelude.{◌-◌, length};
    ghost use Rattle.std.specs.Vec.{vec_capacity};
    ghost use Rattle.dn_records.specs.Writing.{Written};

    ghost Value = { Written };

    ghost view = { λ s. record {
      text = s.text.items;
      room = vec_capacity s.text - length s.text.items;
    } };
}

impl RecordWriter {
    /// A writer that has written nothing.
    pub fn new(alloc: Global) -> RecordWriter
        ensures empty { result.text ≡ [] }
    {
        RecordWriter {
            text: Vec::new(alloc),
        }
    }

    /// Makes room for `bytes` bytes more, so that lines of that length in all take no memory.
    pub fn reserve(&mut self, bytes: usize) -> Result<(), AllocError>
        ensures ok { OnOk result (bytes ≤ self.new.room) }
        ensures succeeds { bytes ≤ self.old.room → IsOk result }
        ensures keeps_text { self.new.text ≡ self.old.text }
        ensures keeps_room { self.old.room ≤ self.new.room }
    {
        self.text.reserve(bytes)
    }

    /// Adds the line of a record, or nothing where memory for it was refused.
    pub fn write(&mut self, fields: &[Field]) -> Result<(), AllocError>
        ensures ok { OnOk result
            (self.new.text ≡ self.old.text ++ line_of (record_of fields.now)) }
        ensures succeeds { length (line_of (record_of fields.now)) ≤ self.old.room → IsOk result }
        ensures room { OnOk result
            (self.old.room ≤ self.new.room + length (line_of (record_of fields.now))) }
        ensures err { OnErr result (self.new.text ≡ self.old.text) }
        ensures keeps_room { OnErr result (self.old.room ≤ self.new.room) }
    {
        let before = self.text.len();
        let outcome = append_record(&mut self.text, fields);
        if outcome.is_err() {
            self.text.truncate(before);
        }
        outcome
    }

    /// Adds a line that is made, or nothing where memory for it was refused.
    pub fn write_line(&mut self, line: &Line) -> Result<(), AllocError>
        ensures ok { OnOk result (self.new.text ≡ self.old.text ++ line.now) }
        ensures succeeds { length line.now ≤ self.old.room → IsOk result }
        ensures room { OnOk result (self.old.room ≤ self.new.room + length line.now) }
        ensures err { OnErr result (self.new.text ≡ self.old.text) }
        ensures keeps_room { OnErr result (self.old.room ≤ self.new.room) }
    {
        self.text.extend_from_slice(line.as_bytes())
    }

    /// How many bytes the text has.
    pub fn text_len(&self) -> usize
        ensures { result ≡ length self.now.text }
    {
        self.text.len()
    }

    /// The text of all records.
    pub fn into_text(self) -> Vec<u8>
        ensures text { result.items ≡ self.text }
    {
        self.text
    }
}
