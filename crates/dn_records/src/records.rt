ghost use Rattle.std.specs.Prelude.{◌≡◌, ◌<◌, true, [], length, IfOk, OnErr};
ghost use Rattle.csv.specs.Records.{fields_of};
ghost use Rattle.csv.specs.declared.parser.State.TheVariants as st;
ghost use Rattle.dn_records.specs.Reading.{records_after};
ghost use Rattle.dn_records.specs.Records.{records_of};
ghost use Rattle.dn_records.specs.PlainLines.{StandsBehindLine};
ghost use Rattle.dn_records.specs.Steps.{TakesFront};

use crate::first_record::read_first;
use crate::plain_line::record_at_front;
use crate::state::is_line_end;
use csv::ByteRecord;
use std::alloc::{AllocError, Global};
use std::marker::Model;

/// A text from its first record on: behind an end of line or a byte order mark at its front.
fn line_start(text: &[u8]) -> &[u8]
    ensures { records_of text.now ≡ records_after st.StartRecord result.now }
{
    let [first, rest @ ..] = text else {
        return text;
    };
    if is_line_end(*first) {
        return rest;
    }
    if let Some(rest) = text.strip_prefix(b"\xEF\xBB\xBF") {
        return rest;
    }
    text
}

/// The records of a text that are left. Its value is the list of them.
#[derive(Drop)]
pub struct Records<'a> {
    alloc: Global,
    // What is left of the text, with the end of the line before it: a byte order mark would be passed over at the front
    // of a text, and behind a line it isn't.
    text: &'a [u8],
}

impl<'a> Model for Records<'a> {
    ghost use Rattle.std.specs.Prelude.{List};
    ghost use Rattle.dn_records.specs.Records.{Fields, records_of};

    ghost Value = { List Fields };

    ghost view = { λ s. records_of s.text.now };
}

impl<'a> Records<'a> {
    /// The records of a text, from the first on.
    pub fn new(alloc: Global, text: &'a [u8]) -> Records<'a>
        ensures { result ≡ records_of text.now }
    {
        Records { alloc, text }
    }

    /// The text that is left.
    pub fn lines(&self) -> &'a [u8]
        ensures { self.now ≡ records_after st.StartRecord result.now }
    {
        line_start(self.text)
    }

    /// Leaves of a text what stands behind a line of it.
    pub fn go_on(&mut self, text: &'a [u8], rest: &'a [u8])
        requires { StandsBehindLine text.now rest.now }
        ensures { self.new ≡ records_after st.StartRecord rest.now }
    {
        self.text = &text[text.len() - rest.len() - 1..];
    }

    // Leaves no record.
    fn end(&mut self)
        ensures { self.new ≡ [] }
    {
        self.text = &[];
    }

    // As `read`, byte by byte. The text is what is left.
    fn read_by_steps(
        &mut self,
        text: &'a [u8],
        most: usize,
        fields: &mut ByteRecord,
    ) -> Result<bool, AllocError>
        requires { self.old ≡ records_after st.StartRecord text.now }
        ensures ok { IfOk result (λ found. TakesFront most self.old self.new found (fields_of fields.new)) }
        ensures shorter { IfOk result (λ found. found ≡ true → length self.new < length self.old) }
        ensures err { OnErr result (self.new ≡ []) }
    {
        match read_first(self.alloc, text, most, fields) {
            Ok(Some(left)) => {
                self.text = left;
                Ok(true)
            }
            Ok(None) => Ok(false),
            Err(error) => {
                self.end();
                Err(error)
            }
        }
    }

    /// Reads the next record's first fields into `fields`, at most so many, and returns whether there was a record.
    ///
    /// The others take no memory. A line that is written plainly, without quotes, is read by its commas. After an error
    /// no record is left.
    pub fn read(&mut self, most: usize, fields: &mut ByteRecord) -> Result<bool, AllocError>
        ensures ok { IfOk result (λ found. TakesFront most self.old self.new found (fields_of fields.new)) }
        ensures shorter { IfOk result (λ found. found ≡ true → length self.new < length self.old) }
        ensures err { OnErr result (self.new ≡ []) }
    {
        let text = self.lines();
        match record_at_front(text, most, fields) {
            Ok(Some(rest)) => {
                self.go_on(text, rest);
                Ok(true)
            }
            Ok(None) => self.read_by_steps(text, most, fields),
            Err(error) => {
                self.end();
                Err(error)
            }
        }
    }
}
