ghost use Rattle.std.specs.Prelude.{◌≡◌, ◌<◌, true, List, [], length, IfOk, OnErr};
ghost use Rattle.csv.specs.Records.{fields_of};
ghost use Rattle.dn_records.specs.Records.{AllFilled, Fields, HasNoMark, Takes, records_of, text_of};

use csv::{ByteRecord, Reader, ReaderBuilder};
use std::alloc::{AllocError, Global};
use std::marker::Model;

/// A reader of the CSV records of a text. Its value is the list of the records that are left.
#[derive(Drop)]
pub struct RecordReader<'a> {
    reader: Reader<&'a [u8]>,
    // The text has ended, or a read has failed.
    done: bool,
}

impl<'a> Model for RecordReader<'a> {
    ghost use Rattle.std.specs.Prelude.{◌≡◌, List, false};
    ghost use Rattle.dn_records.specs.Records.{Fields};

    ghost Value = { List Fields };

    ghost use Rattle.dn_records.specs.Reading.{records_left, IsReading};

    ghost view = { λ s. records_left s.done s.reader };

    ghost invariant = { λ s. s.done ≡ false → IsReading s.reader };
}

impl<'a> RecordReader<'a> {
    /// A reader of all records of `text`, the first one included, with csv's default delimiter and quotes.
    ///
    /// Empty lines are no records, and a byte order mark at the front is passed over.
    pub fn new(alloc: Global, text: &'a [u8]) -> RecordReader<'a>
        ensures records { result ≡ records_of text.now }

        // The text of records reads as those records.
        ensures reads_back { (rows : List Fields) → text.now ≡ text_of rows → AllFilled rows
            → HasNoMark text.now → result ≡ rows }
    {
        let reader = ReaderBuilder::new()
            .has_headers(false)
            .flexible(true)
            .from_reader(alloc, text);
        RecordReader {
            reader,
            done: false,
        }
    }

    /// Reads the next record into `row`, whose memory is used again, and returns whether there was one.
    ///
    /// After an error no record is left.
    pub fn read(&mut self, row: &mut ByteRecord) -> Result<bool, AllocError>
        ensures ok { IfOk result (λ found. Takes self.old self.new found (fields_of row.new)) }
        ensures shorter { IfOk result (λ found. found ≡ true → length self.new < length self.old) }
        ensures err { OnErr result (self.new ≡ []) }
    {
        if self.done {
            return Ok(false);
        }
        self.done = true;
        // csv names failures of the reader underneath too, and a slice has none.
        let Ok(found) = self.reader.read_byte_record(row) else {
            return Err(AllocError);
        };
        self.done = !found;
        Ok(found)
    }
}
