ghost use Rattle.std.specs.Prelude.{◌≡◌, ◌<◌, ◌^◌, [], ◌∷◌, drop, IfOk};
ghost use Rattle.csv.specs.declared.parser.State.TheVariants as st;
ghost use Rattle.dn_records.specs.Reading.{records_after};
ghost use Rattle.dn_records.specs.Records.{records_of};
ghost use Rattle.dn_history.specs.HistoryParts.{AreRead};

use crate::history_version::HistoryVersion;
use crate::read::entries::next_entry;
use crate::read::numbered_records::NumberedRecords;
use csv::ByteRecord;
use dn_files::ReplayFault;
use dn_types::Entry;
use std::alloc::{AllocError, Global};

// Entries and records from this one on are left for the end of the text.
const MOST: u64 = 1 << 62;

// For how many entries room is made before the first of them, at most: those of a part of 65,536 bytes.
const ROOM: usize = 1024;

/// What was read of a text: its first entries, and what is left.
///
/// It has the count of entries that were given with these, the number of the record after them, and the text that is left.
#[derive(Drop)]
pub(crate) struct Batch<'a> {
    pub(crate) entries: Vec<Entry>,
    pub(crate) given: usize,
    pub(crate) number: u64,
    pub(crate) left: &'a [u8],
}

/// Reads the entries that a text has whole, behind the line feed at its front.
///
/// `given` entries were given before, and the number is that of its first record.
pub(crate) fn read_batch<'a>(
    alloc: Global,
    version: HistoryVersion,
    given: usize,
    number: u64,
    text: &'a [u8],
    fields: &mut ByteRecord,
) -> Result<Batch<'a>, AllocError>
    requires few { (given < 2 ^ 62) × (number < 2 ^ 62) }
    requires feed { text.now ≡ 10 ∷ drop 1 text.now }
    ensures read { IfOk result (λ batch.
        AreRead version given (record { number = number; records = records_of text.now })
        batch.entries.items batch.given
        (record { number = batch.number; records = records_after st.StartRecord batch.left.now })) }
    ensures few { IfOk result (λ batch. (batch.given < 2 ^ 62) × (batch.number < 2 ^ 62)) }
{
    let mut records = NumberedRecords::from(alloc, text, number);
    let mut batch = Batch {
        entries: Vec::with_capacity(alloc, ROOM.min(text.len() / 64))?,
        given,
        number,
        left: &text[1..],
    };
    loop {
        match next_entry(alloc, version, batch.given, &mut records, fields) {
            Ok(Some(entry)) => {
                let left = records.lines();
                if batch.given as u64 + 1 >= MOST || records.number() >= MOST {
                    return Ok(batch);
                }
                if batch.entries.push(entry).is_err() {
                    return Err(AllocError);
                }
                batch.given += 1;
                batch.number = records.number();
                batch.left = left;
            }
            Ok(None) => return Ok(batch),
            Err(ReplayFault::OutOfMemory) => return Err(AllocError),
            // What is bad, or not whole, is read at the end.
            Err(_) => return Ok(batch),
        }
    }
}
