ghost use Rattle.std.specs.Prelude.{◌≡◌, ℕ, List, [], true, IfOk, OnOk, MatchOption};
ghost use Rattle.csv.specs.Machine.{field_after, fields_after};
ghost use Rattle.csv.specs.Records.{fields_of};
ghost use Rattle.csv.specs.declared.parser.State.TheVariants as st;
ghost use Rattle.dn_records.specs.Reading.{records_after};
ghost use Rattle.dn_records.specs.Records.{Fields, records_of};
ghost use Rattle.dn_records.specs.Steps.{Holds, TakesFront, csv_step};

use crate::state::{State, Step};
use csv::ByteRecord;
use std::alloc::{AllocError, Global};

/// Takes a byte into the field at hand, or that field into the record, which takes at most so many.
fn take_byte(
    step: Step,
    byte: u8,
    most: usize,
    fields: &mut ByteRecord,
    field: &mut Vec<u8>,
) -> Result<(), AllocError>
    ensures { (all : Fields) (last : List ℕ) → Holds most all last fields.old field.old.items
        → OnOk result (Holds most (fields_after (csv_step byte step).1 all last) (field_after (csv_step byte step).1 byte last)
        fields.new field.new.items) }
{
    if fields.len() >= most {
        return Ok(());
    }
    match step {
        Step::Skip(_) => Ok(()),
        Step::Copy(_) => {
            field.push(byte)?;
            Ok(())
        }
        Step::EndField | Step::EndRecord => {
            fields.push_field(field.as_slice())?;
            field.clear();
            Ok(())
        }
    }
}

/// Reads the front of a text's first record into `fields`, at most so many, and returns what is left behind the record.
///
/// That begins with the end of the record's line. None if there is no record.
pub(crate) fn read_first<'a>(
    alloc: Global,
    text: &'a [u8],
    most: usize,
    fields: &mut ByteRecord,
) -> Result<Option<&'a [u8]>, AllocError>
    ensures { IfOk result (λ found. MatchOption found (records_after st.StartRecord text.now ≡ [])
        (λ left. TakesFront most (records_after st.StartRecord text.now) (records_of left.now) true (fields_of fields.new))) }
{
    fields.clear();
    let mut field = Vec::new(alloc);
    let mut state = State::StartRecord;
    let mut left = text;
    loop {
        let [byte, rest @ ..] = left else {
            if !state.ends_at_end() {
                return Ok(None);
            }
            take_byte(Step::EndRecord, b'\n', most, fields, &mut field)?;
            return Ok(Some(left));
        };
        let step = state.step(*byte);
        take_byte(step, *byte, most, fields, &mut field)?;
        let Some(next) = step.leads() else {
            return Ok(Some(left));
        };
        state = next;
        left = rest;
    }
}
