ghost use Rattle.std.specs.Prelude.{◌≡◌, List, [], ◌∷◌, ◌++◌, length, IfOk, OnOk};
ghost use Rattle.dn_types.specs.Replies.{reply};
ghost use Rattle.dn_types.specs.declared.call.Call.{Call as CallValue};
ghost use Rattle.dn_types.specs.declared.rule.Rule.TheVariants.{Ordered};
ghost use Rattle.dn_records.specs.Records.{line_of, text_of};
ghost use Rattle.dn_history.specs.HistoryText.{end_record, entry_records};
ghost use Rattle.dn_history.specs.Ranges.{IsEntry};
ghost use Rattle.dn_shaper.specs.Shaper.{StandsAfter};
ghost use Rattle.dn_live.specs.Session.{answer, bad_record, calls_after, next_record, tail_answer};
ghost use Rattle.dn_live.specs.Transcripts.{IsTyped};

use crate::asked::Asked;
use crate::bad_line::BadLine;
use crate::cause::Cause;
use dn_files::number;
use dn_history::{entry_in_range, write_end, write_entry};
use dn_records::{Field, RecordWriter};
use dn_shaper::Shaper;
use dn_types::{Call, Entry};
use std::alloc::{AllocError, Global};

// Room for the records of an entry. A text with longer ones grows.
const ENTRY_LEN: usize = 128;

/// Adds the remark on a bad line.
fn write_bad(
    alloc: Global,
    writer: &mut RecordWriter,
    line: u64,
    bad: BadLine,
) -> Result<(), AllocError>
    ensures { OnOk result (writer.new.text ≡ writer.old.text ++ line_of (bad_record line bad)) }
{
    let cause = bad.cause.text(alloc)?;
    writer.write(&[
        Field::Text("#"),
        Field::Text("bad"),
        number(line),
        number(bad.field),
        Field::Text(cause.as_str()),
    ])
}

/// The text of the remark on a bad line.
#[tactic(auto, unfolding(dn_records::specs::Records::text_of))]
fn bad_text(alloc: Global, line: u64, bad: BadLine) -> Result<Vec<u8>, AllocError>
    ensures { IfOk result (λ text. text.items ≡ text_of (bad_record line bad ∷ [])) }
{
    let mut writer = RecordWriter::new(alloc);
    write_bad(alloc, &mut writer, line, bad)?;
    Ok(writer.into_text())
}

/// Adds the remark on when to ask next.
fn write_next(writer: &mut RecordWriter, moment: Option<u64>) -> Result<(), AllocError>
    ensures { OnOk result (writer.new.text ≡ writer.old.text ++ line_of (next_record moment)) }
{
    match moment {
        Some(moment) => writer.write(&[Field::Text("#"), Field::Text("next"), number(moment)]),
        None => writer.write(&[Field::Text("#"), Field::Text("next")]),
    }
}

/// The text of the remark on when to ask next.
#[tactic(auto, unfolding(dn_records::specs::Records::text_of))]
fn next_text(alloc: Global, moment: Option<u64>) -> Result<Vec<u8>, AllocError>
    ensures { IfOk result (λ text. text.items ≡ text_of (next_record moment ∷ [])) }
{
    let mut writer = RecordWriter::new(alloc);
    write_next(&mut writer, moment)?;
    Ok(writer.into_text())
}

/// Makes a call, and answers the text of its entry.
fn call_text(
    alloc: Global,
    shaper: &mut Shaper,
    caller: usize,
    call: Call,
) -> Result<Vec<u8>, AllocError>
    ensures { IfOk result (λ text. (calls : List CallValue) → StandsAfter Ordered shaper.old calls →
        StandsAfter Ordered shaper.new (call ∷ calls)
        × (text.items ≡ text_of (entry_records (record { caller = caller; call = call; reply = reply Ordered calls call })))
        × IsEntry (record { caller = caller; call = call; reply = reply Ordered calls call })) }
{
    let reply = shaper.apply(&call)?;
    let mut writer = RecordWriter::new(alloc);
    writer.reserve(ENTRY_LEN)?;
    let entry = Entry {
        caller,
        call,
        reply,
    };
    entry_in_range(&entry);
    write_entry(alloc, &mut writer, &entry)?;
    Ok(writer.into_text())
}

/// Makes the call that a line asks for, if it asks for one, and answers the text of the answer.
#[tactic(auto, unfolding(dn_records::specs::Records::text_of))]
pub(crate) fn answer_text(
    alloc: Global,
    shaper: &mut Shaper,
    line: u64,
    asked: Asked,
) -> Result<Vec<u8>, AllocError>
    ensures { IfOk result (λ text. (calls : List CallValue) → StandsAfter Ordered shaper.old calls →
        StandsAfter Ordered shaper.new (calls_after calls asked) × (text.items ≡ text_of (answer line calls asked)) × IsTyped calls asked) }
{
    match asked {
        Asked::Nothing => Ok(Vec::new(alloc)),
        Asked::Next => next_text(alloc, shaper.wake()),
        Asked::Calls(caller, call) => call_text(alloc, shaper, caller, call),
        Asked::Bad(bad) => bad_text(alloc, line, bad),
    }
}

/// Adds the remark on what stands behind the last line feed, if something does.
#[tactic(auto, unfolding(dn_records::specs::Records::text_of))]
fn write_tail(
    alloc: Global,
    writer: &mut RecordWriter,
    line: u64,
    tail: &[u8],
) -> Result<(), AllocError>
    ensures { OnOk result (writer.new.text ≡ writer.old.text ++ text_of (tail_answer line tail.now)) }
{
    match tail {
        [] => Ok(()),
        [_, ..] => write_bad(
            alloc,
            writer,
            line,
            BadLine {
                field: 0,
                cause: Cause::NoLineFeed,
            },
        ),
    }
}

/// The text that ends a session whose input has this tail behind its last line feed.
pub(crate) fn closing_text(
    alloc: Global,
    line: u64,
    tail: &[u8],
    calls: usize,
) -> Result<Vec<u8>, AllocError>
    ensures { IfOk result (λ text. text.items ≡ text_of (tail_answer line tail.now ++ end_record calls ∷ [])) }
{
    let mut writer = RecordWriter::new(alloc);
    write_tail(alloc, &mut writer, line, tail)?;
    write_end(&mut writer, calls)?;
    Ok(writer.into_text())
}
