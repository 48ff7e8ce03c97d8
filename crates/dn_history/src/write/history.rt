ghost use Rattle.std.specs.Prelude.{◌≡◌, ◌<◌, ◌++◌, Ok, false, flat_map, OnOk, IfOk, IfErr};
ghost use Rattle.std.specs.Io.KnownBytes.{Appends};
ghost use Rattle.std.specs.List.{All};
ghost use Rattle.dn_types.specs.declared.rule.Rule.TheVariants.{Ordered};
ghost use Rattle.dn_records.specs.Records.{line_of, text_of};
ghost use Rattle.dn_history.specs.HistoryFile.{history_in};
ghost use Rattle.dn_history.specs.HistoryText.{end_record, entry_records, history_header, history_text};
ghost use Rattle.dn_files.specs.Writing.{IsUnwritten};
ghost use Rattle.dn_files.specs.declared.source.Source.TheVariants.{History};

use crate::write::calls::write_call;
use crate::write::items::write_items;
use crate::write::ranges::entries_in_range;
use crate::write::replies::write_reply;
use dn_files::{ReplayFault, Source, number, write_text};
use dn_records::{Field, Outlet, RecordWriter};
use dn_types::Entry;
use std::alloc::{AllocError, Global};

// Room for the records of an entry. A text with longer ones grows.
const ENTRY_LEN: usize = 128;

/// Adds the record that names the format.
pub(crate) fn write_header(writer: &mut RecordWriter) -> Result<(), AllocError>
    ensures { OnOk result (writer.new.text ≡ writer.old.text ++ line_of history_header) }
{
    writer.write(&[Field::Text("dummynet-history"), Field::Text("3")])
}

/// Adds the records of an entry.
#[tactic(auto, using(crate::proofs::HistorySteps::entry_is))]
pub fn write_entry(
    alloc: Global,
    writer: &mut RecordWriter,
    entry: &Entry,
) -> Result<(), AllocError>
    ensures { OnOk result (writer.new.text ≡ writer.old.text ++ text_of (entry_records entry.now)) }
{
    write_call(alloc, writer, entry.caller, &entry.call)?;
    write_reply(writer, &entry.reply)?;
    write_items(writer, &entry.reply)
}

/// Adds the records of entries.
pub(crate) fn write_entries(
    alloc: Global,
    writer: &mut RecordWriter,
    entries: &[Entry],
) -> Result<(), AllocError>
    ensures { OnOk result (writer.new.text ≡ writer.old.text ++ text_of (flat_map entry_records entries.now)) }
{
    for entry in entries {
        write_entry(alloc, writer, entry)?;
    }
    Ok(())
}

/// Adds the last record.
pub fn write_end(writer: &mut RecordWriter, count: usize) -> Result<(), AllocError>
    ensures { OnOk result (writer.new.text ≡ writer.old.text ++ line_of (end_record count)) }
{
    writer.write(&[Field::Text("end"), number(count as u64)])
}

/// The text of a history file.
fn history_text(alloc: Global, entries: &[Entry]) -> Result<Vec<u8>, AllocError>
    ensures { IfOk result (λ text. text.items ≡ history_text entries.now) }
{
    let mut writer = RecordWriter::new(alloc);
    writer.reserve(entries.len().saturating_add(1).saturating_mul(ENTRY_LEN))?;
    write_header(&mut writer)?;
    write_entries(alloc, &mut writer, entries)?;
    write_end(&mut writer, entries.len())?;
    Ok(writer.into_text())
}

/// Writes the history file of some entries, lawful or not, in version 3 of the format.
///
/// The text is built whole before it is written; only memory bounds its length, and history files of more than 268,435,456
/// bytes are too long to be read. It returns `OutOfMemory` if memory was refused, and `Write(History)` if a write failed.
pub fn write_history<O: Outlet>(
    alloc: Global,
    entries: &[Entry],
    out: &mut O,
) -> Result<(), ReplayFault>
    requires { O.has_failed out.old ≡ false }
    ensures ok { OnOk result (Appends (O.contents out.old) (O.contents out.new) (history_text entries.now)) }
    ensures sound { OnOk result (O.has_failed out.new ≡ false) }

    // Before a failed write a part of the file was written, and before a want of memory nothing.
    ensures err { IfErr result (λ fault. IsUnwritten History (history_text entries.now)
        (O.contents out.old) (O.contents out.new) (O.has_failed out.new) fault) }

    // The file is read as these entries, where each is by one of 16 callers.
    ensures reads_back { All (λ entry. entry.caller < 16) entries.now
        → history_in (history_text entries.now) ≡ Ok (Ordered, entries.now) }
{
    entries_in_range(entries);
    match history_text(alloc, entries) {
        Ok(text) => write_text(out, Source::History, text.as_slice()),
        Err(_) => Err(ReplayFault::OutOfMemory),
    }
}
