//! A history file that is written in parts, as entries come.
ghost use Rattle.std.specs.Prelude.{◌≡◌, ◌++◌, false, length, OnOk, IfOk, IfErr};
ghost use Rattle.std.specs.Io.KnownBytes.{Appends};
ghost use Rattle.dn_history.specs.HistoryText.{part_text, history_front, history_end, history_text};
ghost use Rattle.dn_files.specs.Writing.{IsUnwritten};
ghost use Rattle.dn_files.specs.declared.source.Source.TheVariants.{History};

use crate::write::history::{write_end, write_entries, write_header};
use dn_files::{ReplayFault, Source, write_text};
use dn_records::{Outlet, RecordWriter};
use dn_types::Entry;
use std::alloc::{AllocError, Global};

/// The text of a history file's front.
fn front_text(alloc: Global) -> Result<Vec<u8>, AllocError>
    ensures { IfOk result (λ text. text.items ≡ history_front) }
{
    let mut writer = RecordWriter::new(alloc);
    write_header(&mut writer)?;
    Ok(writer.into_text())
}

/// The text of some entries in a history file.
fn part_text(alloc: Global, entries: &[Entry]) -> Result<Vec<u8>, AllocError>
    ensures { IfOk result (λ text. text.items ≡ part_text entries.now) }
{
    let mut writer = RecordWriter::new(alloc);
    write_entries(alloc, &mut writer, entries)?;
    Ok(writer.into_text())
}

/// The text of the end of a history file of so many entries.
fn end_text(alloc: Global, count: usize) -> Result<Vec<u8>, AllocError>
    ensures { IfOk result (λ text. text.items ≡ history_end count) }
{
    let mut writer = RecordWriter::new(alloc);
    write_end(&mut writer, count)?;
    Ok(writer.into_text())
}

/// Writes the front of a history file.
///
/// It returns `OutOfMemory` if memory was refused, and then has written nothing, and `Write(History)` if a write failed.
pub fn write_history_front<O: Outlet>(alloc: Global, out: &mut O) -> Result<(), ReplayFault>
    requires { O.has_failed out.old ≡ false }
    ensures ok { OnOk result (Appends (O.contents out.old) (O.contents out.new) history_front) }
    ensures sound { OnOk result (O.has_failed out.new ≡ false) }
    ensures err { IfErr result (λ fault. IsUnwritten History history_front (O.contents out.old) (O.contents out.new) (O.has_failed out.new) fault) }
{
    match front_text(alloc) {
        Ok(front) => write_text(out, Source::History, front.as_slice()),
        Err(_) => Err(ReplayFault::OutOfMemory),
    }
}

/// Writes the entries that come next in a history file.
///
/// Memory is taken for their text alone. It returns `OutOfMemory` if memory was refused, and then has written nothing, and
/// `Write(History)` if a write failed.
pub fn write_history_part<O: Outlet>(
    alloc: Global,
    entries: &[Entry],
    out: &mut O,
) -> Result<(), ReplayFault>
    requires { O.has_failed out.old ≡ false }
    ensures ok { OnOk result (Appends (O.contents out.old) (O.contents out.new) (part_text entries.now)) }
    ensures sound { OnOk result (O.has_failed out.new ≡ false) }
    ensures err { IfErr result (λ fault. IsUnwritten History (part_text entries.now) (O.contents out.old) (O.contents out.new) (O.has_failed out.new) fault) }
{
    match part_text(alloc, entries) {
        Ok(part) => write_text(out, Source::History, part.as_slice()),
        Err(_) => Err(ReplayFault::OutOfMemory),
    }
}

/// Writes the end of a history file of so many entries in all.
///
/// It returns `OutOfMemory` if memory was refused, and then has written nothing, and `Write(History)` if a write failed.
pub fn write_history_end<O: Outlet>(
    alloc: Global,
    count: usize,
    out: &mut O,
) -> Result<(), ReplayFault>
    requires { O.has_failed out.old ≡ false }
    ensures ok { OnOk result (Appends (O.contents out.old) (O.contents out.new) (history_end count)) }
    ensures sound { OnOk result (O.has_failed out.new ≡ false) }
    ensures err { IfErr result (λ fault. IsUnwritten History (history_end count) (O.contents out.old) (O.contents out.new) (O.has_failed out.new) fault) }
{
    match end_text(alloc, count) {
        Ok(end) => write_text(out, Source::History, end.as_slice()),
        Err(_) => Err(ReplayFault::OutOfMemory),
    }
}

/// A law: a front, entries and an end are the file that `write_history` writes of these entries.
///
/// The text of two parts is the text of the entries of both. So a file whose entries came in parts is the file of them all.
pub fn parts_are_a_file(first: &[Entry], second: &[Entry])
    ensures file { (history_front ++ part_text first.now) ++ history_end (length first.now) ≡ history_text first.now }
    ensures joins { part_text first.now ++ part_text second.now ≡ part_text (first.now ++ second.now) }
{}
