ghost use Rattle.std.specs.Prelude.{◌≡◌, ◌<◌, ◌++◌, All, false, map, OnOk, IfOk, IfErr};
ghost use Rattle.std.specs.Io.KnownBytes.{Appends};
ghost use Rattle.dn_records.specs.Records.{text_of};
ghost use Rattle.dn_replay.specs.Report.{line_fields, report};
ghost use Rattle.dn_files.specs.Writing.{IsUnwritten};
ghost use Rattle.dn_files.specs.declared.source.Source.TheVariants.{Report};

use crate::report::line::ReportLine;
use crate::report::line_text::{LINE, add_header, add_line};
use crate::report::order::lines_of_history;
use dn_files::{ReplayFault, Source, write_text};
use dn_records::Outlet;
use dn_types::Entry;
use std::alloc::{AllocError, Global};

// Room for a line. A text with longer lines grows.
const LINE_LEN: usize = 64;

/// Adds lines.
fn add_lines(text: &mut Vec<u8>, lines: &[ReportLine]) -> Result<(), AllocError>
    ensures { OnOk result (text.new.items ≡ text.old.items ++ text_of (map line_fields lines.now)) }
{
    for line in lines {
        text.reserve(LINE)?;
        add_line(text, line);
    }
    Ok(())
}

/// The report of a history with n callers.
fn report_text(alloc: Global, n: usize, entries: &[Entry]) -> Result<Vec<u8>, AllocError>
    requires { All (λ e. e.caller < n) entries.now }
    ensures { IfOk result (λ text. text.items ≡ report n entries.now) }
{
    let mut lines = lines_of_history(alloc, n, entries)?;
    lines.sort()?;
    let count = lines.outs.len().saturating_add(lines.others.len());
    let room = count.saturating_mul(LINE_LEN).saturating_add(LINE);
    let mut text = Vec::with_capacity(alloc, room)?;
    add_header(&mut text);
    add_lines(&mut text, lines.outs.as_slice())?;
    add_lines(&mut text, lines.others.as_slice())?;
    Ok(text)
}

/// Writes the report of a history with n callers. The text is built whole before it is written.
pub fn write_report<O: Outlet>(
    alloc: Global,
    n: usize,
    entries: &[Entry],
    out: &mut O,
) -> Result<(), ReplayFault>
    requires callers { All (λ e. e.caller < n) entries.now }
    requires sound { O.has_failed out.old ≡ false }
    ensures ok { OnOk result (Appends (O.contents out.old) (O.contents out.new) (report n entries.now)) }
    ensures sound { OnOk result (O.has_failed out.new ≡ false) }

    // Before a failed write a part of the report was written, and before a want of memory nothing.
    ensures err { IfErr result (λ fault. IsUnwritten Report (report n entries.now)
        (O.contents out.old) (O.contents out.new) (O.has_failed out.new) fault) }
{
    match report_text(alloc, n, entries) {
        Ok(text) => write_text(out, Source::Report, text.as_slice()),
        Err(_) => Err(ReplayFault::OutOfMemory),
    }
}
