ghost use Rattle.std.specs.Prelude.{◌≡◌, ◌<◌, ◌+◌, ◌^◌, ◌++◌, All, Some, length, filter, option_to_list, slice_index, OnOk, IfOk};
ghost use Rattle.dn_types.specs.declared.entry.Entry.{Entry};
ghost use Rattle.dn_replay.specs.Report.{deliveries, entry_line, sorted_by, is_other, is_out, is_submit, submit_lines, outs_in_order, queued_line, delivery_of_packet, reply_line, row_number};
ghost use Rattle.dn_replay.specs.Tables.{IsTableOf, counts_after};

use crate::report::delivered::{delivery_of, delivery_table};
use crate::report::line::ReportLine;
use dn_types::{Call, Delivery, Entry, Reply};
use std::alloc::{AllocError, Global};

/// The lines of a report, in the order of the Submits or of the report.
#[derive(Drop)]
pub(crate) struct ReportLines {
    /// Those of delivered packets.
    pub(crate) outs: Vec<ReportLine>,
    pub(crate) others: Vec<ReportLine>,
}

impl ReportLines {
    /// Adds a line, if there is one.
    fn add(&mut self, line: Option<ReportLine>) -> Result<(), AllocError>
        ensures outs { OnOk result
            (self.new.outs.items ≡ self.old.outs.items ++ filter is_out (option_to_list line)) }
        ensures others { OnOk result
            (self.new.others.items ≡ self.old.others.items ++ filter is_other (option_to_list line)) }
    {
        match line {
            None => {}
            Some(line) if line.is_out() => self.outs.push(line)?,
            Some(line) => self.others.push(line)?,
        }
        Ok(())
    }

    /// Brings the lines into the order of a report.
    pub(crate) fn sort(&mut self) -> Result<(), AllocError>
        ensures outs { OnOk result (self.new.outs.items ≡ outs_in_order self.old.outs.items) }
        ensures others { OnOk result (self.new.others.items ≡ sorted_by row_number self.old.others.items) }
    {
        // The sorts are stable. In the history of one caller the first finds the packets in order.
        self.outs.sort_by_key(|line| line.packet())?;
        self.outs.sort_by_key(|line| line.due())?;
        self.others.sort_by_key(|line| line.row())?;
        Ok(())
    }
}

/// The line of an accepted packet.
fn queued(row: u128, at: u64, flow: usize, packet: u64, given: Option<Delivery>) -> ReportLine
    ensures { result ≡ queued_line row at flow packet given }
{
    match given {
        Some(delivery) => ReportLine::Out {
            row,
            flow,
            packet,
            at,
            start: delivery.start,
            due: delivery.due,
        },
        None => ReportLine::Held {
            row,
            flow,
            packet,
            at,
        },
    }
}

/// The line of a Submit of this row by its reply.
fn line_of_reply(
    row: u128,
    table: &[Option<Delivery>],
    entries: &[Entry],
    reply: &Reply,
) -> Option<ReportLine>
    requires { IsTableOf table.now (deliveries entries.now) }
    ensures { result ≡ reply_line row (deliveries entries.now) reply.now }
{
    match reply {
        Reply::Queued { at, flow, packet } => {
            let given = delivery_of(table, entries, *packet);
            Some(queued(row, *at, *flow, *packet, given))
        }
        Reply::Lost { at, flow } => Some(ReportLine::Lost {
            row,
            flow: *flow,
            at: *at,
        }),
        Reply::Full { at, flow } => Some(ReportLine::Full {
            row,
            flow: *flow,
            at: *at,
        }),
        Reply::NoTarget { at } => Some(ReportLine::NoTarget { row, at: *at }),
        _ => None,
    }
}

pub(crate) fn is_submit(call: &Call) -> bool
    ensures { result ≡ is_submit call.now }
{
    matches!(call, Call::Submit { .. })
}

/// The line of the next entry, if it is a Submit.
///
/// `counts` has the count of each caller's Submits so far.
fn line_of_entry(
    counts: &mut Vec<u64>,
    table: &[Option<Delivery>],
    entries: &[Entry],
    entry: &Entry,
) -> Option<ReportLine>
    requires caller { entry.now.caller < length counts.old.items }
    requires room { slice_index counts.old.items entry.now.caller + 1 < 2 ^ 64 }
    requires table { IsTableOf table.now (deliveries entries.now) }
    ensures line { result ≡ entry_line (length counts.old.items) (deliveries entries.now)
        (slice_index counts.old.items entry.now.caller) entry.now }
    ensures len { length counts.new.items ≡ length counts.old.items }
    ensures counts { counts.new.items ≡ counts_after counts.old.items entry.now }
{
    if !is_submit(&entry.call) {
        return None;
    }
    let before = counts[entry.caller];
    counts[entry.caller] = before + 1;
    let row = entry.caller as u128 + u128::from(before) * counts.len() as u128 + 1;
    line_of_reply(row, table, entries, &entry.reply)
}

/// The lines of a history, as its Submits follow each other.
pub(crate) fn lines_of_history(
    alloc: Global,
    n: usize,
    entries: &[Entry],
) -> Result<ReportLines, AllocError>
    requires { All (λ e. e.caller < n) entries.now }
    ensures outs { IfOk result (λ lines. lines.outs.items ≡ filter is_out (submit_lines n entries.now)) }
    ensures others { IfOk result (λ lines. lines.others.items ≡ filter is_other (submit_lines n entries.now)) }
{
    let table = delivery_table(alloc, entries)?;
    let mut counts = vec![in alloc; 0u64; n]?;
    let mut lines = ReportLines {
        outs: Vec::new(alloc),
        others: Vec::new(alloc),
    };
    for entry in entries {
        let line = line_of_entry(&mut counts, table.as_slice(), entries, entry);
        lines.add(line)?;
    }
    Ok(lines)
}
