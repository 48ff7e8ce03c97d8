//! The entries of a history as lists of C's structs.

ghost use Rattle.std.specs.Prelude.{◌≡◌, ◌++◌, List, length, map, Ok, OnOk, IfOk, IfErr};
ghost use Rattle.dn_types.specs.declared.entry.Entry.{Entry as EntryValue};
ghost use Rattle.dn_files.specs.Reading.{IsFaultOf};
ghost use Rattle.dn_history.specs.HistoryFile.{history_in};
ghost use Rattle.hingetulip_c.specs.EntryRecords.{line_of};
ghost use Rattle.hingetulip_c.specs.Entries.{IsHistory, list_place, lists_in, nothing, sizes, with_entries, with_entry};
ghost use Rattle.hingetulip_c.specs.Lists.{c_delivery, c_flow, deliveries_of, flows_of};

use crate::copy::{delivery_of, flow_of};
use crate::entry_records::{
    call_number, call_packet, list_count, refusal, reply_number, told_fate,
};
use crate::records::{CDelivery, CEntry, CFlow, CHistory};
use dn_config::print_command;
use dn_files::ReplayFault;
use dn_history::EntryReader;
use dn_types::{Call, Delivery, Entry, FlowStatus, Reply, Rule};
use std::alloc::{AllocError, Global};

/// The entries that were read so far, and the lists of what they name.
#[derive(Drop)]
pub(crate) struct EntryLists {
    pub(crate) entries: Vec<CEntry>,
    pub(crate) lines: Vec<u8>,
    pub(crate) deliveries: Vec<CDelivery>,
    pub(crate) flows: Vec<CFlow>,
}

/// Adds the line of a call, and returns how many bytes it has.
fn add_line(alloc: Global, lines: &mut Vec<u8>, call: &Call) -> Result<u64, AllocError>
    ensures { IfOk result (λ size. (lines.new.items ≡ lines.old.items ++ line_of call.now) × (size ≡ length (line_of call.now))) }
{
    match call {
        Call::Configure(command) => {
            let text = print_command(alloc, command)?;
            let line = text.as_bytes();
            lines.extend_from_slice(line)?;
            Ok(line.len() as u64)
        }
        _ => Ok(0),
    }
}

/// Deliveries as C reads them.
fn c_deliveries(alloc: Global, list: &[Delivery]) -> Result<Vec<CDelivery>, AllocError>
    ensures { IfOk result (λ made. made.items ≡ map c_delivery list.now) }
{
    list.iter()
        .map(|delivery| delivery_of(delivery))
        .collect(alloc)
}

/// The states of flows as C reads them.
fn c_flows(alloc: Global, list: &[FlowStatus]) -> Result<Vec<CFlow>, AllocError>
    ensures { IfOk result (λ made. made.items ≡ map c_flow list.now) }
{
    list.iter().map(|flow| flow_of(flow)).collect(alloc)
}

/// Adds the deliveries of a reply.
fn add_deliveries(alloc: Global, list: &mut Vec<CDelivery>, reply: &Reply) -> Result<(), AllocError>
    ensures { OnOk result (list.new.items ≡ list.old.items ++ deliveries_of reply.now) }
{
    match reply {
        Reply::Delivered { at: _, list: given } => {
            let made = c_deliveries(alloc, given.as_slice())?;
            list.extend_from_slice(made.as_slice())?;
            Ok(())
        }
        _ => Ok(()),
    }
}

/// Adds the states of flows of a reply.
fn add_flows(alloc: Global, list: &mut Vec<CFlow>, reply: &Reply) -> Result<(), AllocError>
    ensures { OnOk result (list.new.items ≡ list.old.items ++ flows_of reply.now) }
{
    match reply {
        Reply::Status { list: given } => {
            let made = c_flows(alloc, given.as_slice())?;
            list.extend_from_slice(made.as_slice())?;
            Ok(())
        }
        _ => Ok(()),
    }
}

impl EntryLists {
    fn new(alloc: Global) -> EntryLists
        ensures { lists_in result ≡ nothing }
    {
        EntryLists {
            entries: Vec::new(alloc),
            lines: Vec::new(alloc),
            deliveries: Vec::new(alloc),
            flows: Vec::new(alloc),
        }
    }

    /// Where the list of a reply begins.
    fn list_place(&self, reply: &Reply) -> u64
        ensures { result ≡ list_place (lists_in self.now) reply.now }
    {
        match reply {
            Reply::Status { list: _ } => self.flows.len() as u64,
            _ => self.deliveries.len() as u64,
        }
    }

    /// Adds an entry. After an error a part of what it names may be there.
    fn add(&mut self, alloc: Global, entry: &Entry) -> Result<(), AllocError>
        ensures { OnOk result (lists_in self.new ≡ with_entry (lists_in self.old) entry.now) }
    {
        let line = self.lines.len() as u64;
        let first = self.list_place(&entry.reply);
        let size = add_line(alloc, &mut self.lines, &entry.call)?;
        add_deliveries(alloc, &mut self.deliveries, &entry.reply)?;
        add_flows(alloc, &mut self.flows, &entry.reply)?;
        self.entries.push(CEntry {
            packet: call_packet(&entry.call),
            fate: told_fate(&entry.reply),
            caller: entry.caller as u64,
            line,
            size,
            first,
            count: list_count(&entry.reply),
            status: refusal(&entry.reply),
            call: call_number(&entry.call),
            reply: reply_number(&entry.reply),
            reserved: 0,
        })?;
        Ok(())
    }

    /// How long the lists are, of a history by this rule.
    pub(crate) fn sizes(&self, rule: Rule) -> CHistory
        ensures { result ≡ sizes rule (lists_in self.now) }
    {
        let rule = match rule {
            Rule::Ordered => 0,
            Rule::Free => 1,
        };
        CHistory {
            entries: self.entries.len() as u64,
            bytes: self.lines.len() as u64,
            deliveries: self.deliveries.len() as u64,
            flows: self.flows.len() as u64,
            rule,
            reserved: 0,
        }
    }
}

/// The lists of the entries that a reader has left.
fn lists_left(alloc: Global, reader: &mut EntryReader<'_>) -> Result<EntryLists, ReplayFault>
    ensures ok { IfOk result (λ lists. (entries : List EntryValue) × (reader.old.entries ≡ Ok entries)
        × (lists_in lists ≡ with_entries nothing entries)) }
    ensures rule { reader.new.rule ≡ reader.old.rule }
    ensures err { IfErr result (λ fault. IsFaultOf reader.old.entries fault) }
{
    let mut lists = EntryLists::new(alloc);
    loop {
        match reader.next() {
            Ok(Some(entry)) => match lists.add(alloc, &entry) {
                Ok(()) => {}
                Err(_) => return Err(ReplayFault::OutOfMemory),
            },
            Ok(None) => return Ok(lists),
            Err(fault) => return Err(fault),
        }
    }
}

/// The rule and the lists of a history's text.
#[tactic(auto, using(crate::proofs::EntryLists::is_history))]
pub(crate) fn lists_of_text(alloc: Global, text: &[u8]) -> Result<(Rule, EntryLists), ReplayFault>
    ensures ok { IfOk result (λ read. IsHistory text.now (sizes read.0 (lists_in read.1)) (lists_in read.1)) }
    ensures err { IfErr result (λ fault. IsFaultOf (history_in text.now) fault) }
{
    let mut reader = match EntryReader::new(alloc, text) {
        Ok(reader) => reader,
        Err(fault) => return Err(fault),
    };
    match lists_left(alloc, &mut reader) {
        Ok(lists) => Ok((reader.rule(), lists)),
        Err(fault) => Err(fault),
    }
}
