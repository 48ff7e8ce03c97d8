ghost use Rattle.std.specs.Prelude.{◌≡◌, false, Ok, IfOk, IfErr};
ghost use Rattle.dn_history.specs.HistoryFaults.{IsHistoryFault};
ghost use Rattle.dn_history.specs.HistoryFile.{history_file, history_in};
ghost use Rattle.dn_files.specs.Reading.{IsFaultOf, IsRefusal, ReadsAs};
ghost use Rattle.dn_files.specs.declared.source.Source.TheVariants.{History};

use crate::read::entry_reader::EntryReader;
use dn_files::{ReplayFault, Source, read_input};
use dn_records::Inlet;
use dn_types::{Entry, Rule};
use std::alloc::Global;

/// The greatest length of a history file in bytes.
pub const HISTORY_LIMIT: usize = 268_435_456;

/// The entries that a reader has left.
fn entries_left(alloc: Global, reader: &mut EntryReader<'_>) -> Result<Vec<Entry>, ReplayFault>
    ensures ok { IfOk result (λ entries. reader.old.entries ≡ Ok entries.items) }
    ensures rule { reader.new.rule ≡ reader.old.rule }
    ensures err { IfErr result (λ fault. IsFaultOf reader.old.entries fault) }
{
    let mut entries = Vec::new(alloc);
    loop {
        match reader.next() {
            Ok(Some(entry)) => {
                if entries.push(entry).is_err() {
                    return Err(ReplayFault::OutOfMemory);
                }
            }
            Ok(None) => return Ok(entries),
            Err(fault) => return Err(fault),
        }
    }
}

/// The rule and the entries of a history's text.
fn history_of_text(alloc: Global, text: &[u8]) -> Result<(Rule, Vec<Entry>), ReplayFault>
    ensures ok { IfOk result (λ history. history_in text.now ≡ Ok (history.0, history.1.items)) }
    ensures err { IfErr result (λ fault. IsFaultOf (history_in text.now) fault) }
{
    let mut reader = match EntryReader::new(alloc, text) {
        Ok(reader) => reader,
        Err(fault) => return Err(fault),
    };
    match entries_left(alloc, &mut reader) {
        Ok(entries) => Ok((reader.rule(), entries)),
        Err(fault) => Err(fault),
    }
}

/// The rule and the entries of a history file of at most 268,435,456 bytes.
///
/// The rule is Free in files of versions 1 and 2, and Ordered in those of version 3. A live session's transcript, whose
/// first record is `dummynet-live,1`, is read as one of version 3 that may have remarks between its entries. The fault of a
/// file is the one of its first bad record. Whether the replies are those of sequential dummynet isn't asked here.
pub fn read_history<I: Inlet>(
    alloc: Global,
    input: &mut I,
) -> Result<(Rule, Vec<Entry>), ReplayFault>
    requires { I.has_failed input.old ≡ false }
    ensures ok { IfOk result (λ history.
        ReadsAs history_file (I.remaining input.old) (history.0, history.1.items)) }
    ensures sound { IfOk result (λ _. I.has_failed input.new ≡ false) }
    ensures err { IfErr result (λ fault.
        IsRefusal History history_file (I.remaining input.old) (I.has_failed input.new) fault) }
    ensures faults { IfErr result (λ fault. IsHistoryFault fault) }
{
    let text = read_input(alloc, input, HISTORY_LIMIT, Source::History)?;
    history_of_text(alloc, text.as_slice())
}
