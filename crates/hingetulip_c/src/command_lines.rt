//! A line of a configuration as C hands it in, and the entry of the command that it is.

ghost use Rattle.std.specs.Prelude.{◌≡◌, ◌≢◌, ◌≤◌, ◌<◌, ◌⊎◌, IsUtf8, Option, Ok, Err, IfOk, IfErr, IfSome, IfNone};
ghost use Rattle.dn_config.specs.Line.{answer};
ghost use Rattle.dn_types.specs.declared.call.Call.TheVariants.{Configure};
ghost use Rattle.dn_types.specs.declared.command.Command.{Command as CommandValue};
ghost use Rattle.hingetulip_c.specs.Faults.{IfFault, fault_of, no_text};
ghost use Rattle.hingetulip_c.specs.Texts.{FaultyCaller, entry_by, obeyed, told_of};

use crate::entries::caller_of;
use crate::records::CFault;
use crate::status::{BAD_CALLER, BAD_OUTCOME, LINE};
use dn_config::{LineFault, parse_line};
use dn_types::{Call, Command, Entry, Reply};

/// The fault, with the numbers of the header.
pub(crate) fn fault_of(found: &LineFault) -> CFault
    ensures { result ≡ fault_of found.now }
{
    let kind = match found {
        LineFault::UnknownWord(_) => 1,
        LineFault::MissingValue(_) => 2,
        LineFault::BadNumber(_) => 3,
        LineFault::OutOfRange(_) => 4,
        LineFault::LeftOut(_) => 5,
        LineFault::NeedsPipe(_) => 6,
        LineFault::OutOfMemory => 7,
    };
    CFault {
        word: found.word() as u64,
        kind,
        reserved: 0,
    }
}

/// The command of a line, None of a line without words, or DN_LINE and the fault.
pub(crate) fn command_of(line: &[u8], fault: &mut CFault) -> Result<Option<Command>, u32>
    ensures ok { IfOk result (λ found. IsUtf8 line.now × (answer line.now ≡ Ok found) × (fault.new ≡ fault.old)) }
    ensures err { IfErr result (λ status. (status ≡ 8)
        × (IsUtf8 line.now → (found : Option CommandValue) → answer line.now ≢ Ok found)) }
    ensures no_text { ¬ (IsUtf8 line.now) → (result ≡ Err 8) × (fault.new ≡ no_text) }
    ensures fault { IsUtf8 line.now → IfFault line.now (λ found. (result ≡ Err 8) × (fault.new ≡ fault_of found)) }
{
    let Ok(text) = std::str::from_utf8(line) else {
        *fault = CFault {
            word: 0,
            kind: 0,
            reserved: 0,
        };
        return Err(LINE);
    };
    match parse_line(text) {
        Ok(command) => Ok(command),
        Err(found) => {
            *fault = fault_of(&found);
            Err(LINE)
        }
    }
}

/// The reply to a command that was obeyed.
fn obeyed(command: &Command) -> Reply
    ensures { result ≡ obeyed command.now }
{
    match command {
        Command::Pipe { .. } => Reply::Configured,
        Command::Queue { .. } => Reply::Configured,
        Command::DeletePipe(_) => Reply::Deleted,
        Command::DeleteQueue(_) => Reply::Deleted,
    }
}

/// The reply to a command that a status tells, or None if the status tells none.
fn told_of(command: &Command, status: u32) -> Option<Reply>
    ensures some { IfSome result (λ reply. (reply ≡ told_of command.now status) × (status ≤ 4)) }
    ensures none { IfNone result (4 < status) }
{
    match status {
        0 => Some(obeyed(command)),
        1 => Some(Reply::Exhausted),
        2 => Some(Reply::NoSuchPipe),
        3 => Some(Reply::PipeHasQueues),
        4 => Some(Reply::NoSuchQueue),
        _ => None,
    }
}

/// The entry of a Configure, or the status of a number that is out of range.
pub(crate) fn configure_entry(caller: u64, command: Command, status: u32) -> Result<Entry, u32>
    ensures ok { IfOk result (λ entry. (entry ≡ entry_by caller (Configure command) (told_of command status))
        × (caller ≤ 15) × (status ≤ 4)) }
    ensures err { IfErr result (λ bad. FaultyCaller caller bad ⊎ ((bad ≡ 21) × (4 < status))) }
{
    let Some(caller) = caller_of(caller) else {
        return Err(BAD_CALLER);
    };
    match told_of(&command, status) {
        None => Err(BAD_OUTCOME),
        Some(reply) => Ok(Entry {
            caller,
            call: Call::Configure(command),
            reply,
        }),
    }
}
