ghost use Rattle.std.specs.Prelude.{◌≡◌, Err, IfErr};
ghost use Rattle.csv.specs.Records.{fields_of};
ghost use Rattle.dn_types.specs.declared.call.Call.{Call};
ghost use Rattle.dn_types.specs.declared.command.Command.{Command};
ghost use Rattle.dn_files.specs.ConfigFile.{command_at};
ghost use Rattle.dn_files.specs.Fields.{column};
ghost use Rattle.dn_files.specs.Reading.{IsFaultOf};
ghost use Rattle.dn_history.specs.HistoryFile.{call_of, command_by};
ghost use Rattle.dn_history.specs.HistoryRecords.{caller_of, is_call, is_delete, plain_call, submit_of};

use crate::history_version::HistoryVersion;
use crate::read::fields::in_record;
use csv::ByteRecord;
use dn_files::{
    ReplayFault, column, command_at, is_form, is_name, moment_at, number_at, packet_at, target_at,
};
use dn_types::{Call, Command};

/// The caller of a call record, or the field's place.
pub fn read_caller(fields: &ByteRecord) -> Result<usize, u64>
    ensures { result ≡ caller_of (fields_of fields.now) }
{
    let caller = number_at(fields, 2, 0, 15)?;
    Ok(caller as usize)
}

/// Whether a record is the call of this name, with this many fields.
pub fn is_call(fields: &ByteRecord, name: &[u8], count: usize) -> bool
    ensures { result ≡ is_call name.now count (fields_of fields.now) }
{
    is_name(fields, 1, b"c") && is_form(fields, 3, name, count)
}

/// The Submit of a record, or the place of the first bad field.
#[tactic(auto, unfolding(crate::specs::HistoryRecords::submit_of))]
fn read_submit(fields: &ByteRecord) -> Result<Call, u64>
    ensures { result ≡ submit_of (fields_of fields.now) }
{
    Ok(Call::Submit {
        target: target_at(fields, 4)?,
        packet: packet_at(fields, 6)?,
        moment: moment_at(fields, 13)?,
    })
}

/// The call of a record that isn't a configuration, or the place of the first bad field.
#[tactic(auto, unfolding(crate::specs::HistoryRecords::plain_call))]
pub fn read_plain_call(fields: &ByteRecord) -> Result<Call, u64>
    ensures { result ≡ plain_call (fields_of fields.now) }
{
    if is_call(fields, b"submit", 13) {
        read_submit(fields)
    } else if is_call(fields, b"advance", 4) {
        Ok(Call::Advance(moment_at(fields, 4)?))
    } else if is_call(fields, b"collect", 4) {
        Ok(Call::Collect(moment_at(fields, 4)?))
    } else if is_call(fields, b"show", 3) {
        Ok(Call::Show)
    } else {
        Err(3)
    }
}

/// Whether a command is a delete.
fn is_delete(command: &Command) -> bool
    ensures { result ≡ is_delete command.now }
{
    matches!(command, Command::DeletePipe(_) | Command::DeleteQueue(_))
}

/// The command of the record with this number, by its configuration's text.
fn read_command(
    version: HistoryVersion,
    number: u64,
    fields: &ByteRecord,
) -> Result<Command, ReplayFault>
    ensures value { result ≡ command_by version number (command_at 1 (column 4 (fields_of fields.now))) }
    ensures err { IfErr result (λ fault. IsFaultOf {A = Command} (Err fault) fault) }
{
    match command_at(1, column(fields, 4)) {
        Ok(Some(command)) => {
            if is_delete(&command) && !version.has_deletes() {
                Err(ReplayFault::BadRecord(number))
            } else {
                Ok(command)
            }
        }
        Ok(None) => Err(ReplayFault::BadRecord(number)),
        Err(ReplayFault::OutOfMemory) => Err(ReplayFault::OutOfMemory),
        Err(_) => Err(ReplayFault::BadRecord(number)),
    }
}

/// The call of the record with this number.
#[tactic(auto, unfolding(crate::specs::HistoryFile::call_of))]
pub(crate) fn read_call(
    version: HistoryVersion,
    number: u64,
    fields: &ByteRecord,
) -> Result<Call, ReplayFault>
    ensures value { result ≡ call_of version number (fields_of fields.now) }
    ensures err { IfErr result (λ fault. IsFaultOf {A = Call} (Err fault) fault) }
{
    if !is_call(fields, b"configure", 4) {
        return in_record(number, read_plain_call(fields));
    }
    match read_command(version, number, fields) {
        Ok(command) => Ok(Call::Configure(command)),
        Err(fault) => Err(fault),
    }
}
