ghost use Rattle.std.specs.Prelude.{◌≡◌, ◌≤◌, ◌+◌, ◌++◌, false, length, Ok, IfOk, IfErr, OnOk};
ghost use Rattle.std.specs.Prelude.{Err, Option};
ghost use Rattle.dn_types.specs.declared.command.Command.{Command};
ghost use Rattle.dn_config.specs.Faults.{position_of};
ghost use Rattle.dn_files.specs.ConfigFile.{command_at, commands_in, config_file, fault_at, numbered};
ghost use Rattle.dn_files.specs.Reading.{IsFaultOf, IsRefusal, ReadsAs};
ghost use Rattle.dn_files.specs.declared.replay_fault.ReplayFault.TheVariants.{OutOfMemory};
ghost use Rattle.dn_files.specs.declared.source.Source.TheVariants.{Config};

use crate::input::read_input;
use crate::replay_fault::ReplayFault;
use crate::source::Source;
use dn_config::{LineFault, Lines, parse_line};
use dn_records::Inlet;
use dn_types::Command;
use std::alloc::Global;
use std::str;

/// The greatest length of a configuration in bytes.
pub const CONFIG_LIMIT: usize = 1_048_576;

/// The fault of the line with this number.
fn line_fault(number: usize, fault: LineFault) -> ReplayFault
    ensures { result ≡ fault_at number fault (position_of fault) }
{
    match fault.position() {
        Some(_) => ReplayFault::Config {
            line: number,
            fault,
        },
        None => ReplayFault::OutOfMemory,
    }
}

/// The command of the line with this number, from 1 on, or None for a line that asks for nothing.
///
/// ConfigText says that the line is no UTF-8, and Config that it is no line of the configuration, and where and why.
pub fn command_at(number: usize, line: &[u8]) -> Result<Option<Command>, ReplayFault>
    ensures value { result ≡ command_at number line.now }
    ensures err { IfErr result (λ fault. IsFaultOf {A = Option Command} (Err fault) fault) }
{
    let Ok(line) = str::from_utf8(line) else {
        return Err(ReplayFault::ConfigText(number));
    };
    match parse_line(line) {
        Ok(command) => Ok(command),
        Err(fault) => Err(line_fault(number, fault)),
    }
}

/// Adds the command of a line, if it has one.
fn keep(
    commands: &mut Vec<(usize, Command)>,
    number: usize,
    command: Option<Command>,
) -> Result<(), ReplayFault>
    ensures ok { OnOk result (commands.new.items ≡ commands.old.items ++ numbered number command) }
    ensures err { IfErr result (λ fault. fault ≡ OutOfMemory) }
{
    let Some(command) = command else {
        return Ok(());
    };
    match commands.push((number, command)) {
        Ok(()) => Ok(()),
        Err(_) => Err(ReplayFault::OutOfMemory),
    }
}

/// The commands of a configuration's text with the numbers of their lines.
///
/// All lines are read before any command is made. A replay has a loop of its own, which makes each command before it reads
/// on.
fn commands_of_text(alloc: Global, text: &[u8]) -> Result<Vec<(usize, Command)>, ReplayFault>
    ensures ok { IfOk result (λ commands. commands_in text.now ≡ Ok commands.items) }
    ensures err { IfErr result (λ fault. IsFaultOf (commands_in text.now) fault) }
{
    let mut commands = Vec::new(alloc);
    let mut lines = Lines::new(text);
    loop {
        let number = lines.number;
        let Some((line, rest)) = lines.next() else {
            return Ok(commands);
        };
        let command = match command_at(number, line) {
            Ok(command) => command,
            Err(fault) => return Err(fault),
        };
        match keep(&mut commands, number, command) {
            Ok(()) => lines = rest,
            Err(fault) => return Err(fault),
        }
    }
}

/// The commands of a configuration of at most 1,048,576 bytes, each with the number of its line, counted from 1.
///
/// The fault is that of the first faulty line. Whether a command is accepted when it is applied isn't asked here.
pub fn read_config<I: Inlet>(
    alloc: Global,
    reader: &mut I,
) -> Result<Vec<(usize, Command)>, ReplayFault>
    requires { I.has_failed reader.old ≡ false }
    ensures ok { IfOk result (λ commands. ReadsAs config_file (I.remaining reader.old) commands.items) }
    ensures sound { IfOk result (λ _. I.has_failed reader.new ≡ false) }
    ensures err { IfErr result (λ fault.
        IsRefusal Config config_file (I.remaining reader.old) (I.has_failed reader.new) fault) }
{
    let text = read_input(alloc, reader, CONFIG_LIMIT, Source::Config)?;
    commands_of_text(alloc, text.as_slice())
}
