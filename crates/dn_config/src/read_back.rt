ghost use Rattle.std.specs.Prelude.{◌≡◌, Ok, Some, IfOk};
ghost use Rattle.dn_types.specs.declared.command.Command.{Command};
ghost use Rattle.dn_config.specs.Commands.{IsTyped};
ghost use Rattle.dn_config.specs.Line.{answer};
ghost use Rattle.dn_config.specs.Text.{text};

use crate::fault::LineFault;
use crate::line::parse_line;
use crate::print::print_command;
use dn_types::Command;
use std::alloc::{AllocError, Global};

/// The law of both directions: the canonical text of every command is a line whose command it is.
///
/// The function computes nothing.
pub fn each_text_reads_back()
    ensures { (command : Command) → IsTyped command → answer (text command) ≡ Ok (Some command) }
{}

/// The values of a command are in range, since its types hold no others.
///
/// The function computes nothing.
fn command_in_range(command: Command)
    ensures { IsTyped command }
{}

/// Prints a command and parses its text, which gives the command again.
///
/// The one refusal is out of memory in the printing.
#[tactic(auto, using(crate::proofs::CommandsBack::text_back))]
pub fn print_and_parse(
    alloc: Global,
    command: &Command,
) -> Result<Result<Option<Command>, LineFault>, AllocError>
    ensures same { IfOk result (λ read. read ≡ Ok (Some command.now)) }
{
    command_in_range(*command);
    let text = print_command(alloc, command)?;
    Ok(parse_line(text.as_str()))
}
