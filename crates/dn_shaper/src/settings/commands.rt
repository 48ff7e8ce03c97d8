ghost use Rattle.std.specs.Prelude.{◌≡◌, ℕ, ◌<◌, [], None, Some, length, IfOk, OnOk, OnErr};
ghost use Rattle.std.specs.Option.{option_copied};
ghost use Rattle.dn_shaper.specs.Refinement.Settings.{Sets, at_number};

use dn_types::{Command, Number};
use std::alloc::{AllocError, Global};
use std::marker::Model;
use std::mem;

/// The commands that are in force for pipes, or for queues, by number.
///
/// One is found by a read at its number, so that no choice of numbers makes it dear. Memory is taken for a number that had
/// no command alone: a block for the command, and a place for each number up to the greatest one.
#[derive(Drop)]
pub struct Commands {
    places: Vec<Option<Box<Command>>>,
    alloc: Global,
}

impl Model for Commands {
    ghost use Rattle.std.specs.Prelude.{List, Option};
    ghost use Rattle.dn_types.specs.declared.command.Command.{Command};
    ghost use Rattle.dn_shaper.specs.Refinement.Settings.{unboxed};

    ghost Value = { List (Option Command) };

    ghost view = { λ a. unboxed a.places.items };
}

impl Commands {
    /// No command. It takes no memory.
    pub fn new(alloc: Global) -> Commands
        ensures { result ≡ [] }
    {
        Commands {
            places: Vec::new(alloc),
            alloc,
        }
    }

    /// The command under the number, where there is one.
    pub fn get(&self, number: Number) -> Option<&Command>
        ensures { option_copied result ≡ at_number self.now number }
    {
        match self.places.get(number.get() as usize) {
            Some(Some(command)) => Some(command),
            _ => None,
        }
    }

    /// Makes a place for the number, with none under it where it had none.
    fn extend(&mut self, number: Number) -> Result<(), AllocError>
        ensures same { (other : ℕ) → at_number self.new other ≡ at_number self.old other }
        ensures place { OnOk result (number < length self.new) }
        ensures only_new { OnErr result (at_number self.old number ≡ None) }
    {
        let wanted = number.get() as usize + 1;
        let places = self.places.len();
        if places < wanted {
            self.places.reserve(wanted - places)?;
            while self.places.len() < wanted {
                self.places.push_reserved(None);
            }
        }
        Ok(())
    }

    /// Puts the command under the number, and answers the one whose place it takes.
    pub fn put(&mut self, number: Number, command: &Command) -> Result<Option<Command>, AllocError>
        ensures replaced { IfOk result (λ replaced. replaced ≡ at_number self.old number) }
        ensures puts { OnOk result (Sets number (Some command.now) self.old self.new) }
        ensures err { OnErr result ((other : ℕ) → at_number self.new other ≡ at_number self.old other) }
        ensures only_new { OnErr result (at_number self.old number ≡ None) }
    {
        self.extend(number)?;
        let place = &mut self.places[number.get() as usize];
        if let Some(kept) = place {
            return Ok(Some(mem::replace(&mut **kept, *command)));
        }
        *place = Some(Box::new(self.alloc, *command)?);
        Ok(None)
    }

    /// Takes out the command under the number, where there is one.
    pub fn take(&mut self, number: Number) -> Option<Command>
        ensures taken { result ≡ at_number self.old number }
        ensures rest { Sets number None self.old self.new }
    {
        let number = number.get() as usize;
        if self.places.len() <= number {
            return None;
        }
        let command = mem::replace(&mut self.places[number], None)?;
        Some(Box::into_inner(command))
    }
}
