ghost use Rattle.std.specs.Prelude.{◌≡◌};
ghost use Rattle.dummynet.specs.declared.refusal.Refusal.TheVariants as refused;
ghost use Rattle.dummynet.specs.Requests.{IsToldAs, refusal_status};

use clap::Error;
use clap::error::ErrorKind;
use std::alloc::AllocError;
use std::io;

/// Why a command line asks for nothing that the program could do.
#[derive(Debug, Drop)]
pub enum Refusal {
    /// Memory was refused.
    OutOfMemory,
    /// A word isn't UTF-8.
    NotUtf8,
    /// Help or the version was asked for, or the words aren't understood: the text that says so.
    Told(Error),
}

impl Refusal {
    /// The status with which the program ends.
    pub fn status(&self) -> u8
        ensures { result ≡ refusal_status self.now }
    {
        match self {
            Refusal::OutOfMemory => 5,
            Refusal::NotUtf8 => 2,
            Refusal::Told(error) => match error.kind() {
                ErrorKind::DisplayHelp | ErrorKind::DisplayVersion => 0,
                _ => 2,
            },
        }
    }

    /// Tells the user: help and the version on standard output, and all else on standard error.
    pub fn print<R: Print + Eprint>(&self, rt: &R) -> io::Result<()> {
        match self {
            Refusal::OutOfMemory => eprintln!(rt; "out of memory"),
            Refusal::NotUtf8 => eprintln!(rt; "error: an argument isn't UTF-8"),
            Refusal::Told(error) => error.print(rt),
        }
    }
}

impl From<AllocError> for Refusal {
    ghost from_gives = { λ _ r. r ≡ refused.OutOfMemory };

    fn from(_error: AllocError) -> Refusal {
        Refusal::OutOfMemory
    }
}

// Want of memory is a refusal of its own, also where clap tells it.
impl From<Error> for Refusal {
    ghost from_gives = { IsToldAs };

    fn from(error: Error) -> Refusal {
        match error.kind() {
            ErrorKind::OutOfMemory => Refusal::OutOfMemory,
            _ => Refusal::Told(error),
        }
    }
}
