ghost use Rattle.std.specs.Prelude.{◌≡◌, string_bytes, IfOk};
ghost use Rattle.dn_live.specs.Causes.{cause_text};

use dn_config::LineFault;
use std::alloc::{AllocError, Global};

/// Why a line asks for nothing that a session knows.
#[derive(Clone, Copy, Debug, PartialEq, Eq)]
pub enum Cause {
    /// A field of a record isn't what belongs there.
    BadField,
    /// The text of a Configure has no command.
    NoCommand,
    /// The line of a configuration isn't UTF-8.
    NotText,
    /// The line of a configuration has this fault.
    Faulty(LineFault),
    /// Carriage returns make more than one record of a line that begins with a call or with `next`.
    NotOneRecord,
    /// The input ends before the line does.
    NoLineFeed,
}

impl Cause {
    /// The words for it.
    pub(crate) fn text(self, alloc: Global) -> Result<String, AllocError>
        ensures { IfOk result (λ text. string_bytes text ≡ cause_text self) }
    {
        match self {
            Cause::BadField => String::from_str(alloc, "bad field"),
            Cause::NoCommand => String::from_str(alloc, "no command"),
            Cause::NotText => String::from_str(alloc, "not UTF-8"),
            Cause::Faulty(fault) => fault.text(alloc),
            Cause::NotOneRecord => String::from_str(alloc, "not one record"),
            Cause::NoLineFeed => String::from_str(alloc, "no line feed"),
        }
    }
}
