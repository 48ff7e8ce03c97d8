ghost use Rattle.std.specs.Prelude.{◌≡◌, ◌++◌, codes, decimal, string_bytes, IfOk};
ghost use Rattle.dn_config.specs.Faults.{fault_name, fault_text, position_of, word_of};

use std::alloc::{AllocError, Global};
use thiserror::Error;

/// The first fault of a configuration line, with the position of the word that it concerns.
///
/// All words of the line count, from 1, a leading `ipfw` included. It is shown as its name.
#[derive(Clone, Copy, Debug, PartialEq, Eq, Error)]
#[error("{}", self.name())]
pub enum LineFault {
    /// A word that is no keyword here, an option of the other kind of line included.
    UnknownWord(usize),
    /// The line ends after this word, or this `mask` has no field.
    MissingValue(usize),
    /// The value isn't written as the number that is asked for.
    BadNumber(usize),
    /// The value is a number that this project doesn't accept.
    OutOfRange(usize),
    /// The word is one of ipfw(8) that this project leaves out.
    LeftOut(usize),
    /// The line of a queue, which this word begins, doesn't name its pipe. It has no other fault.
    NeedsPipe(usize),
    /// Memory was refused. [`parse_line`](crate::parse_line) takes none, and so never returns this.
    ///
    /// It is here for a reader of lines that takes some, so that its callers have a case for it, as the C library has a number.
    OutOfMemory,
}

// What stands before the name of a fault at this word.
fn head(alloc: Global, word: usize) -> Result<String, AllocError>
    ensures { IfOk result (λ text. string_bytes text ≡ codes "word " ++ decimal word ++ codes ": ") }
{
    format!(in alloc; "word {word}: ")
}

impl LineFault {
    /// The position of the word that the fault concerns, and None for OutOfMemory.
    pub fn position(&self) -> Option<usize>
        ensures { result ≡ position_of self.now }
    {
        match self {
            LineFault::UnknownWord(at)
            | LineFault::MissingValue(at)
            | LineFault::BadNumber(at)
            | LineFault::OutOfRange(at)
            | LineFault::LeftOut(at)
            | LineFault::NeedsPipe(at) => Some(*at),
            LineFault::OutOfMemory => None,
        }
    }

    /// The same as a number, and 0 for OutOfMemory.
    pub fn word(&self) -> usize
        ensures { result ≡ word_of self.now }
    {
        self.position().unwrap_or(0)
    }

    /// What the fault is called, as `bad number`.
    pub fn name(&self) -> &'static str
        ensures { result.now ≡ fault_name self.now }
    {
        match self {
            LineFault::UnknownWord(_) => "unknown word",
            LineFault::MissingValue(_) => "missing value",
            LineFault::BadNumber(_) => "bad number",
            LineFault::OutOfRange(_) => "out of range",
            LineFault::LeftOut(_) => "left out",
            LineFault::NeedsPipe(_) => "needs a pipe",
            LineFault::OutOfMemory => "out of memory",
        }
    }

    /// Its word and its name, as `word 5: bad number`.
    pub fn text(&self, alloc: Global) -> Result<String, AllocError>
        ensures { IfOk result (λ text. string_bytes text ≡ fault_text self.now) }
    {
        let mut text = head(alloc, self.word())?;
        text.push_str(self.name())?;
        Ok(text)
    }
}
