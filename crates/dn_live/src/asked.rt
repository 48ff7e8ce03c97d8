ghost use Rattle.std.specs.Prelude.{◌≡◌, ◌≤◌};
ghost use Rattle.dn_live.specs.Session.{bad_of, count_of};

use crate::bad_line::BadLine;
use dn_types::Call;

/// What a line asks for.
#[derive(Clone, Copy, Debug, PartialEq, Eq)]
pub enum Asked {
    /// Nothing: the line is empty, or a comment.
    Nothing,
    /// When to ask next.
    Next,
    /// A call by a caller.
    Calls(usize, Call),
    /// It is no line of a session.
    Bad(BadLine),
}

impl Asked {
    /// How many calls are asked for.
    pub(crate) fn count(&self) -> usize
        ensures { result ≡ count_of self.now }
    {
        match self {
            Asked::Calls(_, _) => 1,
            Asked::Nothing | Asked::Next | Asked::Bad(_) => 0,
        }
    }

    /// How many lines are bad.
    pub(crate) fn bad_count(&self) -> usize
        ensures { result ≡ bad_of self.now }
    {
        match self {
            Asked::Bad(_) => 1,
            Asked::Nothing | Asked::Next | Asked::Calls(_, _) => 0,
        }
    }
}
