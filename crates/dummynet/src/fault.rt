use dn_replay::ReplayFault;
use std::fmt;

// The status of what can't be opened, read or written.
const UNWRITTEN: u8 = 6;

/// Why the program ends without what it was asked for.
#[derive(Clone, Copy, Debug)]
pub enum Fault {
    /// A replay, or the reading or writing of a file, was refused.
    Replay(ReplayFault),
    /// The file of the history has something else in it.
    OtherFile,
}

impl Fault {
    /// The status with which the program ends.
    pub fn status(&self) -> u8 {
        match self {
            Fault::Replay(fault) => fault.status(),
            Fault::OtherFile => UNWRITTEN,
        }
    }
}

impl fmt::Display for Fault {
    fn fmt<W: fmt::Write>(&self, f: &mut fmt::Formatter<W>) -> fmt::Result {
        match self {
            Fault::Replay(fault) => write!(f, "{fault}"),
            Fault::OtherFile => write!(
                f,
                "cannot write history: FILE isn't empty and isn't a history. Give --history another name, or remove FILE first"
            ),
        }
    }
}

impl From<ReplayFault> for Fault {
    fn from(fault: ReplayFault) -> Fault {
        Fault::Replay(fault)
    }
}
