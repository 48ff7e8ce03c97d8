ghost use Rattle.std.specs.Prelude.{◌≡◌};
ghost use Rattle.dn_files.specs.Faults.{fault_status};

use crate::source::Source;
use dn_config::LineFault;
use thiserror::Error;

/// Why a replay, or the reading or writing of a file, was refused.
///
/// Each is shown as one line, without its line feed. Lines of a configuration, rows of a packet file and fields of a row
/// are numbered from 1.
#[derive(Clone, Copy, Debug, PartialEq, Eq, Error)]
pub enum ReplayFault {
    /// A configuration line is no command, and this is its first fault.
    #[error("config line {line}, word {}: {fault}", .fault.word())]
    Config { line: usize, fault: LineFault },
    /// A configuration line isn't UTF-8.
    #[error("config line {0}: not UTF-8")]
    ConfigText(usize),
    /// The line names a pipe that isn't configured.
    #[error("config line {0}: no such pipe")]
    NoSuchPipe(usize),
    /// A row isn't of the packet form.
    ///
    /// `field` is its first bad field, and 0 if it hasn't ten. If the header is bad both are 0.
    #[error("packet row {row}, field {field}: bad")]
    BadRow { row: u64, field: u64 },
    /// A record of a history file isn't of the history form or is missing, or comes after the end.
    ///
    /// Records are numbered from 1, and a missing one has the number that it would have.
    #[error("history record {0}: bad")]
    BadRecord(u64),
    /// An input is longer than its limit.
    #[error("{0} too long")]
    TooLong(Source),
    /// A read failed.
    #[error("cannot read {0}")]
    Read(Source),
    /// A write failed, or took nothing of at least one byte.
    #[error("cannot write {0}")]
    Write(Source),
    /// Memory was refused.
    #[error("out of memory")]
    OutOfMemory,
    /// There can be 1 to 16 callers.
    #[error("bad count of callers")]
    BadCount,
    /// The line deletes a pipe that a configured queue names.
    #[error("config line {0}: pipe has queues")]
    PipeHasQueues(usize),
    /// The line deletes a queue that isn't configured.
    #[error("config line {0}: no such queue")]
    NoSuchQueue(usize),
}

impl ReplayFault {
    /// The status with which the program ends on this fault.
    pub fn status(&self) -> u8
        ensures { result ≡ fault_status self.now }
    {
        match self {
            ReplayFault::BadCount => 2,
            ReplayFault::Config { .. }
            | ReplayFault::ConfigText(_)
            | ReplayFault::NoSuchPipe(_)
            | ReplayFault::PipeHasQueues(_)
            | ReplayFault::NoSuchQueue(_) => 3,
            ReplayFault::BadRow { .. } | ReplayFault::BadRecord(_) => 4,
            ReplayFault::OutOfMemory => 5,
            ReplayFault::TooLong(_) | ReplayFault::Read(_) | ReplayFault::Write(_) => 6,
        }
    }
}
