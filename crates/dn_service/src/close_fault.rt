use thiserror::Error;

/// Why a service was not closed.
#[derive(Clone, Copy, Debug, PartialEq, Eq, Error)]
pub enum CloseFault {
    /// The caller of this number was not handed in, and each lower one was.
    #[error("caller {0} is absent")]
    Absent(usize),
}
