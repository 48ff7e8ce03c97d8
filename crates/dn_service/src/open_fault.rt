use thiserror::Error;

/// Why a service was not opened.
#[derive(Clone, Copy, Debug, PartialEq, Eq, Error)]
pub enum OpenFault {
    /// The number of callers is not in 1..=16.
    #[error("bad count of callers")]
    BadCount,
    /// Memory was refused.
    #[error("out of memory")]
    OutOfMemory,
}
