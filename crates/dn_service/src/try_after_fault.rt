use thiserror::Error;

/// Why a try to make a call after others got no reply. Nothing has changed.
#[derive(Clone, Copy, Debug, PartialEq, Eq, Error)]
pub enum TryAfterFault {
    /// The caller of this number, which is another one, was in a call.
    #[error("caller {0} is in a call")]
    Busy(usize),
    /// Memory was refused.
    #[error("out of memory")]
    OutOfMemory,
    /// Fewer calls were answered than the call was to come after.
    #[error("too few calls were answered")]
    Ahead,
}
