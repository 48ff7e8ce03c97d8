use thiserror::Error;

/// Why a call that was to come after others got no reply. Nothing has changed.
#[derive(Clone, Copy, Debug, PartialEq, Eq, Error)]
pub enum AfterFault {
    /// Memory was refused.
    #[error("out of memory")]
    OutOfMemory,
    /// Fewer calls were answered than the call was to come after.
    #[error("too few calls were answered")]
    Ahead,
}
