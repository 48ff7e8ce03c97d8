use thiserror::Error;

/// Why a try got no reply. Nothing has changed.
#[derive(Clone, Copy, Debug, PartialEq, Eq, Error)]
pub enum TryFault {
    /// The caller of this number, which is another one, was in a call.
    #[error("caller {0} is in a call")]
    Busy(usize),
    /// Memory was refused.
    #[error("out of memory")]
    OutOfMemory,
}
