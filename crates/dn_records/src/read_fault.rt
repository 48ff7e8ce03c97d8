use thiserror::Error;

/// Why an input was not read whole.
#[derive(Clone, Copy, Debug, PartialEq, Eq, Error)]
pub enum ReadFault {
    /// The input is longer than the limit.
    #[error("too long")]
    TooLong,
    /// A read failed.
    #[error("cannot read")]
    Read,
    /// Memory for the text was refused.
    #[error("out of memory")]
    OutOfMemory,
}
