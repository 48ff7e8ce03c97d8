use thiserror::Error;

/// A write failed, or took nothing of at least one byte.
#[derive(Clone, Copy, Debug, PartialEq, Eq, Error)]
#[error("cannot write")]
pub struct WriteFault;
