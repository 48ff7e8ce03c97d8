use crate::cause::Cause;

/// What is bad in a line.
#[derive(Clone, Copy, Debug, PartialEq, Eq)]
pub struct BadLine {
    /// The place of the first bad field, from 1, or 0 where it is no one field.
    pub field: u64,
    pub cause: Cause,
}
