//! What is kept of a row for its line. Rows count from 1.

use crate::report::refusal::Refusal;

/// A row whose packet was accepted into this flow, at the effective moment in nanoseconds.
#[derive(Clone, Copy, Debug)]
pub(crate) struct AcceptedRow {
    pub(crate) row: usize,
    pub(crate) flow: usize,
    pub(crate) at: u64,
}

/// A row whose packet was not accepted.
#[derive(Clone, Copy, Debug)]
pub(crate) struct RefusedRow {
    pub(crate) row: usize,
    pub(crate) why: Refusal,
}
