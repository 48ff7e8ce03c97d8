use crate::bell::Bell;
use crate::rule::BookTable;
use std::alloc::Global;

/// What the service and its callers share.
#[derive(Drop)]
pub(crate) struct Desk {
    /// The table of the book.
    pub(crate) table: BookTable,
    /// Where callers sleep that wait for the book.
    pub(crate) bell: Bell,
    /// Where the service has its memory from.
    pub(crate) alloc: Global,
}
