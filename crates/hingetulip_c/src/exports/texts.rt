//! The calls of the header that write entries of a history.

mod advance;
mod collect;
mod configure;
mod submit;
