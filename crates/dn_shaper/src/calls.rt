//! Each kind of call, in a file named after it.
pub mod advance;
pub mod collect;
pub mod configure;
pub mod show;
pub mod submit;
