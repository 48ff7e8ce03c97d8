//! A heap that gives its least key first, and in which a push into reserved room can't fail.
#![tactic(auto)]

mod keep;
mod min_heap;
mod numbered;
mod placed_heap;
mod remove;
mod run;
mod run_heap;

pub use min_heap::MinHeap;
pub use numbered::Numbered;
pub use placed_heap::PlacedHeap;
pub use run_heap::RunHeap;
