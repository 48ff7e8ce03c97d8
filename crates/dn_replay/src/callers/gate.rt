/// What is called round each Submit of the callers of a replay.
///
/// A gate that waits for another caller can hold one caller until another has come as far, and so choose the order of their
/// calls.
pub trait Gate {
    /// Called before a caller submits a row. `turn` counts that caller's rows from 0.
    fn before(&self, caller: usize, turn: usize);

    /// Called after the Submit of the row was answered.
    fn after(&self, caller: usize, turn: usize);
}

/// A gate that does nothing and takes no memory.
#[derive(Clone, Copy, Debug, PartialEq, Eq)]
pub struct NoGate;

impl Gate for NoGate {
    fn before(&self, _caller: usize, _turn: usize) {}

    fn after(&self, _caller: usize, _turn: usize) {}
}
