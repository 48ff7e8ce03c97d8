use crate::number::Number;

/// Where a packet is sent: to a pipe directly, or to a queue of a pipe.
#[derive(Clone, Copy, Debug, PartialEq, Eq, PartialOrd, Ord, Hash)]
pub enum Target {
    Pipe(Number),
    Queue(Number),
}
