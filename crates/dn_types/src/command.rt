use crate::bandwidth::Bandwidth;
use crate::buckets::Buckets;
use crate::delay::Delay;
use crate::limit::Limit;
use crate::loss::Loss;
use crate::mask::Mask;
use crate::number::Number;
use crate::weight::Weight;

/// What a configuration line asks for. A line gives the whole configuration of its pipe or queue.
#[derive(Clone, Copy, Debug, PartialEq, Eq)]
pub enum Command {
    /// `pipe N config ..` configures a pipe.
    Pipe {
        number: Number,
        bw: Bandwidth,
        delay: Delay,
        limit: Limit,
        loss: Loss,
        buckets: Option<Buckets>,
        mask: Mask,
    },
    /// `queue N config pipe P ..` configures a queue on a pipe.
    Queue {
        number: Number,
        pipe: Number,
        weight: Weight,
        limit: Limit,
        loss: Loss,
        buckets: Option<Buckets>,
        mask: Mask,
    },
    /// `pipe delete N` deletes a pipe.
    DeletePipe(Number),
    /// `queue delete N` deletes a queue.
    DeleteQueue(Number),
}
