use crate::five_tuple::FiveTuple;
use crate::mask::Mask;
use crate::number::Number;
use crate::target::Target;

/// What tells one flow from another: packets with equal keys are one flow.
#[derive(Clone, Copy, Debug, PartialEq, Eq, PartialOrd, Ord, Hash)]
pub struct FlowKey {
    pub target: Target,
    /// The pipe that carries the flow: the target's own number where that is a pipe.
    pub pipe: Number,
    pub mask: Mask,
    /// The masked five-tuple.
    pub tuple: FiveTuple,
}
