use crate::flow::Flow;
use crate::step::{Step, show};

/// A step, and the flows that a Show gives after it.
#[derive(Clone, Copy)]
pub struct ShownStep<'a> {
    pub step: Step<'a>,
    pub show: Step<'a>,
}

pub fn shown<'a>(step: Step<'a>, flows: &'a [Flow]) -> ShownStep<'a> {
    ShownStep {
        step,
        show: show(flows),
    }
}
