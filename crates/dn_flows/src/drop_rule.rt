use dn_types::{Limit, Loss};

/// By what an arriving packet is judged: the queue limit and the loss rate of its target.
#[derive(Clone, Copy, Debug, PartialEq, Eq)]
pub struct DropRule {
    pub limit: Limit,
    pub loss: Loss,
}
