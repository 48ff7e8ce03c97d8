use dn_types::{Bandwidth, Delay};

/// The bandwidth and the delay of a pipe.
#[derive(Clone, Copy, Debug, PartialEq, Eq)]
pub struct Rates {
    pub bandwidth: Bandwidth,
    pub delay: Delay,
}
