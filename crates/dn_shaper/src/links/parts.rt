use crate::links::link_parts::LinkParts;
use dn_flows::Flows;
use dn_link::DelayLine;
use dn_types::Rule;

/// All that packets change: the flows with their queues and homes, the links in order of first sight, and the packets under way.
#[derive(Drop)]
pub struct Parts {
    pub rule: Rule,
    /// The count of packets accepted, which is the number of the next one.
    pub accepted: u64,
    pub flows: Flows,
    pub links: Vec<LinkParts>,
    /// The count of the packets that wait for all links.
    pub waiting: usize,
    pub line: DelayLine,
}
