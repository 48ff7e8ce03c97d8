ghost use Rattle.std.specs.Prelude.{◌≡◌, nat_lt};
ghost use Rattle.dn_shaper.specs.Refinement.Views.{queue_lengths, view_of};

use crate::links::shared_link::SharedLink;
use dn_flows::Flows;
use dn_link::Link;
use dn_types::Number;

/// Whose packets a link carries: one flow's, or those of all queues on the pipe.
#[derive(Drop)]
pub enum Carries {
    Own(usize),
    /// In a block of its own, so that an own link doesn't take the room of a scheduler.
    Shared(Box<SharedLink>),
}

/// A link, which has no count of the packets that wait for it.
///
/// They wait in the queues of their flows. A shared link's scheduler stores the first packet of each flow alone, and an own
/// link stores none, so that a packet that joins others there leaves the link as it is.
#[derive(Drop)]
pub struct LinkParts {
    pub pipe: Number,
    /// From when it is free, and when its last packet was due.
    pub times: Link,
    pub carries: Carries,
}

impl LinkParts {
    /// Whether a packet waits for the link.
    pub fn has_backlog(&self, flows: &Flows) -> bool
        ensures { result ≡ nat_lt 0 (view_of (queue_lengths flows.now.flows) self.now).waits }
    {
        match &self.carries {
            Carries::Own(flow) => flows.has_backlog(*flow),
            Carries::Shared(shared) => !shared.sched.is_idle(),
        }
    }
}
