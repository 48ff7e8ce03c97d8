ghost use Rattle.std.specs.Prelude.{◌≡◌, slice_get};
ghost use Rattle.dn_flows.specs.Table.{flow_at};

use crate::flows::Flows;
use crate::waiting::Waiting;

impl Flows {
    /// The packet behind the first one in the flow's queue. None is in that of a flow that isn't there.
    pub fn second(&self, flow: usize) -> Option<Waiting>
        ensures { result ≡ slice_get (flow_at self.now.flows flow).backlog 1 }
    {
        match self.queues.get(flow) {
            Some(queue) => queue.second(&self.packets),
            None => None,
        }
    }
}
