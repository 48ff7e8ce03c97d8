ghost use Rattle.std.specs.Prelude.{◌≡◌, ℕ, ◌<◌, ◌≤◌, true, false, length, slice_get, Some, IfSome, IfNone};
ghost use Rattle.dn_flows.specs.Table.{OnlyUnreserves, flow_at, is_at, places};
ghost use Rattle.dn_types.specs.declared.flow_key.FlowKey.{FlowKey};

use crate::flows::Flows;
use crate::listed::last_active;
use dn_types::Target;

impl Flows {
    /// An active flow on the pipe or of the queue: one that a packet joined since it was last discarded.
    ///
    /// None says that there is none. Over many calls it costs the flows that became active, and not all that there are. A flow
    /// that isn't active may lose the place that was reserved for it.
    pub fn active(&mut self, target: Target) -> Option<usize>
        ensures keys { self.new.keys ≡ self.old.keys }
        ensures many { length self.new.flows ≡ length self.old.flows }
        ensures flows { (flow : ℕ) → OnlyUnreserves (flow_at self.old.flows flow) (flow_at self.new.flows flow) }
        ensures places { places self.new.flows ≤ places self.old.flows }
        ensures within { IfSome result (λ flow. flow < length self.new.flows) }
        ensures active { IfSome result (λ flow. (flow_at self.new.flows flow).active ≡ true) }
        ensures reached { IfSome result (λ flow. (key : FlowKey) × (slice_get self.new.keys flow ≡ Some key) × (is_at target key ≡ true)) }
        ensures none { IfNone result ((flow : ℕ) (key : FlowKey) → slice_get self.new.keys flow ≡ Some key → is_at target key ≡ true → (flow_at self.new.flows flow).active ≡ false) }
    {
        last_active(
            &mut self.members,
            &mut self.queues,
            &self.keys,
            &mut self.reserved,
            &target,
        )
    }
}
