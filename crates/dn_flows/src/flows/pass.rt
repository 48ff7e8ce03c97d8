ghost use Rattle.std.specs.Prelude.{◌≡◌, ◌<◌, ◌^◌, length, slice_set, true};
ghost use Rattle.dn_flows.specs.Table.{flow_at, popped, pushed};
ghost use Rattle.dn_flows.specs.declared.waiting.Waiting.{Waiting};

use crate::flows::Flows;

impl Flows {
    /// A packet of a flow without a backlog uses up the place that was reserved and starts at once.
    ///
    /// The result is as by `push_reserved` and then `pop_front`. The packet is never put into the store.
    pub fn pass(&mut self, flow: usize)
        requires within { flow < length self.old.flows }
        requires reserved { (flow_at self.old.flows flow).reserved ≡ true }
        requires empty { length (flow_at self.old.flows flow).backlog ≡ 0 }
        requires count { (flow_at self.old.flows flow).started < 2 ^ 62 }
        ensures flows { (waiting : Waiting) → self.new.flows ≡ slice_set self.old.flows flow (popped (pushed waiting (flow_at self.old.flows flow))) }
        ensures keys { self.new.keys ≡ self.old.keys }
        ensures spare { self.new.spare ≡ self.old.spare }
    {
        let queue = &mut self.queues[flow];
        queue.reserved = false;
        queue.active = true;
        queue.started += 1;
        self.reserved -= 1;
    }
}
