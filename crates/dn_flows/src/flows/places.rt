ghost use Rattle.std.specs.Prelude.{◌≡◌, ◌<◌, ◌^◌, length, slice_set};
ghost use Rattle.dn_flows.specs.Table.{flow_at, places, with_place};

use crate::flows::Flows;

impl Flows {
    /// How many flows have a reserved place once this one has.
    ///
    /// Whoever keeps room for each packet that finds a place here has to keep room for so many.
    #[inline(always)]
    pub fn places_with(&self, flow: usize) -> usize
        requires { flow < length self.now.flows }
        ensures value { result ≡ places (slice_set self.now.flows flow (with_place (flow_at self.now.flows flow))) }
        ensures bound { result < 2 ^ 63 }
    {
        if self.queues[flow].reserved {
            self.reserved
        } else {
            self.reserved + 1
        }
    }
}
