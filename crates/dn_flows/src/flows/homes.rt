ghost use Rattle.std.specs.Prelude.{◌≡◌, ◌<◌, length, slice_set};
ghost use Rattle.dn_flows.specs.Table.{flow_at, with_home};

use crate::flows::Flows;
use crate::home::Home;

impl Flows {
    /// The home that the flow was given last, and place 0 and slot 0 before that.
    #[inline(always)]
    pub fn home(&self, flow: usize) -> Home
        requires { flow < length self.now.flows }
        ensures { result ≡ (flow_at self.now.flows flow).home }
    {
        self.queues[flow].home
    }

    /// Gives the flow a home.
    pub fn set_home(&mut self, flow: usize, home: Home)
        requires { flow < length self.old.flows }
        ensures flows { self.new.flows ≡ slice_set self.old.flows flow (with_home home (flow_at self.old.flows flow)) }
        ensures keys { self.new.keys ≡ self.old.keys }
        ensures spare { self.new.spare ≡ self.old.spare }
    {
        let queue = &mut self.queues[flow];
        queue.home = home;
    }
}
