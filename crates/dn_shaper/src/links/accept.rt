ghost use Rattle.std.specs.Prelude.{◌≡◌, ℕ, ◌+◌, ◌<◌, ◌≤◌, ◌^◌, sum};
ghost use Rattle.dn_flows.specs.Table.{flow_at, lengths};
ghost use Rattle.dn_shaper.specs.Refinement.Arriving.{Accepts, KeepsFlows};
ghost use Rattle.dn_shaper.specs.Refinement.Settings.{settings_of};
ghost use Rattle.dn_shaper.specs.Refinement.Settling.{AreInStep};
ghost use Rattle.dn_shaper.specs.Refinement.Starting.{KeepsOthersReady, Within};
ghost use Rattle.dn_shaper.specs.Refinement.Submitting.{GoesTo, MayAccept};

use crate::links::arrive::{arrive, is_idle, join_queue};
use crate::links::link_heap::LinkHeap;
use crate::links::next_start::NextStart;
use crate::links::parts::Parts;
use crate::links::pass::pass;
use crate::settings::configured::Configured;
use crate::settings::treatment::Treatment;
use dn_types::{Len, Target};

/// Accepts a packet of the flow after a settling, in the room that was reserved, and returns its number.
///
/// It starts at once if its link is idle.
pub fn accept(
    parts: &mut Parts,
    heap: &mut LinkHeap,
    configured: &Configured,
    flow: usize,
    len: Len,
    how: &Treatment,
    at: u64,
) -> u64
    requires may { MayAccept (settings_of configured.now) at flow parts.old heap.old }
    requires goes { GoesTo flow how.now.target parts.old }
    requires bytes { sum (lengths (flow_at parts.old.flows.flows flow).backlog) + len < 2 ^ 32 }
    requires early { at ≤ 2 ^ 62 }
    requires moves { heap.old.moves + parts.old.waiting + 2 ≤ 2 ^ 63 }
    ensures number { result ≡ parts.old.accepted }
    ensures accepts { Accepts (settings_of configured.now) at flow len how.now.weight parts.old parts.new }
    ensures kept { AreInStep parts.new heap.new }
    ensures within { (n : ℕ) → Within n parts.old → Within (n + 1) parts.new }
    ensures moves { heap.new.moves + parts.new.waiting ≤ heap.old.moves + parts.old.waiting + 2 }
    ensures keeps { KeepsFlows parts.old parts.new }
    ensures leaves { KeepsOthersReady flow parts.old parts.new }
{
    let number = parts.accepted;
    if let Target::Pipe(_) = how.target
        && parts.flows.has_backlog(flow)
    {
        // Its own link waits already, so the packet is sent in its turn and the link isn't looked at.
        join_queue(parts, flow, len, how.weight);
        return number;
    }
    let home = parts.flows.home(flow);
    let link = &parts.links[home.place as usize];
    let free = link.times.free();
    let waited = link.has_backlog(&parts.flows);
    let pipe = link.pipe;
    let idle = is_idle(link, &parts.flows, at);
    if idle {
        let rates = configured.rates(pipe);
        pass(parts, home, flow, len, how.weight, at, &rates);
    } else {
        arrive(parts, home, flow, len, how.weight);
        if !waited {
            heap.push_reserved(NextStart {
                moment: free,
                place: home.place as usize,
            });
        }
    }
    number
}
