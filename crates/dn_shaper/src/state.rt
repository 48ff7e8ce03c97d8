ghost use Rattle.std.specs.Prelude.{[]};
ghost use Rattle.dn_shaper.specs.Refinement.Sound.{IsSound};
ghost use Rattle.dn_shaper.specs.Standing.{StandsAt};

use crate::links::link_heap::LinkHeap;
use crate::links::parts::Parts;
use crate::room::shared_places::SharedPlaces;
use crate::settings::configured::Configured;
use dn_flows::{Flows, HashKey};
use dn_link::DelayLine;
use dn_types::Rule;
use std::alloc::Global;

/// All that a shaper keeps.
///
/// It has the parts that packets change, the heap of the links that have a backlog, what is configured, the clock in
/// nanoseconds and the count of calls.
#[derive(Drop)]
pub struct State {
    pub parts: Parts,
    pub heap: LinkHeap,
    pub shared: SharedPlaces,
    pub configured: Configured,
    pub now: u64,
    pub calls: u64,
}

/// A shaper before its first call. It takes no memory.
pub fn new_state(alloc: Global, rule: Rule, key: HashKey) -> State
    ensures sound { IsSound result }
    ensures stands { StandsAt rule result [] }
{
    State {
        parts: Parts {
            rule,
            accepted: 0,
            flows: Flows::with_key(alloc, key),
            links: Vec::new(alloc),
            waiting: 0,
            line: DelayLine::new(alloc),
        },
        heap: LinkHeap::new(alloc),
        shared: SharedPlaces::new(alloc),
        configured: Configured::new(alloc),
        now: 0,
        calls: 0,
    }
}
