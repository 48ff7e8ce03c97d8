//! A packet that finds its link idle.
ghost use Rattle.std.specs.Prelude.{◌≡◌, ℕ, ◌≤◌, ◌^◌};
ghost use Rattle.dn_flows.specs.Table.{flow_at};
ghost use Rattle.dn_heap.specs.Heap.{Heap};
ghost use Rattle.dn_types.specs.Configuration.{Settings};
ghost use Rattle.dn_shaper.specs.Refinement.Passing.{CanPass, IsIdleAt, Passes, PassesLink};
ghost use Rattle.dn_shaper.specs.Refinement.Submitting.{MayAccept};
ghost use Rattle.dn_shaper.specs.Refinement.Views.{view_of};
ghost use Rattle.dn_shaper.specs.declared.links.next_start.NextStart.{NextStart};

use crate::links::link_parts::{Carries, LinkParts};
use crate::links::parts::Parts;
use crate::links::start::send;
use crate::settings::rates::Rates;
use dn_flows::{Home, Waiting};
use dn_types::{Len, Weight};

/// A packet passes the link, which is idle: it joins those that wait, and the link takes it at once.
///
/// A link of its own is left as it is. A shared one has its scheduler take one step.
#[inline(always)]
fn pass_link(link: &mut LinkParts, slot: usize, len: Len, weight: Weight)
    requires { (queues : ℕ → ℕ) × CanPass slot (view_of queues link.old) }
    ensures { PassesLink slot len weight link.old link.new }
{
    match &mut link.carries {
        Carries::Own(_) => {}
        Carries::Shared(shared) => shared.sched.pass(slot, len, weight),
    }
}

/// A packet is accepted at the moment and starts at once on its link, which is idle. It is put into no queue.
pub fn pass(
    parts: &mut Parts,
    home: Home,
    flow: usize,
    len: Len,
    weight: Weight,
    at: u64,
    rates: &Rates,
)
    requires may { (settings : Settings) × (heap : Heap NextStart) × MayAccept settings at flow parts.old heap }
    requires home { home ≡ (flow_at parts.old.flows.flows flow).home }
    requires early { at ≤ 2 ^ 62 }
    requires idle { IsIdleAt at home.place parts.old }
    ensures { Passes at home flow len weight rates.now.bandwidth rates.now.delay parts.old parts.new }
{
    let packet = parts.accepted;
    parts.accepted += 1;
    parts.flows.pass(flow);
    let link = &mut parts.links[home.place as usize];
    pass_link(link, home.slot as usize, len, weight);
    send(
        parts.rule,
        rates,
        &mut link.times,
        flow,
        Waiting {
            packet,
            len,
            weight,
        },
        at,
        &mut parts.line,
    );
}
