ghost use Rattle.std.specs.Prelude.{◌≡◌, ℕ, ◌+◌, ◌<◌, ◌≤◌, ◌^◌, true, false, sum, length, slice_get, Some};
ghost use Rattle.dn_flows.specs.Table.{flow_at, lengths};
ghost use Rattle.dn_shaper.specs.Refinement.Agreement.{Agrees};
ghost use Rattle.dn_shaper.specs.Refinement.Arriving.{ArrivesAt, CanJoin, HasOneMore, Joins, JoinsQueue, is_idle};
ghost use Rattle.dn_shaper.specs.Refinement.Views.{LinkView, IsAlone, queue_lengths, view_of, views_of};
ghost use Rattle.dn_flows.specs.declared.home.Home.{Home as HomeValue};

use crate::links::link_parts::{Carries, LinkParts};
use crate::links::parts::Parts;
use dn_flows::{Flows, Home, Waiting};
use dn_types::{Len, Weight};

/// Whether no packet waits for the link and it is free by the moment.
#[inline(always)]
pub fn is_idle(link: &LinkParts, flows: &Flows, at: u64) -> bool
    ensures { result ≡ is_idle at (view_of (queue_lengths flows.now.flows) link.now) }
{
    !link.has_backlog(flows) && link.times.free() <= at
}

/// A packet joins those that wait for the link, which isn't idle.
///
/// On a link of its own it joins them by its flow's queue alone, and on a shared one here too.
fn join_link(link: &mut LinkParts, slot: usize, len: Len, weight: Weight)
    requires can { (queues : ℕ → ℕ) × CanJoin slot (view_of queues link.old) (view_of queues link.old).link }
    ensures joins { (before after : ℕ → ℕ) → HasOneMore before after (view_of after link.old).link → Joins slot len weight false (view_of before link.old) (view_of after link.new) }
{
    if let Carries::Shared(shared) = &mut link.carries {
        shared.sched.arrive(slot, len, weight);
    }
}

/// A packet is accepted, and waits in its flow's queue.
pub fn join_queue(parts: &mut Parts, flow: usize, len: Len, weight: Weight)
    requires within { flow < length parts.old.flows.flows }
    requires reserved { (flow_at parts.old.flows.flows flow).reserved ≡ true }
    requires bytes { sum (lengths (flow_at parts.old.flows.flows flow).backlog) + len < 2 ^ 32 }
    requires accepted { parts.old.accepted < 2 ^ 62 }
    requires waiting { parts.old.waiting < 2 ^ 62 }
    ensures { JoinsQueue flow len weight parts.old parts.new }
{
    let waiting = Waiting {
        packet: parts.accepted,
        len,
        weight,
    };
    parts.flows.push_reserved(flow, waiting);
    parts.accepted += 1;
    parts.waiting += 1;
}

/// A packet is accepted at a moment at which the link of its home isn't idle, and waits there.
pub fn arrive(parts: &mut Parts, home: Home, flow: usize, len: Len, weight: Weight)
    requires can { (v : LinkView) × (slice_get (views_of parts.old) home.place ≡ Some v) × CanJoin home.slot v v.link }
    requires alone { IsAlone flow home.place (views_of parts.old) }
    requires within { flow < length parts.old.flows.flows }
    requires reserved { (flow_at parts.old.flows.flows flow).reserved ≡ true }
    requires bytes { sum (lengths (flow_at parts.old.flows.flows flow).backlog) + len < 2 ^ 32 }
    requires accepted { parts.old.accepted < 2 ^ 62 }
    requires waiting { parts.old.waiting < 2 ^ 62 }
    ensures { (at : ℕ) (v : LinkView) → slice_get (views_of parts.old) home.place ≡ Some v → is_idle at v ≡ false → ArrivesAt at home flow len weight false parts.old parts.new }
{
    let link = &mut parts.links[home.place as usize];
    join_link(link, home.slot as usize, len, weight);
    join_queue(parts, flow, len, weight);
}
