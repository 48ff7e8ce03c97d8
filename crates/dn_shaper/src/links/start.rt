ghost use Rattle.std.specs.Prelude.{◌≡◌, ℕ, ◌+◌, ◌*◌, ◌^◌, ◌<◌, ◌≤◌, slice_get, slice_set, length};
ghost use Rattle.dn_types.specs.Deliveries.{in_order};
ghost use Rattle.dn_types.specs.Links.{transmission_time, due_by};
ghost use Rattle.dn_shaper.specs.Refinement.Views.{queue_lengths, view_of, TakesNext, CanSend};
ghost use Rattle.dn_shaper.specs.Refinement.Agreement.{Agrees};
ghost use Rattle.dn_shaper.specs.Refinement.Sending.{HasQueues};
ghost use Rattle.dn_shaper.specs.Refinement.Starting.{HasFront, StartsOn, KeepsSchedule, Within, CanStart, StartsAt};

use crate::links::link_parts::{Carries, LinkParts};
use crate::links::parts::Parts;
use crate::settings::rates::Rates;
use dn_flows::{Flows, Waiting};
use dn_link::{DelayLine, Link, tx_time};
use dn_types::{Delivery, Rule};

/// The flow whose packet the link sends next. On a shared link that is the scheduler's pick.
fn next_flow(link: &mut LinkParts, flows: &Flows) -> usize
    requires can { (queues : ℕ → ℕ) × CanSend (view_of queues link.old) (view_of queues link.old).link }
    requires queues { (queues : ℕ → ℕ) × HasQueues (view_of queues link.old) flows.now.flows (view_of queues link.old).link }
    ensures takes { (before after : ℕ → ℕ) → TakesNext result (view_of before link.old) (view_of after link.new) }
    ensures keeps { (before after : ℕ → ℕ) → KeepsSchedule (view_of before link.old) (view_of after link.new) }
{
    match &mut link.carries {
        Carries::Own(flow) => *flow,
        Carries::Shared(shared) => shared.send_next(flows),
    }
}

/// The transmission of the packet begins, and it is under way.
#[inline(always)]
pub fn send(
    rule: Rule,
    rates: &Rates,
    link: &mut Link,
    flow: usize,
    packet: Waiting,
    moment: u64,
    line: &mut DelayLine,
)
    requires free { link.old.free ≤ moment }
    requires early { moment ≤ 2 ^ 62 }
    requires room { 0 < line.old.room }
    requires pushed { line.old.pushed < 2 ^ 62 }
    ensures free { link.new.free ≡ moment + transmission_time rates.now.bandwidth packet.len }
    ensures last_due { link.new.last_due ≡ due_by rule (moment + transmission_time rates.now.bandwidth packet.len + rates.now.delay * 1000000) link.old.last_due }
    ensures pending { line.new.pending ≡ in_order (record { due = link.new.last_due; packet = packet.packet; flow = flow; start = moment }) line.old.pending }
    ensures room { line.new.room + 1 ≡ line.old.room }
    ensures pushed { line.new.pushed ≡ line.old.pushed + 1 }
{
    // The proof takes the bound of the delay from this.
    let _delay = rates.delay.get();
    let transmission = tx_time(packet.len, rates.bandwidth);
    link.begin(moment, transmission);
    let due = link.deliver(moment, transmission, rates.delay, rule);
    // There is room for each packet that waits and for each flow with a reserved place (`Within`). reserve.rt made it.
    line.push_reserved(Delivery {
        due,
        packet: packet.packet,
        flow,
        start: moment,
    });
}

/// The link's next packet leaves its queue and is sent at the moment.
#[inline(always)]
fn start_one(
    rule: Rule,
    rates: &Rates,
    moment: u64,
    link: &mut LinkParts,
    flows: &mut Flows,
    line: &mut DelayLine,
)
    requires sends { CanSend (view_of (queue_lengths flows.old.flows) link.old) (view_of (queue_lengths flows.old.flows) link.old).link }
    requires queues { HasQueues (view_of (queue_lengths flows.old.flows) link.old) flows.old.flows (view_of (queue_lengths flows.old.flows) link.old).link }
    requires front { HasFront (view_of (queue_lengths flows.old.flows) link.old) flows.old.flows }
    requires free { link.old.times.free ≤ moment }
    requires early { moment ≤ 2 ^ 62 }
    requires room { 0 < line.old.room }
    requires pushed { line.old.pushed < 2 ^ 62 }
    ensures starts { StartsOn rule rates.now.bandwidth rates.now.delay moment link.old flows.old.flows line.old.pending link.new flows.new.flows line.new.pending }
    ensures keeps { KeepsSchedule (view_of (queue_lengths flows.old.flows) link.old) (view_of (queue_lengths flows.new.flows) link.new) }
    ensures keys { flows.new.keys ≡ flows.old.keys }
    ensures room { line.new.room + 1 ≡ line.old.room }
    ensures pushed { line.new.pushed ≡ line.old.pushed + 1 }
{
    let flow = next_flow(link, flows);
    let packet = flows.pop_front(flow).unwrap();
    send(rule, rates, &mut link.times, flow, packet, moment, line);
}

/// The next packet of the link at the place is sent at the moment.
#[inline(always)]
pub fn start_next(parts: &mut Parts, place: usize, moment: u64, rates: &Rates)
    requires agrees { Agrees parts.old }
    requires within { Within (2 ^ 62) parts.old }
    requires can { CanStart parts.old place moment }
    requires early { moment ≤ 2 ^ 62 }
    ensures starts { StartsAt place moment rates.now.bandwidth rates.now.delay parts.old parts.new }
{
    let link = &mut parts.links[place];
    start_one(
        parts.rule,
        rates,
        moment,
        link,
        &mut parts.flows,
        &mut parts.line,
    );
    parts.waiting -= 1;
}
