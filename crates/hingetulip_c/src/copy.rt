ghost use Rattle.std.specs.Prelude.{◌≡◌, ◌≢◌, ◌≤◌, true, length, take, drop, map};
ghost use Rattle.dn_shaper.specs.Shaper.{items_in};
ghost use Rattle.hingetulip_c.specs.Lists.{c_delivery, c_flow, deliveries_of, flows_of};
ghost use Rattle.hingetulip_c.specs.Statuses.{answered, collect_status, collect_count, show_status, show_count};

use crate::records::{CDelivery, CFlow};
use crate::status::{EXHAUSTED, OK};
use dn_types::{Delivery, FlowStatus, Reply, Target};

pub(crate) fn delivery_of(delivery: &Delivery) -> CDelivery
    ensures { result ≡ c_delivery delivery.now }
{
    CDelivery {
        due: delivery.due,
        packet: delivery.packet,
        flow: delivery.flow as u64,
        start: delivery.start,
        reserved: 0,
    }
}

pub(crate) fn flow_of(flow: &FlowStatus) -> CFlow
    ensures { result ≡ c_flow flow.now }
{
    let (kind, number) = match flow.key.target {
        Target::Pipe(number) => (0, number),
        Target::Queue(number) => (1, number),
    };
    CFlow {
        flow: flow.flow as u64,
        queued: flow.queued,
        bytes: flow.bytes,
        lost: flow.lost,
        full: flow.full,
        started: flow.started,
        discarded: flow.discarded,
        src: flow.key.tuple.src,
        dst: flow.key.tuple.dst,
        sport: flow.key.tuple.sport,
        dport: flow.key.tuple.dport,
        number: number.get() as u16,
        pipe: flow.key.pipe.get() as u16,
        kind,
        proto: flow.key.tuple.proto,
        reserved: 0,
        reserved2: 0,
    }
}

#[tactic(auto, using(crate::proofs::Many::others_more))]
pub(crate) fn copy_deliveries(given: &[Delivery], list: &mut [CDelivery])
    requires { length given.now ≤ length list.old }
    ensures written { take (length given.now) list.new ≡ map c_delivery given.now }
    ensures others { drop (length given.now) list.new ≡ drop (length given.now) list.old }
{
    for i in 0..given.len() {
        list[i] = delivery_of(&given[i]);
    }
}

#[tactic(auto, using(crate::proofs::Many::others_more))]
pub(crate) fn copy_flows(given: &[FlowStatus], list: &mut [CFlow])
    requires { length given.now ≤ length list.old }
    ensures written { take (length given.now) list.new ≡ map c_flow given.now }
    ensures others { drop (length given.now) list.new ≡ drop (length given.now) list.old }
{
    for i in 0..given.len() {
        list[i] = flow_of(&given[i]);
    }
}

/// Writes the deliveries of a reply, where the list has room for them, and how many there are.
pub(crate) fn put_deliveries(reply: &Reply, list: &mut [CDelivery], count: &mut u64) -> u32
    ensures answered { answered result ≡ true }
    ensures status { result ≡ collect_status reply.now }
    ensures no_list { result ≢ 0 → list.new ≡ list.old }
    ensures count { count.new ≡ collect_count count.old reply.now }
    ensures list { items_in reply.now ≤ length list.old → take (length (deliveries_of reply.now)) list.new ≡ deliveries_of reply.now }
    ensures others { result ≡ 0 → drop count.new list.new ≡ drop count.new list.old }
{
    match reply {
        Reply::Delivered { at: _, list: given } => {
            let given = given.as_slice();
            if given.len() <= list.len() {
                copy_deliveries(given, list);
            }
            *count = given.len() as u64;
            OK
        }
        _ => EXHAUSTED,
    }
}

/// Writes the states of flows of a reply, where the list has room for them, and how many there are.
pub(crate) fn put_flows(reply: &Reply, list: &mut [CFlow], count: &mut u64) -> u32
    ensures answered { answered result ≡ true }
    ensures status { result ≡ show_status reply.now }
    ensures no_list { result ≢ 0 → list.new ≡ list.old }
    ensures count { count.new ≡ show_count count.old reply.now }
    ensures list { items_in reply.now ≤ length list.old → take (length (flows_of reply.now)) list.new ≡ flows_of reply.now }
    ensures others { result ≡ 0 → drop count.new list.new ≡ drop count.new list.old }
{
    match reply {
        Reply::Status { list: given } => {
            let given = given.as_slice();
            if given.len() <= list.len() {
                copy_flows(given, list);
            }
            *count = given.len() as u64;
            OK
        }
        _ => EXHAUSTED,
    }
}
