ghost use Rattle.std.specs.Prelude.{◌≡◌, drop, length, min, take};
ghost use Rattle.hingetulip_c.specs.Lists.{deliveries_of, flows_of};

use crate::copy::{copy_deliveries, copy_flows};
use crate::records::{CDelivery, CFlow};
use dn_types::Reply;

/// The items from a place on.
#[tactic(auto, using(crate::proofs::Serving::rest_of))]
pub(crate) fn rest_from<T>(given: &[T], from: usize) -> &[T]
    ensures { result.now ≡ drop from given.now }
{
    &given[from.min(given.len())..]
}

/// The first items, at most so many.
#[tactic(auto, using(crate::proofs::Serving::front_of))]
pub(crate) fn first_of<T>(given: &[T], most: usize) -> &[T]
    ensures { result.now ≡ take most given.now }
{
    &given[..most.min(given.len())]
}

/// Writes the deliveries of a reply from a place on, as many as the list has room for.
#[tactic(auto, using(crate::proofs::Serving::part_copied))]
pub(crate) fn put_deliveries_from(reply: &Reply, from: usize, list: &mut [CDelivery]) -> usize
    ensures count { result ≡ min (length (drop from (deliveries_of reply.now))) (length list.old) }
    ensures list { take result list.new ≡ take result (drop from (deliveries_of reply.now)) }
    ensures others { drop result list.new ≡ drop result list.old }
{
    match reply {
        Reply::Delivered { at: _, list: given } => {
            let part = first_of(rest_from(given.as_slice(), from), list.len());
            copy_deliveries(part, list);
            part.len()
        }
        _ => 0,
    }
}

/// Writes the states of flows of a reply from a place on, as many as the list has room for.
#[tactic(auto, using(crate::proofs::Serving::part_copied))]
pub(crate) fn put_flows_from(reply: &Reply, from: usize, list: &mut [CFlow]) -> usize
    ensures count { result ≡ min (length (drop from (flows_of reply.now))) (length list.old) }
    ensures list { take result list.new ≡ take result (drop from (flows_of reply.now)) }
    ensures others { drop result list.new ≡ drop result list.old }
{
    match reply {
        Reply::Status { list: given } => {
            let part = first_of(rest_from(given.as_slice(), from), list.len());
            copy_flows(part, list);
            part.len()
        }
        _ => 0,
    }
}
