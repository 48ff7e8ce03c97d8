ghost use Rattle.std.specs.Prelude.{◌≡◌, ◌⊎◌, drop, length, min, take};
ghost use Rattle.hingetulip_c.specs.Clients.{last_reply};
ghost use Rattle.hingetulip_c.specs.Handles.{IsClosed};
ghost use Rattle.hingetulip_c.specs.Lists.{deliveries_of};

use crate::caller_handle::CallerHandle;
use crate::copy_part::put_deliveries_from;
use crate::records::CDelivery;
use crate::status::{CLOSED, OK};
use std::alloc::Global;

/// Writes the packets that the caller's last collect gave, from a place on, as many as the list has room for.
#[unsafe(no_mangle)]
pub extern "C" fn dn_caller_deliveries(
    alloc: Global,
    caller: &mut CallerHandle,
    from: usize,
    list: &mut [CDelivery],
    count: &mut u64,
) -> u32
    ensures same { caller.new.held ≡ caller.old.held }
    ensures statuses { (result ≡ 0) ⊎ (IsClosed caller.old.held result × (list.new ≡ list.old) × (count.new ≡ count.old)) }
    ensures count { result ≡ 0 → count.new ≡ min (length (drop from (deliveries_of (last_reply caller.old.held)))) (length list.old) }
    ensures list { result ≡ 0 → take count.new list.new ≡ take count.new (drop from (deliveries_of (last_reply caller.old.held))) }
    ensures others { result ≡ 0 → drop count.new list.new ≡ drop count.new list.old }
{
    let Some(client) = caller.take(alloc) else {
        return CLOSED;
    };
    *count = put_deliveries_from(&client.last, from, list) as u64;
    let _none = caller.put(alloc, client);
    OK
}
