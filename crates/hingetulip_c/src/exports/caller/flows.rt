ghost use Rattle.std.specs.Prelude.{◌≡◌, ◌⊎◌, drop, length, min, take};
ghost use Rattle.hingetulip_c.specs.Clients.{last_reply};
ghost use Rattle.hingetulip_c.specs.Handles.{IsClosed};
ghost use Rattle.hingetulip_c.specs.Lists.{flows_of};

use crate::caller_handle::CallerHandle;
use crate::copy_part::put_flows_from;
use crate::records::CFlow;
use crate::status::{CLOSED, OK};
use std::alloc::Global;

/// Writes the states of flows that the caller's last show gave, from a place on, as many as the list has room for.
#[unsafe(no_mangle)]
pub extern "C" fn dn_caller_flows(
    alloc: Global,
    caller: &mut CallerHandle,
    from: usize,
    list: &mut [CFlow],
    count: &mut u64,
) -> u32
    ensures same { caller.new.held ≡ caller.old.held }
    ensures statuses { (result ≡ 0) ⊎ (IsClosed caller.old.held result × (list.new ≡ list.old) × (count.new ≡ count.old)) }
    ensures count { result ≡ 0 → count.new ≡ min (length (drop from (flows_of (last_reply caller.old.held)))) (length list.old) }
    ensures list { result ≡ 0 → take count.new list.new ≡ take count.new (drop from (flows_of (last_reply caller.old.held))) }
    ensures others { result ≡ 0 → drop count.new list.new ≡ drop count.new list.old }
{
    let Some(client) = caller.take(alloc) else {
        return CLOSED;
    };
    *count = put_flows_from(&client.last, from, list) as u64;
    let _none = caller.put(alloc, client);
    OK
}
