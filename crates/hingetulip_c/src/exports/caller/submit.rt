ghost use Rattle.std.specs.Prelude.{◌≡◌, ◌≢◌, true, false};
ghost use Rattle.hingetulip_c.specs.Clients.{AnsweredBy, RefusedBy, UnansweredBy, last_reply};
ghost use Rattle.hingetulip_c.specs.Statuses.{answered};
ghost use Rattle.hingetulip_c.specs.Submits.{InRange, FaultyOr, submit_of as call_of, fate_status, fate_of};

use crate::caller_handle::CallerHandle;
use crate::convert::submit_of;
use crate::records::{CFate, CPacket};
use crate::status::CLOSED;
use std::alloc::Global;

/// A packet arrives.
#[tactic(auto, using(crate::proofs::Serving::holds, crate::proofs::Serving::holds_both, crate::proofs::Serving::refused_by))]
#[unsafe(no_mangle)]
pub extern "C" fn dn_caller_submit(
    alloc: Global,
    caller: &mut CallerHandle,
    packet: &CPacket,
    fate: &mut CFate,
    holder: &mut u64,
) -> u32
    ensures in_range { answered result ≡ true → InRange packet.now }
    ensures refused { answered result ≡ false → RefusedBy result holder.new caller.old.held caller.new.held × (fate.new ≡ fate.old) }
    ensures why { answered result ≡ false → FaultyOr packet.now result (UnansweredBy holder.new caller.old.held result) }
    ensures holder { result ≢ 15 → holder.new ≡ holder.old }
    ensures answered { answered result ≡ true → AnsweredBy (call_of packet.now) caller.old.held caller.new.held }
    ensures status { answered result ≡ true → result ≡ fate_status (last_reply caller.new.held) }
    ensures fate { answered result ≡ true → fate.new ≡ fate_of fate.old (last_reply caller.new.held) }
{
    let call = match submit_of(packet) {
        Ok(call) => call,
        Err(status) => return status,
    };
    let Some(mut client) = caller.take(alloc) else {
        return CLOSED;
    };
    let status = client.submit(&call, fate, holder);
    let _none = caller.put(alloc, client);
    status
}
