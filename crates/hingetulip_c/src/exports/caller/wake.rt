ghost use Rattle.std.specs.Prelude.{◌≡◌, ◌≢◌, ◌⊎◌};
ghost use Rattle.hingetulip_c.specs.Clients.{IsBusyWith, RefusedBy, WokeBy};
ghost use Rattle.hingetulip_c.specs.Handles.{IsClosed};

use crate::caller_handle::CallerHandle;
use crate::status::CLOSED;
use std::alloc::Global;

/// Writes the first moment at which a packet is due or starts, if no other call comes.
///
/// It is 2^64 - 1 if no packet waits or is under way.
#[tactic(auto, using(crate::proofs::Serving::holds, crate::proofs::Serving::holds_both, crate::proofs::Serving::refused_by))]
#[unsafe(no_mangle)]
pub extern "C" fn dn_caller_wake(
    alloc: Global,
    caller: &mut CallerHandle,
    moment: &mut u64,
    holder: &mut u64,
) -> u32
    ensures woke { result ≡ 0 → WokeBy moment.new caller.old.held caller.new.held }
    ensures refused { result ≢ 0 → RefusedBy result holder.new caller.old.held caller.new.held × (moment.new ≡ moment.old) }
    ensures why { result ≢ 0 → IsClosed caller.old.held result ⊎ ((result ≡ 15) × IsBusyWith holder.new caller.old.held) }
    ensures holder { result ≢ 15 → holder.new ≡ holder.old }
{
    let Some(mut client) = caller.take(alloc) else {
        return CLOSED;
    };
    let status = client.wake(moment, holder);
    let _none = caller.put(alloc, client);
    status
}
