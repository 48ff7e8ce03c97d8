ghost use Rattle.std.specs.Prelude.{◌≡◌, ◌<◌, ◌⊎◌, ℕ, max, []};
ghost use Rattle.dn_types.specs.Calls.{trace_of};
ghost use Rattle.dn_types.specs.Clock.{counted, effective_moment};
ghost use Rattle.dn_types.specs.Replies.{reply};
ghost use Rattle.dn_types.specs.declared.call.Call.TheVariants.{Collect};
ghost use Rattle.dn_shaper.specs.Shaper.{items_in};
ghost use Rattle.dn_shaper.specs.Waking.{wake_of};
ghost use Rattle.hingetulip_c.specs.Handles.{After, IsClosed};
ghost use Rattle.hingetulip_c.specs.Statuses.{told_moment};

use crate::handle::Handle;
use crate::status::{CLOSED, OK};
use crate::written::or_never;
use std::alloc::Global;

/// The first moment at which a packet is due or starts, if no other call comes, and 2^64 - 1 where none waits or is under way.
#[unsafe(no_mangle)]
pub extern "C" fn dn_wake(alloc: Global, handle: &mut Handle, moment: &mut u64) -> u32
    ensures closed { handle.old.held ≡ [] → result ≡ 5 }
    ensures same { handle.new.held ≡ handle.old.held }
    ensures statuses { (result ≡ 0) ⊎ (IsClosed handle.old.held result × (moment.new ≡ moment.old)) }
    ensures value { result ≡ 0 → After handle.old.held (λ rule calls. moment.new ≡ told_moment (wake_of rule (trace_of (counted calls)))) }
    ensures quiet { result ≡ 0 → After handle.old.held (λ rule calls. (at : ℕ)
        → max (effective_moment (counted calls)) at < moment.new → items_in (reply rule calls (Collect at)) ≡ 0) }
{
    let Some(shaper) = handle.take(alloc) else {
        return CLOSED;
    };
    *moment = or_never(shaper.wake());
    let _none = handle.put(alloc, shaper);
    OK
}
