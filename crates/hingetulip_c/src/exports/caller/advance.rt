ghost use Rattle.std.specs.Prelude.{◌≡◌, ◌≢◌, ◌^◌, ◌≤◌, true, false};
ghost use Rattle.dn_types.specs.declared.call.Call.TheVariants.{Advance};
ghost use Rattle.hingetulip_c.specs.Clients.{AnsweredBy, RefusedBy, UnansweredBy, last_reply};
ghost use Rattle.hingetulip_c.specs.Statuses.{answered, clock_status, clock_of};
ghost use Rattle.hingetulip_c.specs.Submits.{FaultyMomentOr};

use crate::caller_handle::CallerHandle;
use crate::status::{BAD_MOMENT, CLOSED};
use dn_types::{Call, Moment};
use std::alloc::Global;

/// Moves the clock, and writes where it is.
#[tactic(auto, using(crate::proofs::Serving::holds, crate::proofs::Serving::holds_both, crate::proofs::Serving::refused_by))]
#[unsafe(no_mangle)]
pub extern "C" fn dn_caller_advance(
    alloc: Global,
    caller: &mut CallerHandle,
    moment: u64,
    at: &mut u64,
    holder: &mut u64,
) -> u32
    ensures in_range { answered result ≡ true → moment ≤ 2 ^ 62 }
    ensures refused { answered result ≡ false → RefusedBy result holder.new caller.old.held caller.new.held × (at.new ≡ at.old) }
    ensures why { answered result ≡ false → FaultyMomentOr moment result (UnansweredBy holder.new caller.old.held result) }
    ensures holder { result ≢ 15 → holder.new ≡ holder.old }
    ensures answered { answered result ≡ true → AnsweredBy (Advance moment) caller.old.held caller.new.held }
    ensures status { answered result ≡ true → result ≡ clock_status (last_reply caller.new.held) }
    ensures clock { answered result ≡ true → at.new ≡ clock_of at.old (last_reply caller.new.held) }
{
    let Some(moment) = Moment::new(moment) else {
        return BAD_MOMENT;
    };
    let call = Call::Advance(moment);
    let Some(mut client) = caller.take(alloc) else {
        return CLOSED;
    };
    let status = client.advance(&call, at, holder);
    let _none = caller.put(alloc, client);
    status
}
