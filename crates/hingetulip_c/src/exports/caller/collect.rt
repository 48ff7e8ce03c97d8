ghost use Rattle.std.specs.Prelude.{◌≡◌, ◌≢◌, ◌^◌, ◌≤◌, true, false};
ghost use Rattle.dn_types.specs.declared.call.Call.TheVariants.{Collect};
ghost use Rattle.hingetulip_c.specs.Clients.{AnsweredBy, RefusedBy, UnansweredBy, last_reply};
ghost use Rattle.hingetulip_c.specs.Statuses.{answered, collect_status, collect_count};
ghost use Rattle.hingetulip_c.specs.Submits.{FaultyMomentOr};

use crate::caller_handle::CallerHandle;
use crate::exports::caller::listing::call_for_list;
use crate::status::BAD_MOMENT;
use dn_types::{Call, Moment};
use std::alloc::Global;

/// Moves the clock, takes the packets that are due, and writes how many they are.
#[unsafe(no_mangle)]
pub extern "C" fn dn_caller_collect(
    alloc: Global,
    caller: &mut CallerHandle,
    moment: u64,
    count: &mut u64,
    holder: &mut u64,
) -> u32
    ensures in_range { answered result ≡ true → moment ≤ 2 ^ 62 }
    ensures refused { answered result ≡ false → RefusedBy result holder.new caller.old.held caller.new.held × (count.new ≡ count.old) }
    ensures why { answered result ≡ false → FaultyMomentOr moment result (UnansweredBy holder.new caller.old.held result) }
    ensures holder { result ≢ 15 → holder.new ≡ holder.old }
    ensures answered { answered result ≡ true → AnsweredBy (Collect moment) caller.old.held caller.new.held }
    ensures status { answered result ≡ true → result ≡ collect_status (last_reply caller.new.held) }
    ensures count { answered result ≡ true → count.new ≡ collect_count count.old (last_reply caller.new.held) }
{
    let Some(moment) = Moment::new(moment) else {
        return BAD_MOMENT;
    };
    let call = Call::Collect(moment);
    call_for_list(alloc, caller, &call, count, holder)
}
