ghost use Rattle.std.specs.Prelude.{◌≡◌, ◌≢◌, true, false};
ghost use Rattle.dn_types.specs.declared.call.Call.TheVariants.{Show as ShowCall};
ghost use Rattle.hingetulip_c.specs.Clients.{AnsweredBy, RefusedBy, UnansweredBy, last_reply};
ghost use Rattle.hingetulip_c.specs.Statuses.{answered, show_status, show_count};

use crate::caller_handle::CallerHandle;
use crate::exports::caller::listing::call_for_list;
use dn_types::Call;
use std::alloc::Global;

/// Shows the state of all flows, and writes how many they are.
#[unsafe(no_mangle)]
pub extern "C" fn dn_caller_show(
    alloc: Global,
    caller: &mut CallerHandle,
    count: &mut u64,
    holder: &mut u64,
) -> u32
    ensures refused { answered result ≡ false → RefusedBy result holder.new caller.old.held caller.new.held × (count.new ≡ count.old) }
    ensures why { answered result ≡ false → UnansweredBy holder.new caller.old.held result }
    ensures holder { result ≢ 15 → holder.new ≡ holder.old }
    ensures answered { answered result ≡ true → AnsweredBy ShowCall caller.old.held caller.new.held }
    ensures status { answered result ≡ true → result ≡ show_status (last_reply caller.new.held) }
    ensures count { answered result ≡ true → count.new ≡ show_count count.old (last_reply caller.new.held) }
{
    call_for_list(alloc, caller, &Call::Show, count, holder)
}
