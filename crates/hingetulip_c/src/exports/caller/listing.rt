ghost use Rattle.std.specs.Prelude.{◌≡◌, ◌≢◌, true, false};
ghost use Rattle.hingetulip_c.specs.Clients.{AnsweredBy, RefusedBy, UnansweredBy, last_reply};
ghost use Rattle.hingetulip_c.specs.Statuses.{answered, list_status, list_count};

use crate::caller_handle::CallerHandle;
use crate::status::CLOSED;
use dn_types::Call;
use std::alloc::Global;

/// Makes a Collect or a Show, and writes how many items the list of its reply has. The caller keeps the reply.
#[tactic(auto, using(crate::proofs::Serving::holds, crate::proofs::Serving::holds_both, crate::proofs::Serving::refused_by))]
pub(crate) fn call_for_list(
    alloc: Global,
    caller: &mut CallerHandle,
    call: &Call,
    count: &mut u64,
    holder: &mut u64,
) -> u32
    ensures refused { answered result ≡ false → RefusedBy result holder.new caller.old.held caller.new.held × (count.new ≡ count.old) }
    ensures why { answered result ≡ false → UnansweredBy holder.new caller.old.held result }
    ensures holder { result ≢ 15 → holder.new ≡ holder.old }
    ensures answered { answered result ≡ true → AnsweredBy call.now caller.old.held caller.new.held }
    ensures status { answered result ≡ true → result ≡ list_status (last_reply caller.new.held) }
    ensures count { answered result ≡ true → count.new ≡ list_count count.old (last_reply caller.new.held) }
{
    let Some(mut client) = caller.take(alloc) else {
        return CLOSED;
    };
    let status = client.list(call, count, holder);
    let _none = caller.put(alloc, client);
    status
}
