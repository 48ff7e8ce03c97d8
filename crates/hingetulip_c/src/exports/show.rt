ghost use Rattle.std.specs.Prelude.{◌≡◌, ◌≢◌, ◌<◌, ◌⊎◌, [], true, false, length, take, drop};
ghost use Rattle.dn_types.specs.declared.call.Call.TheVariants.{Show as ShowCall};
ghost use Rattle.hingetulip_c.specs.Handles.{After, HeldMore, IfReply, StillHeld, Unanswered};
ghost use Rattle.hingetulip_c.specs.Lists.{flows_after, flows_of};
ghost use Rattle.hingetulip_c.specs.Room.{StillRoomy};
ghost use Rattle.hingetulip_c.specs.Statuses.{answered, show_status, show_count};

use crate::copy::put_flows;
use crate::handle::Handle;
use crate::records::CFlow;
use crate::status::{CLOSED, ROOM};
use dn_types::Call;
use std::alloc::Global;

/// Tells the state of all flows.
#[tactic(auto, using(crate::proofs::Rooms::roomy_same))]
#[unsafe(no_mangle)]
pub extern "C" fn dn_show(
    alloc: Global,
    handle: &mut Handle,
    list: &mut [CFlow],
    count: &mut u64,
) -> u32
    ensures closed { handle.old.held ≡ [] → (answered result ≡ false) × (handle.new.held ≡ []) }
    ensures refused { answered result ≡ false → StillHeld handle.old.held handle.new.held }
    ensures no_list { result ≢ 0 → list.new ≡ list.old }
    ensures no_count { answered result ≡ false → result ≢ 7 → count.new ≡ count.old }
    ensures why { answered result ≡ false → Unanswered ShowCall handle.old.held result ⊎ ((result ≡ 7) × (handle.old.held ≢ [])) }
    ensures room { result ≡ 7 → After handle.old.held (λ rule calls. (count.new ≡ flows_after calls) × (length list.old < flows_after calls)) }
    ensures status { answered result ≡ true → IfReply handle.old.held ShowCall (λ r. result ≡ show_status r) }
    ensures count { answered result ≡ true → IfReply handle.old.held ShowCall (λ r. count.new ≡ show_count count.old r) }
    ensures list { answered result ≡ true → IfReply handle.old.held ShowCall (λ r. take (length (flows_of r)) list.new ≡ flows_of r) }
    ensures others { result ≡ 0 → drop count.new list.new ≡ drop count.new list.old }
    ensures stands { answered result ≡ true → HeldMore ShowCall handle.old.held handle.new.held }
    ensures leaves { StillRoomy handle.old.held handle.new.held }
{
    let Some(room) = handle.room_for_flows(alloc) else {
        return CLOSED;
    };
    if list.len() < room {
        *count = room as u64;
        return ROOM;
    }
    match handle.apply(alloc, &Call::Show) {
        Ok(reply) => put_flows(&reply, list, count),
        Err(status) => status,
    }
}
