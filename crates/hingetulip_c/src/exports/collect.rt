ghost use Rattle.std.specs.Prelude.{◌≡◌, ◌≢◌, ◌^◌, ◌<◌, ◌≤◌, ◌⊎◌, [], true, false, length, take, drop};
ghost use Rattle.dn_types.specs.declared.call.Call.TheVariants.{Collect};
ghost use Rattle.hingetulip_c.specs.Handles.{After, HeldMore, IfReply, StillHeld, Unanswered};
ghost use Rattle.hingetulip_c.specs.Lists.{deliveries_of, held_after};
ghost use Rattle.hingetulip_c.specs.Room.{StillRoomy};
ghost use Rattle.hingetulip_c.specs.Statuses.{answered, collect_status, collect_count};
ghost use Rattle.hingetulip_c.specs.Submits.{FaultyMomentOr};

use crate::copy::put_deliveries;
use crate::handle::Handle;
use crate::records::CDelivery;
use crate::status::{BAD_MOMENT, CLOSED, ROOM};
use dn_types::Moment;
use std::alloc::Global;

/// Moves the clock, and takes the packets that are due.
#[tactic(auto, using(crate::proofs::Rooms::roomy_same))]
#[unsafe(no_mangle)]
pub extern "C" fn dn_collect(
    alloc: Global,
    handle: &mut Handle,
    moment: u64,
    list: &mut [CDelivery],
    count: &mut u64,
) -> u32
    ensures closed { handle.old.held ≡ [] → (answered result ≡ false) × (handle.new.held ≡ []) }
    ensures refused { answered result ≡ false → StillHeld handle.old.held handle.new.held }
    ensures no_list { result ≢ 0 → list.new ≡ list.old }
    ensures no_count { answered result ≡ false → result ≢ 7 → count.new ≡ count.old }
    ensures why { answered result ≡ false → FaultyMomentOr moment result (Unanswered (Collect moment) handle.old.held result ⊎ ((result ≡ 7) × (handle.old.held ≢ []))) }
    ensures in_range { answered result ≡ true → moment ≤ 2 ^ 62 }
    ensures room { result ≡ 7 → After handle.old.held (λ rule calls. (count.new ≡ held_after rule calls) × (length list.old < held_after rule calls)) }
    ensures status { answered result ≡ true → IfReply handle.old.held (Collect moment) (λ r. result ≡ collect_status r) }
    ensures count { answered result ≡ true → IfReply handle.old.held (Collect moment) (λ r. count.new ≡ collect_count count.old r) }
    ensures list { answered result ≡ true → IfReply handle.old.held (Collect moment) (λ r. take (length (deliveries_of r)) list.new ≡ deliveries_of r) }
    ensures others { result ≡ 0 → drop count.new list.new ≡ drop count.new list.old }
    ensures stands { answered result ≡ true → HeldMore (Collect moment) handle.old.held handle.new.held }
    ensures leaves { StillRoomy handle.old.held handle.new.held }
{
    let Some(moment) = Moment::new(moment) else {
        return BAD_MOMENT;
    };
    let Some(room) = handle.room_for_deliveries(alloc) else {
        return CLOSED;
    };
    if list.len() < room {
        *count = room as u64;
        return ROOM;
    }
    match handle.collect(alloc, moment) {
        Ok(reply) => {
            let status = put_deliveries(&reply, list, count);
            handle.take_back(alloc, reply);
            status
        }
        Err(status) => status,
    }
}
