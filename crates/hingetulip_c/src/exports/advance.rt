ghost use Rattle.std.specs.Prelude.{◌≡◌, ◌^◌, ◌≤◌, [], true, false};
ghost use Rattle.dn_types.specs.declared.call.Call.TheVariants.{Advance};
ghost use Rattle.hingetulip_c.specs.Handles.{HeldMore, IfReply, IsClosed, StillHeld};
ghost use Rattle.hingetulip_c.specs.Room.{StillRoomy};
ghost use Rattle.hingetulip_c.specs.Statuses.{answered, clock_status, clock_of};
ghost use Rattle.hingetulip_c.specs.Submits.{FaultyMomentOr};

use crate::handle::Handle;
use crate::status::BAD_MOMENT;
use crate::written::put_clock;
use dn_types::{Call, Moment};
use std::alloc::Global;

/// Moves the clock, and says where it stands.
#[tactic(auto, using(crate::proofs::Rooms::roomy_same))]
#[unsafe(no_mangle)]
pub extern "C" fn dn_advance(alloc: Global, handle: &mut Handle, moment: u64, at: &mut u64) -> u32
    ensures closed { handle.old.held ≡ [] → (answered result ≡ false) × (handle.new.held ≡ []) }
    ensures refused { answered result ≡ false → StillHeld handle.old.held handle.new.held }
    ensures no_clock { answered result ≡ false → at.new ≡ at.old }
    ensures why { answered result ≡ false → FaultyMomentOr moment result (IsClosed handle.old.held result) }
    ensures in_range { answered result ≡ true → moment ≤ 2 ^ 62 }
    ensures status { answered result ≡ true → IfReply handle.old.held (Advance moment) (λ r. result ≡ clock_status r) }
    ensures clock { answered result ≡ true → IfReply handle.old.held (Advance moment) (λ r. at.new ≡ clock_of at.old r) }
    ensures stands { answered result ≡ true → HeldMore (Advance moment) handle.old.held handle.new.held }
    ensures leaves { StillRoomy handle.old.held handle.new.held }
{
    let Some(moment) = Moment::new(moment) else {
        return BAD_MOMENT;
    };
    match handle.apply(alloc, &Call::Advance(moment)) {
        Ok(reply) => put_clock(&reply, at),
        Err(status) => status,
    }
}
