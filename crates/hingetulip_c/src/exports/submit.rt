ghost use Rattle.std.specs.Prelude.{◌≡◌, ◌≢◌, [], true, false};
ghost use Rattle.hingetulip_c.specs.Handles.{HeldMore, IfReply, StillHeld, Unanswered};
ghost use Rattle.hingetulip_c.specs.Room.{HoldsRoomFor};
ghost use Rattle.hingetulip_c.specs.Statuses.{answered};
ghost use Rattle.hingetulip_c.specs.Submits.{InRange, FaultyOr, submit_of as call_of, fate_status, fate_of};

use crate::convert::submit_of;
use crate::handle::Handle;
use crate::records::{CFate, CPacket};
use crate::written::put_fate;
use std::alloc::Global;

/// A packet arrives.
#[tactic(auto, using(crate::proofs::Rooms::room_of_call))]
#[unsafe(no_mangle)]
pub extern "C" fn dn_submit(
    alloc: Global,
    handle: &mut Handle,
    packet: &CPacket,
    fate: &mut CFate,
) -> u32
    ensures in_range { answered result ≡ true → InRange packet.now }
    ensures closed { handle.old.held ≡ [] → (answered result ≡ false) × (handle.new.held ≡ []) }
    ensures stays_open { handle.new.held ≡ [] → handle.old.held ≡ [] }
    ensures refused { answered result ≡ false → StillHeld handle.old.held handle.new.held }
    ensures no_fate { answered result ≡ false → fate.new ≡ fate.old }
    ensures why { answered result ≡ false → FaultyOr packet.now result (Unanswered (call_of packet.now) handle.old.held result) }
    ensures succeeds { HoldsRoomFor (call_of packet.now) handle.old.held → result ≢ 6 }
    ensures status { answered result ≡ true → IfReply handle.old.held (call_of packet.now) (λ r. result ≡ fate_status r) }
    ensures fate { answered result ≡ true → IfReply handle.old.held (call_of packet.now) (λ r. fate.new ≡ fate_of fate.old r) }
    ensures stands { answered result ≡ true → HeldMore (call_of packet.now) handle.old.held handle.new.held }
{
    match submit_of(packet) {
        Err(status) => status,
        Ok(call) => match handle.apply(alloc, &call) {
            Ok(reply) => put_fate(&reply, fate),
            Err(status) => status,
        },
    }
}
