ghost use Rattle.std.specs.Prelude.{◌≡◌, ◌≢◌, ◌<◌, ◌⊎◌, [], length};
ghost use Rattle.dn_types.specs.Clock.{call_limit};
ghost use Rattle.hingetulip_c.specs.Handles.{After, IsClosed, LacksMemory, StillHeld};
ghost use Rattle.hingetulip_c.specs.Room.{AreAlike, HoldsRoomFor, IsOfNewFlow};
ghost use Rattle.hingetulip_c.specs.Submits.{InRange, FaultyOr, submit_of};
ghost use Rattle.hingetulip_c.specs.declared.records.c_packet.CPacket.{CPacket as PacketValue};

use crate::convert::sent_of;
use crate::handle::Handle;
use crate::records::CPacket;
use crate::status::{NEW_FLOW, OK};
use std::alloc::Global;

/// Makes room for a packet of a known flow, so that memory for its submit isn't refused. It counts as no call.
#[tactic(auto, using(crate::proofs::Rooms::room_of_alike, crate::proofs::Rooms::room_of_call))]
#[unsafe(no_mangle)]
pub extern "C" fn dn_reserve(alloc: Global, handle: &mut Handle, packet: &CPacket) -> u32
    ensures room { result ≡ 0 → (p : PacketValue) → AreAlike packet.now p → HoldsRoomFor (submit_of p) handle.new.held }
    ensures succeeds { HoldsRoomFor (submit_of packet.now) handle.old.held → result ≢ 6 }
    ensures new_flow { result ≡ 19 → After handle.old.held (λ rule calls. length calls < call_limit → IsOfNewFlow (submit_of packet.now) calls) }
    ensures same { StillHeld handle.old.held handle.new.held }
    ensures in_range { (result ≡ 0) ⊎ (result ≡ 19) → InRange packet.now }
    ensures closed { handle.old.held ≡ [] → (result ≢ 0) × (result ≢ 19) × (handle.new.held ≡ []) }
    ensures stays_open { handle.new.held ≡ [] → handle.old.held ≡ [] }
    ensures why { result ≢ 0 → result ≢ 19 → FaultyOr packet.now result (IsClosed handle.old.held result ⊎ LacksMemory handle.old.held result) }
{
    match sent_of(packet) {
        Err(status) => status,
        Ok(sent) => match handle.reserve(alloc, sent.target, &sent.packet) {
            Ok(true) => OK,
            Ok(false) => NEW_FLOW,
            Err(status) => status,
        },
    }
}
