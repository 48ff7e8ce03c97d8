ghost use Rattle.std.specs.Prelude.{◌≡◌, ◌≢◌, ◌<◌, ◌↔◌, [], drop, get_or, length, take};
ghost use Rattle.dn_types.specs.declared.reply.Reply.TheVariants.{Exhausted};
ghost use Rattle.hingetulip_c.specs.Handles.{After, AnswersAfter, HeldAfter};
ghost use Rattle.hingetulip_c.specs.Many.{AreTold, StopsAt, sent};
ghost use Rattle.hingetulip_c.specs.Submits.{submit_of};
ghost use Rattle.hingetulip_c.specs.declared.records.c_packet.CPacket.{CPacket as PacketValue};

use crate::exports::submit::dn_submit;
use crate::handle::Handle;
use crate::records::{CFate, CPacket};
use crate::status::{OK, ROOM};
use std::alloc::Global;

/// Packets arrive one after the other, until one isn't answered.
#[unsafe(no_mangle)]
pub extern "C" fn dn_submit_many(
    alloc: Global,
    handle: &mut Handle,
    packets: &[CPacket],
    fates: &mut [CFate],
    done: &mut u64,
) -> u32
    ensures room { (result ≡ 7) ↔ (length fates.old < length packets.now) }
    ensures closed { handle.old.held ≡ [] → (result ≢ 1) × (done.new ≡ 0) × (handle.new.held ≡ []) }
    ensures stays_open { handle.new.held ≡ [] → handle.old.held ≡ [] }
    ensures none { result ≡ 7 → done.new ≡ 0 }
    ensures all { result ≡ 0 → done.new ≡ length packets.now }
    ensures stops { result ≢ 0 → result ≢ 7 → done.new < length packets.now }
    ensures why { result ≢ 0 → result ≢ 1 → result ≢ 7 → (p : PacketValue) → StopsAt done.new packets.now p handle.old.held result }
    ensures fates { After handle.old.held (λ rule calls. AreTold done.new rule calls packets.now fates.old fates.new) }
    ensures others { drop done.new fates.new ≡ drop done.new fates.old }
    ensures stands { result ≢ 1 → After handle.old.held (λ rule calls. HeldAfter rule handle.new.held (sent (take done.new packets.now) calls)) }
    ensures exhausted { result ≡ 1 → (p : PacketValue) → AnswersAfter (sent (take done.new packets.now))
        (submit_of (get_or packets.now done.new p)) handle.old.held handle.new.held Exhausted }
{
    if fates.len() < packets.len() {
        *done = 0;
        return ROOM;
    }
    for i in 0..packets.len() {
        let mut fate = fates[i];
        let status = dn_submit(alloc, handle, &packets[i], &mut fate);
        if status != OK {
            *done = i as u64;
            return status;
        }
        fates[i] = fate;
    }
    *done = packets.len() as u64;
    OK
}
