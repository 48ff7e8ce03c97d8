ghost use Rattle.std.specs.Prelude.{◌≡◌, ◌≢◌, ◌≤◌, ◌⊎◌, drop, length, take};
ghost use Rattle.hingetulip_c.specs.Submits.{InRange, submit_of};
ghost use Rattle.hingetulip_c.specs.Texts.{entry_text, told_by, FaultySubmit, IsFate, LacksRoom};

use crate::entries::submit_entry;
use crate::history_lines::put_entry;
use crate::records::{CFate, CPacket};
use std::alloc::Global;

/// Writes a packet's submit and its fate, as lines of a history file.
#[unsafe(no_mangle)]
pub extern "C" fn dn_submit_text(
    alloc: Global,
    caller: u64,
    packet: &CPacket,
    fate: &CFate,
    text: &mut [u8],
    size: &mut u64,
) -> u32
    ensures wrote { result ≡ 0
        → take size.new text.new ≡ entry_text caller (submit_of packet.now) (told_by fate.now) }
    ensures others { result ≡ 0 → drop size.new text.new ≡ drop size.new text.old }
    ensures in_range { (result ≡ 0) ⊎ (result ≡ 6) ⊎ (result ≡ 7)
        → (caller ≤ 15) × InRange packet.now × IsFate fate.now }
    ensures size { (result ≡ 0) ⊎ (result ≡ 7)
        → size.new ≡ length (entry_text caller (submit_of packet.now) (told_by fate.now)) }
    ensures refused { result ≢ 0 → text.new ≡ text.old }
    ensures no_size { result ≢ 0 → result ≢ 7 → size.new ≡ size.old }
    ensures why { result ≢ 0 → FaultySubmit caller packet.now fate.now result ⊎ LacksRoom text.old size.new result }
{
    match submit_entry(caller, packet, fate) {
        Ok(entry) => put_entry(alloc, &entry, text, size),
        Err(status) => status,
    }
}
