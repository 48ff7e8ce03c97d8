ghost use Rattle.std.specs.Prelude.{◌≡◌, ◌≢◌, ◌<◌, ◌≤◌, ◌⊎◌, [], Err, None, IsSome, drop, length, take};
ghost use Rattle.dn_files.specs.PacketParts.{rows_left};
ghost use Rattle.dn_files.specs.QuotedRow.{row_at_front};
ghost use Rattle.dn_files.specs.declared.replay_fault.ReplayFault.TheVariants.{BadRow};
ghost use Rattle.hingetulip_c.specs.Rows.{HasCount, HasRead};

use crate::records::CPacket;
use crate::rows::{copy_rows, read_all};
use crate::status::{MEMORY, OK};
use dn_files::rows_at_front;
use std::alloc::Global;

/// Reads packets of a packet file behind its header.
#[unsafe(no_mangle)]
#[tactic(auto, using(crate::proofs::PacketRows::front_read, crate::proofs::PacketRows::none_behind))]
pub extern "C" fn dn_read_packets(
    alloc: Global,
    text: &[u8],
    packets: &mut [CPacket],
    count: &mut u64,
    used: &mut u64,
    row: &mut u64,
    field: &mut u64,
) -> u32
    ensures read { result ≡ 0 → HasRead text.now used.new (take count.new packets.new) }
    ensures within { result ≡ 0 → (count.new ≤ length packets.new) × (used.new ≤ length text.now) }
    ensures others { result ≡ 0 → drop count.new packets.new ≡ drop count.new packets.old }
    ensures gets_on { result ≡ 0 → text.now ≢ [] → 0 < used.new }
    ensures fills { result ≡ 0 → (count.new ≡ length packets.new) ⊎ (row_at_front (drop used.new text.now) ≡ None) }
    ensures in_parts { IsSome (row_at_front text.now) → 0 < length packets.old → (result ≡ 0) ⊎ (result ≡ 6) }
    ensures room { result ≡ 7 → HasCount text.now count.new }
    ensures fault { result ≡ 22 → rows_left 1 text.now ≡ Err (BadRow row.new field.new) }
    ensures refused { result ≢ 0 → (packets.new ≡ packets.old) × (used.new ≡ used.old) }
    ensures no_count { result ≢ 0 → result ≢ 7 → count.new ≡ count.old }
    ensures no_fault { result ≢ 22 → (row.new ≡ row.old) × (field.new ≡ field.old) }
    ensures why { result ≢ 0 → (result ≡ 22) ⊎ (result ≡ 6) ⊎ ((result ≡ 7) × (length packets.old < count.new)) }
{
    let Ok(front) = rows_at_front(alloc, text, packets.len()) else {
        return MEMORY;
    };
    if front.used == 0 {
        return read_all(alloc, text, packets, count, used, row, field);
    }
    copy_rows(front.rows.as_slice(), packets);
    *count = front.rows.len() as u64;
    *used = front.used as u64;
    OK
}
