ghost use Rattle.std.specs.Prelude.{◌≡◌, ◌≢◌, ◌≤◌, ◌⊎◌, ◌^◌, drop, length, take};
ghost use Rattle.dn_types.specs.declared.call.Call.TheVariants.{Advance};
ghost use Rattle.dn_types.specs.declared.reply.Reply.TheVariants.{Advanced};
ghost use Rattle.hingetulip_c.specs.Submits.{FaultyMoment};
ghost use Rattle.hingetulip_c.specs.Texts.{FaultyCaller, LacksRoom, entry_text};

use crate::entries::advance_entry;
use crate::history_lines::put_entry;
use std::alloc::Global;

/// Writes an advance and where the clock stood after it, as lines of a history file.
#[unsafe(no_mangle)]
pub extern "C" fn dn_advance_text(
    alloc: Global,
    caller: u64,
    moment: u64,
    at: u64,
    text: &mut [u8],
    size: &mut u64,
) -> u32
    ensures wrote { result ≡ 0 → take size.new text.new ≡ entry_text caller (Advance moment) (Advanced at) }
    ensures others { result ≡ 0 → drop size.new text.new ≡ drop size.new text.old }
    ensures in_range { (result ≡ 0) ⊎ (result ≡ 6) ⊎ (result ≡ 7)
        → (caller ≤ 15) × (moment ≤ 2 ^ 62) }
    ensures size { (result ≡ 0) ⊎ (result ≡ 7)
        → size.new ≡ length (entry_text caller (Advance moment) (Advanced at)) }
    ensures refused { result ≢ 0 → text.new ≡ text.old }
    ensures no_size { result ≢ 0 → result ≢ 7 → size.new ≡ size.old }
    ensures why { result ≢ 0 → FaultyCaller caller result ⊎ FaultyMoment moment result ⊎ LacksRoom text.old size.new result }
{
    match advance_entry(caller, moment, at) {
        Ok(entry) => put_entry(alloc, &entry, text, size),
        Err(status) => status,
    }
}
