ghost use Rattle.std.specs.Prelude.{◌≡◌, ◌≢◌, ◌⊎◌, drop, length, map, take};
ghost use Rattle.dn_types.specs.declared.call.Call.TheVariants.{Collect};
ghost use Rattle.dn_types.specs.declared.reply.Reply.TheVariants.{Delivered};
ghost use Rattle.hingetulip_c.specs.Texts.{FaultyCollect, IsCollect, LacksRoom, delivery_of, entry_text};

use crate::entries::collect_entry;
use crate::history_lines::put_entry;
use crate::records::CDelivery;
use std::alloc::Global;

/// Writes a collect, where the clock stood after it and the packets that it gave, as lines of a history file.
#[unsafe(no_mangle)]
pub extern "C" fn dn_collect_text(
    alloc: Global,
    caller: u64,
    moment: u64,
    at: u64,
    list: &[CDelivery],
    text: &mut [u8],
    size: &mut u64,
) -> u32
    ensures wrote { result ≡ 0 → take size.new text.new
        ≡ entry_text caller (Collect moment) (Delivered at (map delivery_of list.now)) }
    ensures others { result ≡ 0 → drop size.new text.new ≡ drop size.new text.old }
    ensures in_range { (result ≡ 0) ⊎ (result ≡ 6) ⊎ (result ≡ 7)
        → IsCollect caller moment list.now }
    ensures size { (result ≡ 0) ⊎ (result ≡ 7) → size.new
        ≡ length (entry_text caller (Collect moment) (Delivered at (map delivery_of list.now))) }
    ensures refused { result ≢ 0 → text.new ≡ text.old }
    ensures no_size { result ≢ 0 → result ≢ 7 → size.new ≡ size.old }
    ensures why { result ≢ 0 → FaultyCollect caller moment list.now result ⊎ LacksRoom text.old size.new result }
{
    match collect_entry(alloc, caller, moment, at, list) {
        Ok(entry) => put_entry(alloc, &entry, text, size),
        Err(status) => status,
    }
}
