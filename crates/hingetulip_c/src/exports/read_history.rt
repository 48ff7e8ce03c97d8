ghost use Rattle.std.specs.Prelude.{◌≡◌, ◌≢◌, ◌⊎◌, Err, drop, false, length, take, true};
ghost use Rattle.dn_files.specs.declared.replay_fault.ReplayFault.TheVariants.{BadRecord};
ghost use Rattle.dn_history.specs.HistoryFile.{history_in};
ghost use Rattle.hingetulip_c.specs.Entries.{HaveRoom, IsHistory, LackRoom, Lists};

use crate::entry_lists::lists_of_text;
use crate::put::put_list;
use crate::records::{CDelivery, CEntry, CFlow, CHistory};
use crate::status::{BAD_RECORD, MEMORY, OK, ROOM};
use dn_files::ReplayFault;
use std::alloc::Global;

/// Whether lists of so many places have room.
fn have_room(
    sizes: &CHistory,
    entries: usize,
    bytes: usize,
    deliveries: usize,
    flows: usize,
) -> bool
    ensures fit { result ≡ true → HaveRoom sizes.now entries bytes deliveries flows }
    ensures lack { result ≡ false → LackRoom sizes.now entries bytes deliveries flows }
{
    if (entries as u64) < sizes.entries {
        return false;
    }
    if (bytes as u64) < sizes.bytes {
        return false;
    }
    if (deliveries as u64) < sizes.deliveries {
        return false;
    }
    (flows as u64) >= sizes.flows
}

/// Reads the entries of a history.
#[unsafe(no_mangle)]
#[tactic(auto, using(crate::proofs::EntryLists::sized, crate::proofs::EntryLists::written))]
pub extern "C" fn dn_read_history(
    alloc: Global,
    text: &[u8],
    entries: &mut [CEntry],
    lines: &mut [u8],
    deliveries: &mut [CDelivery],
    flows: &mut [CFlow],
    history: &mut CHistory,
    number: &mut u64,
) -> u32
    ensures read { result ≡ 0 → IsHistory text.now history.new (record {
      entries = take history.new.entries entries.new;
      lines = take history.new.bytes lines.new;
      deliveries = take history.new.deliveries deliveries.new;
      flows = take history.new.flows flows.new;
    }) }
    ensures within { result ≡ 0 → HaveRoom history.new (length entries.new) (length lines.new) (length deliveries.new) (length flows.new) }
    ensures others { result ≡ 0 → (drop history.new.entries entries.new ≡ drop history.new.entries entries.old)
        × (drop history.new.bytes lines.new ≡ drop history.new.bytes lines.old)
        × (drop history.new.deliveries deliveries.new ≡ drop history.new.deliveries deliveries.old)
        × (drop history.new.flows flows.new ≡ drop history.new.flows flows.old) }
    ensures room { result ≡ 7 → (lists : Lists) × IsHistory text.now history.new lists }
    ensures fault { result ≡ 24 → history_in text.now ≡ Err (BadRecord number.new) }
    ensures refused { result ≢ 0 → (entries.new ≡ entries.old) × (lines.new ≡ lines.old) × (deliveries.new ≡ deliveries.old) × (flows.new ≡ flows.old) }
    ensures no_sizes { result ≢ 0 → result ≢ 7 → history.new ≡ history.old }
    ensures no_fault { result ≢ 24 → number.new ≡ number.old }
    ensures why { result ≢ 0 → (result ≡ 24) ⊎ (result ≡ 6)
        ⊎ ((result ≡ 7) × LackRoom history.new (length entries.old) (length lines.old) (length deliveries.old) (length flows.old)) }
{
    match lists_of_text(alloc, text) {
        Ok((rule, lists)) => {
            let sizes = lists.sizes(rule);
            *history = sizes;
            if !have_room(
                &sizes,
                entries.len(),
                lines.len(),
                deliveries.len(),
                flows.len(),
            ) {
                return ROOM;
            }
            put_list(lists.entries.as_slice(), entries);
            put_list(lists.lines.as_slice(), lines);
            put_list(lists.deliveries.as_slice(), deliveries);
            put_list(lists.flows.as_slice(), flows);
            OK
        }
        Err(ReplayFault::BadRecord(first)) => {
            *number = first;
            BAD_RECORD
        }
        Err(_) => MEMORY,
    }
}
