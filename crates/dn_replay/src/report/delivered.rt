ghost use Rattle.std.specs.Prelude.{◌≡◌, ◌<◌, List, [], ◌∷◌, ◌++◌, length, IfOk};
ghost use Rattle.dn_types.specs.declared.entry.Entry.{Entry as EntryValue};
ghost use Rattle.dn_replay.specs.Report.{delivered, deliveries, delivery_of_packet};
ghost use Rattle.dn_replay.specs.Tables.{IsTableOf, Notes};

use dn_types::{Delivery, Entry, Reply};
use std::alloc::{AllocError, Global};

/// What a reply delivers.
pub(crate) fn delivered_by(reply: &Reply) -> &[Delivery]
    ensures { result.now ≡ delivered reply.now }
{
    match reply {
        Reply::Delivered { list, .. } => list.as_slice(),
        _ => &[],
    }
}

/// What the last reply of a history delivers.
pub(crate) fn last_delivered(entries: &[Entry]) -> &[Delivery]
    requires { 0 < length entries.now }
    ensures { (before : List EntryValue) (last : EntryValue) → entries.now ≡ before ++ last ∷ [] → result.now ≡ delivered last.reply }
{
    delivered_by(&entries[entries.len() - 1].reply)
}

/// Notes a delivery, unless one of its packet is there or its packet has no place.
fn note(table: &mut Vec<Option<Delivery>>, delivery: Delivery)
    ensures len { length table.new.items ≡ length table.old.items }
    ensures noted { Notes (delivery ∷ []) table.old.items table.new.items }
{
    let place = delivery.packet as usize;
    if place >= table.len() || table[place].is_some() {
        return;
    }
    table[place] = Some(delivery);
}

/// Notes the first delivery of each packet.
fn note_all(table: &mut Vec<Option<Delivery>>, list: &[Delivery])
    ensures len { length table.new.items ≡ length table.old.items }
    ensures noted { Notes list.now table.old.items table.new.items }
{
    for delivery in list {
        note(table, *delivery);
    }
}

/// The deliveries of a history by packet number.
///
/// In a lawful history packet numbers are below the count of entries.
pub(crate) fn delivery_table(
    alloc: Global,
    entries: &[Entry],
) -> Result<Vec<Option<Delivery>>, AllocError>
    ensures { IfOk result (λ table. IsTableOf table.items (deliveries entries.now)) }
{
    let mut table = vec![in alloc; None; entries.len()]?;
    for entry in entries {
        note_all(&mut table, delivered_by(&entry.reply));
    }
    Ok(table)
}

/// The first delivery of a packet among these.
fn find_in(list: &[Delivery], packet: u64) -> Option<Delivery>
    ensures { result ≡ delivery_of_packet packet list.now }
{
    for delivery in list {
        if delivery.packet == packet {
            return Some(*delivery);
        }
    }
    None
}

/// The delivery of a packet, entry by entry.
fn search(entries: &[Entry], packet: u64) -> Option<Delivery>
    ensures { result ≡ delivery_of_packet packet (deliveries entries.now) }
{
    for entry in entries {
        let found = find_in(delivered_by(&entry.reply), packet);
        if found.is_some() {
            return found;
        }
    }
    None
}

/// The delivery of a packet of a history, if there is one.
pub(crate) fn delivery_of(
    table: &[Option<Delivery>],
    entries: &[Entry],
    packet: u64,
) -> Option<Delivery>
    requires { IsTableOf table.now (deliveries entries.now) }
    ensures { result ≡ delivery_of_packet packet (deliveries entries.now) }
{
    let place = packet as usize;
    if place < table.len() {
        table[place]
    } else {
        search(entries, packet)
    }
}
