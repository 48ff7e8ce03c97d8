//! Rows of a packet file as packets of C.

ghost use Rattle.std.specs.Prelude.{◌≡◌, ◌≢◌, ◌≤◌, ◌<◌, ◌⊎◌, Err, drop, length, map, take};
ghost use Rattle.dn_files.specs.PacketParts.{rows_left};
ghost use Rattle.dn_files.specs.declared.replay_fault.ReplayFault.TheVariants.{BadRow};
ghost use Rattle.hingetulip_c.specs.Rows.{c_packet, HasCount, HasRead};

use crate::records::CPacket;
use crate::status::{BAD_ROW, MEMORY, OK, ROOM};
use dn_files::{ReplayFault, Row, rows_below_header};
use dn_types::Target;
use std::alloc::Global;

/// A row as C reads it.
pub(crate) fn packet_of(row: &Row) -> CPacket
    ensures { result ≡ c_packet row.now }
{
    let (kind, number) = match row.target {
        Target::Pipe(number) => (0, number),
        Target::Queue(number) => (1, number),
    };
    CPacket {
        moment: row.moment.get(),
        src: row.packet.tuple.src,
        dst: row.packet.tuple.dst,
        word: row.packet.word,
        sport: row.packet.tuple.sport,
        dport: row.packet.tuple.dport,
        length: row.packet.len.get(),
        number: number.get() as u16,
        kind,
        proto: row.packet.tuple.proto,
        reserved: 0,
    }
}

/// Writes rows into the first places of a list.
#[tactic(auto, using(crate::proofs::Many::others_more))]
pub(crate) fn copy_rows(rows: &[Row], packets: &mut [CPacket])
    requires { length rows.now ≤ length packets.old }
    ensures written { take (length rows.now) packets.new ≡ map c_packet rows.now }
    ensures others { drop (length rows.now) packets.new ≡ drop (length rows.now) packets.old }
{
    for i in 0..rows.len() {
        packets[i] = packet_of(&rows[i]);
    }
}

/// Reads all rows of a text, however they are written, if the list has room for them.
#[tactic(auto, using(crate::proofs::PacketRows::whole_read, crate::proofs::PacketRows::all_counted))]
pub(crate) fn read_all(
    alloc: Global,
    text: &[u8],
    packets: &mut [CPacket],
    count: &mut u64,
    used: &mut u64,
    row: &mut u64,
    field: &mut u64,
) -> u32
    ensures read { result ≡ 0 → (used.new ≡ length text.now) × HasRead text.now used.new (take count.new packets.new) }
    ensures within { result ≡ 0 → count.new ≤ length packets.new }
    ensures others { result ≡ 0 → drop count.new packets.new ≡ drop count.new packets.old }
    ensures room { result ≡ 7 → HasCount text.now count.new }
    ensures fault { result ≡ 22 → rows_left 1 text.now ≡ Err (BadRow row.new field.new) }
    ensures refused { result ≢ 0 → (packets.new ≡ packets.old) × (used.new ≡ used.old) }
    ensures no_count { result ≢ 0 → result ≢ 7 → count.new ≡ count.old }
    ensures no_fault { result ≢ 22 → (row.new ≡ row.old) × (field.new ≡ field.old) }
    ensures why { result ≢ 0 → (result ≡ 22) ⊎ (result ≡ 6) ⊎ ((result ≡ 7) × (length packets.old < count.new)) }
{
    match rows_below_header(alloc, text) {
        Ok(rows) => {
            *count = rows.len() as u64;
            if packets.len() < rows.len() {
                return ROOM;
            }
            copy_rows(rows.as_slice(), packets);
            *used = text.len() as u64;
            OK
        }
        Err(
            ReplayFault::BadRow {
                row: bad,
                field: place,
            },
        ) => {
            *row = bad;
            *field = place;
            BAD_ROW
        }
        Err(_) => MEMORY,
    }
}
