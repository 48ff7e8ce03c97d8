ghost use Rattle.std.specs.Prelude.{◌≡◌, ◌≤◌, ◌+◌, ◌^◌};
ghost use Rattle.csv.specs.Records.{fields_of};
ghost use Rattle.dn_files.specs.Fields.{number_at, packet_at, target_at, tuple_at};

use crate::fields::{address_at, is_name, number_at};
use csv::ByteRecord;
use dn_types::{FiveTuple, Len, Moment, Number, Packet, Target};

/// The number of a pipe or queue in the field at the place, or the place.
pub fn target_number_at(fields: &ByteRecord, place: usize) -> Result<Number, u64>
    requires { 1 ≤ place }
    ensures { result ≡ number_at place 1 65535 (fields_of fields.now) }
{
    let number = number_at(fields, place, 1, 65_535)?;
    Number::new(number as u32).ok_or(place as u64)
}

/// Where a packet is sent, in the field at the place and the next, or the place of the first bad one.
#[tactic(auto, unfolding(crate::specs::Fields::target_at))]
pub fn target_at(fields: &ByteRecord, place: usize) -> Result<Target, u64>
    requires { (1 ≤ place) × (place ≤ 100) }
    ensures { result ≡ target_at place (fields_of fields.now) }
{
    if is_name(fields, place, b"pipe") {
        Ok(Target::Pipe(target_number_at(fields, place + 1)?))
    } else if is_name(fields, place, b"queue") {
        Ok(Target::Queue(target_number_at(fields, place + 1)?))
    } else {
        Err(place as u64)
    }
}

/// Addresses, protocol and ports in five fields from the place on, or the place of the first bad one.
#[tactic(auto, unfolding(crate::specs::Fields::tuple_at))]
pub fn tuple_at(fields: &ByteRecord, place: usize) -> Result<FiveTuple, u64>
    requires { (1 ≤ place) × (place ≤ 100) }
    ensures { result ≡ tuple_at place (fields_of fields.now) }
{
    Ok(FiveTuple {
        src: address_at(fields, place)?,
        dst: address_at(fields, place + 1)?,
        proto: number_at(fields, place + 2, 0, 255)? as u8,
        sport: number_at(fields, place + 3, 0, 65_535)? as u16,
        dport: number_at(fields, place + 4, 0, 65_535)? as u16,
    })
}

/// A packet's length in the field at the place, or the place.
fn len_at(fields: &ByteRecord, place: usize) -> Result<Len, u64>
    requires { 1 ≤ place }
    ensures { result ≡ number_at place 1 65535 (fields_of fields.now) }
{
    let len = number_at(fields, place, 1, 65_535)?;
    Len::new(len as u16).ok_or(place as u64)
}

/// A packet in seven fields from the place on, or the place of the first bad one.
#[tactic(auto, unfolding(crate::specs::Fields::packet_at))]
pub fn packet_at(fields: &ByteRecord, place: usize) -> Result<Packet, u64>
    requires { (1 ≤ place) × (place ≤ 90) }
    ensures { result ≡ packet_at place (fields_of fields.now) }
{
    Ok(Packet {
        tuple: tuple_at(fields, place)?,
        len: len_at(fields, place + 5)?,
        word: number_at(fields, place + 6, 0, 4_294_967_295)? as u32,
    })
}

/// The moment in the field at the place, or the place.
pub fn moment_at(fields: &ByteRecord, place: usize) -> Result<Moment, u64>
    requires { 1 ≤ place }
    ensures { result ≡ number_at place 0 (2 ^ 62) (fields_of fields.now) }
{
    let moment = number_at(fields, place, 0, 1 << 62)?;
    Moment::new(moment).ok_or(place as u64)
}
