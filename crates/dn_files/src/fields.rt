ghost use Rattle.std.specs.Prelude.{◌≡◌, ◌≤◌, ◌<◌, IfOk};
ghost use Rattle.csv.specs.Records.{fields_of};
ghost use Rattle.dn_config.specs.Tokens.Addresses.{address_of};
ghost use Rattle.dn_files.specs.Fields.{or_place, column, is_form, is_name, number_at};

use csv::ByteRecord;
use dn_config::{read_address, read_number};

/// The field of a record at a place, from 1, empty where the record is shorter.
pub fn column(fields: &ByteRecord, place: usize) -> &[u8]
    requires { 1 ≤ place }
    ensures { result.now ≡ column place (fields_of fields.now) }
{
    match fields.get(place - 1) {
        Some(field) => field,
        None => &[],
    }
}

/// The number from `least` to `greatest` in the field at the place, or the place.
pub fn number_at(fields: &ByteRecord, place: usize, least: u64, greatest: u64) -> Result<u64, u64>
    requires { 1 ≤ place }
    ensures value { result ≡ number_at place least greatest (fields_of fields.now) }
    ensures in_range { IfOk result (λ n. (least ≤ n) × (n ≤ greatest)) }
{
    match read_number(column(fields, place), least, greatest) {
        Ok(number) => Ok(number),
        Err(_) => Err(place as u64),
    }
}

/// The address in the field at the place, or the place.
pub(crate) fn address_at(fields: &ByteRecord, place: usize) -> Result<u32, u64>
    requires { 1 ≤ place }
    ensures { result ≡ or_place place (address_of (column place (fields_of fields.now))) }
{
    read_address(column(fields, place)).ok_or(place as u64)
}

/// Whether the field at the place is this name.
pub fn is_name(fields: &ByteRecord, place: usize, name: &[u8]) -> bool
    requires { 1 ≤ place }
    ensures { result ≡ is_name place (fields_of fields.now) name.now }
{
    column(fields, place) == name
}

/// Whether a record has this name at the place, and this many fields.
pub fn is_form(fields: &ByteRecord, place: usize, name: &[u8], count: usize) -> bool
    requires { 1 ≤ place }
    ensures { result ≡ is_form place name.now count (fields_of fields.now) }
{
    is_name(fields, place, name) && fields.len() == count
}
