ghost use Rattle.std.specs.Prelude.{◌≡◌};
ghost use Rattle.csv.specs.Records.{fields_of};
ghost use Rattle.dn_files.specs.PacketFile.{is_header, row_of};

use crate::fields::is_name;
use crate::packet_fields::{moment_at, packet_at, target_at};
use crate::row::Row;
use csv::ByteRecord;

/// The row of a record, or the place of its first bad field, 0 where it hasn't ten.
#[tactic(auto, unfolding(crate::specs::PacketFile::row_of))]
pub(crate) fn read_row(fields: &ByteRecord) -> Result<Row, u64>
    ensures { result ≡ row_of (fields_of fields.now) }
{
    if fields.len() != 10 {
        return Err(0);
    }
    Ok(Row {
        moment: moment_at(fields, 1)?,
        target: target_at(fields, 2)?,
        packet: packet_at(fields, 4)?,
    })
}

/// Whether a record is the header.
#[tactic(auto, unfolding(crate::specs::PacketFile::is_header))]
pub(crate) fn is_header(fields: &ByteRecord) -> bool
    ensures { result ≡ is_header (fields_of fields.now) }
{
    fields.len() == 10
        && is_name(fields, 1, b"moment")
        && is_name(fields, 2, b"target")
        && is_name(fields, 3, b"number")
        && is_name(fields, 4, b"src")
        && is_name(fields, 5, b"dst")
        && is_name(fields, 6, b"proto")
        && is_name(fields, 7, b"sport")
        && is_name(fields, 8, b"dport")
        && is_name(fields, 9, b"len")
        && is_name(fields, 10, b"word")
}
