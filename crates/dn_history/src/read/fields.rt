ghost use Rattle.std.specs.Prelude.{◌≡◌, ◌≤◌};
ghost use Rattle.csv.specs.Records.{fields_of};
ghost use Rattle.dn_history.specs.HistoryRecords.{long_at};
ghost use Rattle.dn_history.specs.RecordsLeft.{in_record};

use csv::ByteRecord;
use dn_files::{ReplayFault, number_at};

/// A record with so many fields is none of a history. The widest one has one less.
pub(crate) const TOO_MANY: usize = 22;

/// A number below 2^64 in the field at the place, or the place.
pub(crate) fn long_at(fields: &ByteRecord, place: usize) -> Result<u64, u64>
    requires { 1 ≤ place }
    ensures { result ≡ long_at place (fields_of fields.now) }
{
    number_at(fields, place, 0, u64::MAX)
}

/// What the record with this number says.
pub(crate) fn in_record<T>(number: u64, said: Result<T, u64>) -> Result<T, ReplayFault>
    ensures { result ≡ in_record number said }
{
    match said {
        Ok(value) => Ok(value),
        Err(_) => Err(ReplayFault::BadRecord(number)),
    }
}
