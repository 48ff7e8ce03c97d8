ghost use Rattle.std.specs.Prelude.{◌≡◌, ◌&&◌, ◌<◌, ◌≤◌, true, [], length, IfOk, OnErr};
ghost use Rattle.csv.specs.Records.{fields_of};
ghost use Rattle.dn_records.specs.Steps.{TakesFront};
ghost use Rattle.dn_history.specs.HistoryRecords.{has_remarks};
ghost use Rattle.dn_history.specs.RecordsLeft.{too_many};
ghost use Rattle.dn_history.specs.Remarks.{ahead, is_remark};

use crate::history_version::HistoryVersion;
use crate::read::fields::TOO_MANY;
use csv::ByteRecord;
use dn_files::column;
use dn_records::Records;
use std::alloc::AllocError;

/// Whether a record is a remark.
fn is_remark(fields: &ByteRecord) -> bool
    ensures { result ≡ is_remark (fields_of fields.now) }
{
    match column(fields, 1) {
        [] => false,
        [first, ..] => *first == b'#',
    }
}

/// Whether a record between two entries is passed over.
fn is_passed_over(version: HistoryVersion, fields: &ByteRecord) -> bool
    ensures { result ≡ (has_remarks version && is_remark (fields_of fields.now)) }
{
    version.has_remarks() && is_remark(fields)
}

/// Reads the front of the next record between two entries into `fields`, and returns whether there was one.
///
/// It reads past the remarks that the version may have there. After an error no record is left.
#[tactic(auto, using(crate::proofs::Remarks::passed_over, crate::proofs::Remarks::found_plain, crate::proofs::Remarks::none_left, crate::proofs::HistoryReading::emptied))]
pub(crate) fn read_past_remarks(
    version: HistoryVersion,
    records: &mut Records<'_>,
    fields: &mut ByteRecord,
) -> Result<bool, AllocError>
    ensures ok { IfOk result (λ found. TakesFront too_many (ahead (has_remarks version) records.old) records.new found (fields_of fields.new)) }
    ensures fewer { IfOk result (λ found. found ≡ true → length records.new < length records.old) }
    ensures err { OnErr result (records.new ≡ []) }
{
    loop {
        match records.read(TOO_MANY, fields) {
            Ok(true) => {
                if !is_passed_over(version, fields) {
                    return Ok(true);
                }
            }
            Ok(false) => return Ok(false),
            Err(error) => return Err(error),
        }
    }
}
