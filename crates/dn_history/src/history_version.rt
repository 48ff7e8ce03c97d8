ghost use Rattle.std.specs.Prelude.{◌≡◌};
ghost use Rattle.csv.specs.Records.{fields_of};
ghost use Rattle.dn_history.specs.HistoryRecords.{has_deletes, has_remarks, live_of, rule_of, version_of};

use csv::ByteRecord;
use dn_files::{is_form, is_name};
use dn_types::Rule;

/// The version of a history file, which its first record tells. A live session's transcript is one of its own.
#[derive(Clone, Copy, Debug, PartialEq, Eq)]
pub(crate) enum HistoryVersion {
    First,
    Second,
    Third,
    Live,
}

/// The version of a transcript's first record, or the place of its first bad field.
#[tactic(auto, unfolding(crate::specs::HistoryRecords::live_of))]
fn read_live(fields: &ByteRecord) -> Result<HistoryVersion, u64>
    ensures { result ≡ live_of (fields_of fields.now) }
{
    if !is_form(fields, 1, b"dummynet-live", 2) {
        Err(1)
    } else if is_name(fields, 2, b"1") {
        Ok(HistoryVersion::Live)
    } else {
        Err(2)
    }
}

impl HistoryVersion {
    /// The version of a first record, or the place of its first bad field.
    #[tactic(auto, unfolding(crate::specs::HistoryRecords::version_of))]
    pub(crate) fn read(fields: &ByteRecord) -> Result<HistoryVersion, u64>
        ensures { result ≡ version_of (fields_of fields.now) }
    {
        if !is_form(fields, 1, b"dummynet-history", 2) {
            read_live(fields)
        } else if is_name(fields, 2, b"1") {
            Ok(HistoryVersion::First)
        } else if is_name(fields, 2, b"2") {
            Ok(HistoryVersion::Second)
        } else if is_name(fields, 2, b"3") {
            Ok(HistoryVersion::Third)
        } else {
            Err(2)
        }
    }

    /// The rule of this version's histories.
    pub(crate) fn rule(self) -> Rule
        ensures { result ≡ rule_of self }
    {
        match self {
            HistoryVersion::First | HistoryVersion::Second => Rule::Free,
            HistoryVersion::Third | HistoryVersion::Live => Rule::Ordered,
        }
    }

    /// Whether this version has deletes, their replies, and the count of discarded packets.
    pub(crate) fn has_deletes(self) -> bool
        ensures { result ≡ has_deletes self }
    {
        match self {
            HistoryVersion::First => false,
            HistoryVersion::Second | HistoryVersion::Third | HistoryVersion::Live => true,
        }
    }

    /// Whether remarks may come between the entries of this version.
    pub(crate) fn has_remarks(self) -> bool
        ensures { result ≡ has_remarks self }
    {
        match self {
            HistoryVersion::First | HistoryVersion::Second | HistoryVersion::Third => false,
            HistoryVersion::Live => true,
        }
    }
}
