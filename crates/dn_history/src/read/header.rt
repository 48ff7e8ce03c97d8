ghost use Rattle.std.specs.Prelude.{MatchOption};
ghost use Rattle.dn_history.specs.HistoryParts.{BeginsHistory, BeginsNoHistory};

use crate::history_version::HistoryVersion;
use dn_files::behind_first;

/// The version that a text tells in the line at its front, and what follows that line.
///
/// A byte order mark may come before it. None if the text begins otherwise, or the line has quotes.
pub(crate) fn header_at_front(text: &[u8]) -> Option<(HistoryVersion, &[u8])>
    ensures { MatchOption result (BeginsNoHistory text.now) (λ p. BeginsHistory text.now p.0 p.1.now) }
{
    if let Some(rest) = behind_first(text, b"dummynet-history,3") {
        return Some((HistoryVersion::Third, rest));
    }
    if let Some(rest) = behind_first(text, b"dummynet-history,2") {
        return Some((HistoryVersion::Second, rest));
    }
    if let Some(rest) = behind_first(text, b"dummynet-history,1") {
        return Some((HistoryVersion::First, rest));
    }
    if let Some(rest) = behind_first(text, b"dummynet-live,1") {
        return Some((HistoryVersion::Live, rest));
    }
    None
}
