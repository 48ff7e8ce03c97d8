ghost use Rattle.std.specs.Prelude.{◌≡◌, ◌≤◌, IfSome, option_map};
ghost use Rattle.dn_files.specs.LineEnd.{behind_end, behind_first, number_at_end, number_before_return, past_mark};

use dn_config::number_until;

// What follows a byte order mark at the front of a text, and else the text.
#[tactic(auto, unfolding(crate::specs::LineEnd::past_mark))]
fn past_mark(text: &[u8]) -> &[u8]
    ensures { result.now ≡ past_mark text.now }
{
    match text.strip_prefix(b"\xEF\xBB\xBF") {
        Some(rest) => rest,
        None => text,
    }
}

/// What follows the end of a line at the front of a text: a line feed, or a carriage return and a line feed.
#[tactic(auto, unfolding(crate::specs::LineEnd::behind_end))]
pub(crate) fn behind_end(text: &[u8]) -> Option<&[u8]>
    ensures { option_map (λ rest. rest.now) result ≡ behind_end text.now }
{
    match text.strip_prefix(b"\n") {
        Some(rest) => Some(rest),
        None => text.strip_prefix(b"\r\n"),
    }
}

/// What follows the first line of a text, if it has these words.
///
/// A byte order mark may come before it. It ends in a line feed, or in a carriage return and a line feed.
#[tactic(auto, unfolding(crate::specs::LineEnd::behind_first))]
pub fn behind_first<'a>(text: &'a [u8], words: &[u8]) -> Option<&'a [u8]>
    ensures { option_map (λ rest. rest.now) result ≡ behind_first words.now text.now }
{
    let rest = past_mark(text).strip_prefix(words)?;
    behind_end(rest)
}

// The number before a carriage return and a line feed, and what follows these.
#[inline(never)]
#[tactic(auto, unfolding(crate::specs::LineEnd::number_before_return))]
fn number_before_return(text: &[u8], least: u64, greatest: u64) -> Option<(u64, &[u8])>
    ensures value { option_map (λ p. (p.0, p.1.now)) result ≡ number_before_return least greatest text.now }
    ensures in_range { IfSome result (λ p. (least ≤ p.0) × (p.0 ≤ greatest)) }
{
    let (number, text) = number_until(text, b'\r', least, greatest)?;
    let rest = text.strip_prefix(b"\n")?;
    Some((number, rest))
}

/// The number from `least` to `greatest` whose decimal digits a text begins with, and what follows the end of its line.
///
/// The line ends in a line feed, or in a carriage return and a line feed. None for any other text.
#[inline(always)]
#[tactic(auto, unfolding(crate::specs::LineEnd::number_at_end))]
pub fn number_at_end(text: &[u8], least: u64, greatest: u64) -> Option<(u64, &[u8])>
    ensures value { option_map (λ p. (p.0, p.1.now)) result ≡ number_at_end least greatest text.now }
    ensures in_range { IfSome result (λ p. (least ≤ p.0) × (p.0 ≤ greatest)) }
{
    if let Some(found) = number_until(text, b'\n', least, greatest) {
        return Some(found);
    }
    // Handed on as it is, this call's result would put the number before a line feed into memory too.
    let (number, rest) = number_before_return(text, least, greatest)?;
    Some((number, rest))
}
