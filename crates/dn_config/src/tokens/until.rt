ghost use Rattle.std.specs.Prelude.{◌≡◌, ◌≤◌, ◌<◌, ◌-◌, false, true, length, option_map, IfSome, MatchOption};
ghost use Rattle.std.specs.List.{prefix_len};
ghost use Rattle.std.specs.Char.{is_ascii_digit};
ghost use Rattle.std.specs.Result.{result_ok};
ghost use Rattle.std.specs.Str.Parse.{digits_value};
ghost use Rattle.dn_config.specs.Tokens.Numbers.{all_digits, digits, number_within};
ghost use Rattle.dn_config.specs.Tokens.Until.{address_until, behind_byte, number_until};

use crate::tokens::digits::split_digits;
use crate::tokens::numbers::read_number;

// No u64 has more digits.
const MOST_DIGITS: usize = 20;

/// One digit more than the numbers up to `greatest` have, but no more digits than fit into a u64.
#[inline(always)]
fn one_digit_more(greatest: u64) -> usize
    ensures { result ≤ 19 }
{
    match greatest {
        0..=999 => 4,
        1_000..=99_999 => 6,
        100_000..=9_999_999_999 => 11,
        _ => 19,
    }
}

/// The value of a digit.
#[inline(always)]
fn digit_of(byte: u8) -> Option<u64>
    ensures { MatchOption result (is_ascii_digit byte ≡ false) (λ d. (is_ascii_digit byte ≡ true) × (d ≡ byte - 48)) }
{
    // A byte below `0` wraps to a great number. The difference has the width of the sum, so it isn't widened.
    let value = u64::from(byte).wrapping_sub(48);
    if value > 9 { None } else { Some(value) }
}

/// The value of the digits that a text begins with, and how many there are.
///
/// None if there are `most` or more, or if the text is shorter than that.
#[inline(always)]
fn short_digits(text: &[u8], most: usize) -> Option<(u64, usize)>
    requires { most ≤ 19 }
    ensures count { IfSome result (λ p. p.1 ≡ prefix_len is_ascii_digit text.now) }
    ensures value { IfSome result (λ p. p.0 ≡ digits_value 10 (digits text.now)) }
{
    // The loop is unrolled where its length is a constant, so it isn't cut to that of the text.
    if text.len() < most {
        return None;
    }
    let front = &text[..most];
    let mut value = 0u64;
    for (i, byte) in front.iter().enumerate() {
        let Some(digit) = digit_of(*byte) else {
            return Some((value, i));
        };
        value = value * 10 + digit;
    }
    None
}

/// The number of a range that some digits write whose value is known.
#[inline(always)]
#[tactic(auto, unfolding(crate::specs::Tokens::Numbers::number_of, crate::specs::Tokens::Numbers::numeral_of, crate::specs::Tokens::Numbers::within))]
fn ranged(digits: &[u8], value: u64, least: u64, greatest: u64) -> Option<u64>
    requires all_digits { all_digits 10 digits.now ≡ true }
    requires value { value ≡ digits_value 10 digits.now }
    ensures value { result ≡ result_ok (number_within least greatest digits.now) }
    ensures in_range { IfSome result (λ n. (least ≤ n) × (n ≤ greatest)) }
{
    if digits.is_empty() {
        return None;
    }
    if digits.len() > 1 && digits[0] == b'0' {
        return None;
    }
    if value < least || value > greatest {
        return None;
    }
    Some(value)
}

/// What stands behind a byte at the front of a text.
#[inline(always)]
fn behind_byte(text: &[u8], byte: u8) -> Option<&[u8]>
    ensures { option_map (λ rest. rest.now) result ≡ behind_byte byte text.now }
{
    match text {
        [first, rest @ ..] if *first == byte => Some(rest),
        _ => None,
    }
}

/// Whether a text begins with more digits than a u64 has.
fn has_too_many_digits(text: &[u8]) -> bool
    ensures { result ≡ true → 20 < prefix_len is_ascii_digit text.now }
{
    if text.len() <= MOST_DIGITS {
        return false;
    }
    let (digits, _) = split_digits(&text[..MOST_DIGITS + 1]);
    digits.len() > MOST_DIGITS
}

/// As `number_until`, in passes over at most the digits of a u64 and one more.
///
/// So a text that is digits alone costs no more than they do.
#[cold]
#[inline(never)]
#[tactic(auto, unfolding(crate::specs::Tokens::Until::number_until))]
fn long_number_until(text: &[u8], end: u8, least: u64, greatest: u64) -> Option<(u64, &[u8])>
    ensures value { option_map (λ p. (p.0, p.1.now)) result ≡ number_until end least greatest text.now }
    ensures in_range { IfSome result (λ p. (least ≤ p.0) × (p.0 ≤ greatest)) }
{
    if has_too_many_digits(text) {
        return None;
    }
    let (digits, behind) = split_digits(text);
    let number = read_number(digits, least, greatest).ok()?;
    let rest = behind_byte(behind, end)?;
    Some((number, rest))
}

/// The number from `least` to `greatest` at a text's front, and what follows the byte `end` after it.
///
/// The number is in decimal digits. None if the digits are no number of the range, as with a zero in front of others, or if
/// another byte or nothing follows. The text may be of any length.
#[inline(always)]
#[tactic(auto, unfolding(crate::specs::Tokens::Until::number_until))]
pub fn number_until(text: &[u8], end: u8, least: u64, greatest: u64) -> Option<(u64, &[u8])>
    ensures value { option_map (λ p. (p.0, p.1.now)) result ≡ number_until end least greatest text.now }
    ensures in_range { IfSome result (λ p. (least ≤ p.0) × (p.0 ≤ greatest)) }
{
    let Some((value, count)) = short_digits(text, one_digit_more(greatest)) else {
        return long_number_until(text, end, least, greatest);
    };
    let (digits, behind) = text.split_at(count);
    let number = ranged(digits, value, least, greatest)?;
    let rest = behind_byte(behind, end)?;
    Some((number, rest))
}

/// The IPv4 address that a text begins with, and what follows the byte `end` after it.
///
/// The address is four numbers 0 to 255 with points between them, the first the highest byte. None for any other text.
#[inline(always)]
#[tactic(auto, unfolding(crate::specs::Tokens::Until::address_until))]
pub fn address_until(text: &[u8], end: u8) -> Option<(u32, &[u8])>
    ensures { option_map (λ p. (p.0, p.1.now)) result ≡ address_until end text.now }
{
    let (first, text) = number_until(text, b'.', 0, 255)?;
    let (second, text) = number_until(text, b'.', 0, 255)?;
    let (third, text) = number_until(text, b'.', 0, 255)?;
    let (fourth, text) = number_until(text, end, 0, 255)?;
    let address = first * 16_777_216 + second * 65_536 + third * 256 + fourth;
    Some((address as u32, text))
}
