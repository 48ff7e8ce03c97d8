ghost use Rattle.std.specs.Prelude.{◌≡◌, ◌≤◌, ◌<◌, ◌^◌, true, Some, None, MatchOption, IfSome, length};
ghost use Rattle.std.specs.Str.Parse.{digits_value};
ghost use Rattle.dn_config.specs.Tokens.Numbers.{all_digits, within};
ghost use Rattle.dn_config.specs.Values.{placed, kept, behind_point, rate_parts_of, loss_at};

use crate::fault::LineFault;
use crate::tokens::{read_numeral, split_digits};
use dn_types::Loss;

/// The rate 1, in units of 10^-18.
const ONE: u128 = 1_000_000_000_000_000_000;

/// The value of 0 to 18 digits.
fn short_value(digits: &[u8]) -> u128
    requires digits { all_digits 10 digits.now ≡ true }
    requires short { length digits.now ≤ 18 }
    ensures value { result ≡ digits_value 10 digits.now }
    ensures bound { result < 10 ^ 18 }
{
    match read_numeral(digits, 10, u64::MAX) {
        Ok(value) => u128::from(value),
        Err(_) => 0,
    }
}

/// The digits behind a point, where the text is a point and digits, and no digits of no text.
fn fraction(text: &[u8]) -> Option<&[u8]>
    ensures value { MatchOption result (behind_point text.now ≡ None) (λ x. behind_point text.now ≡ Some x.now) }
    ensures digits { IfSome result (λ x. all_digits 10 x.now ≡ true) }
{
    if text.is_empty() {
        return Some(text);
    }
    let (fraction, rest) = split_digits(&text[1..]);
    if text[0] == b'.' && rest.is_empty() {
        Some(fraction)
    } else {
        None
    }
}

/// The rate, in units of 10^-18, that the digits before and behind the point write.
fn rate(whole: &[u8], fraction: &[u8]) -> Option<u128>
    requires whole { all_digits 10 whole.now ≡ true }
    requires fraction { all_digits 10 fraction.now ≡ true }
    ensures value { result ≡ rate_parts_of whole.now (Some fraction.now) }
{
    if whole.len() > 18 || fraction.len() > 18 || whole.is_empty() && fraction.is_empty() {
        return None;
    }
    let scale = 10u64.pow((18 - fraction.len()) as u32);
    Some(short_value(whole) * ONE + short_value(fraction) * u128::from(scale))
}

/// A loss rate as it is kept: in units of 2^-31, rounded down.
fn kept_loss(rate: Option<u128>, at: usize) -> Result<Loss, LineFault>
    ensures { result ≡ kept (placed at (within 0 (10 ^ 18) rate)) }
{
    let Some(rate) = rate else {
        return Err(LineFault::BadNumber(at));
    };
    if rate > ONE {
        return Err(LineFault::OutOfRange(at));
    }
    Loss::new((rate * 0x8000_0000 / ONE) as u32).ok_or(LineFault::OutOfRange(at))
}

/// The loss rate of a pipe or a queue.
#[tactic(auto, unfolding(crate::specs::Values::loss_at))]
pub fn loss_value(word: &[u8], at: usize) -> Result<Loss, LineFault>
    ensures { result ≡ loss_at at word.now }
{
    let (whole, behind) = split_digits(word);
    match fraction(behind) {
        Some(fraction) => kept_loss(rate(whole, fraction), at),
        None => kept_loss(None, at),
    }
}
