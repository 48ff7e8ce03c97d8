ghost use Rattle.std.specs.Prelude.{◌≡◌, ◌≤◌, ◌*◌, IfSome, slice_index};
ghost use Rattle.std.specs.Char.{is_ascii_alphabetic};
ghost use Rattle.dn_config.specs.Tokens.Numbers.{number_of, within};
ghost use Rattle.dn_config.specs.Values.{placed, times, bandwidth_at, lower, scaled_unit, unit_bits, rate_of};

use crate::fault::LineFault;
use crate::keywords::is_in_any_case;
use crate::numbers::number_between;
use crate::tokens::split_digits;
use dn_types::Bandwidth;

/// What the letter before a unit multiplies by, and the unit.
fn scale(unit: &[u8]) -> (u64, &[u8])
    ensures value { scaled_unit (lower unit.now) ≡ (result.0, lower result.1.now) }
    ensures bounds { (1 ≤ result.0) × (result.0 ≤ 1000000000) }
{
    if unit.is_empty() {
        return (1, unit);
    }
    match unit[0].to_ascii_lowercase() {
        b'k' => (1_000, &unit[1..]),
        b'm' => (1_000_000, &unit[1..]),
        b'g' => (1_000_000_000, &unit[1..]),
        _ => (1, unit),
    }
}

/// How many bits a unit has.
fn bits_in(unit: &[u8]) -> Option<u64>
    ensures value { result ≡ unit_bits (lower unit.now) }
    ensures bounds { IfSome result (λ bits. (1 ≤ bits) × (bits ≤ 8)) }
{
    if is_in_any_case(unit, "") || is_in_any_case(unit, "bit/s") || is_in_any_case(unit, "bits/s") {
        Some(1)
    } else if is_in_any_case(unit, "byte/s") || is_in_any_case(unit, "bytes/s") {
        Some(8)
    } else {
        None
    }
}

/// How many bits per second a unit of bandwidth is.
#[tactic(auto, unfolding(crate::specs::Values::rate_of))]
fn unit_rate(unit: &[u8]) -> Option<u64>
    ensures value { result ≡ rate_of (lower unit.now) }
    ensures positive { IfSome result (λ rate. 1 ≤ rate) }
{
    let (scale, unit) = scale(unit);
    let bits = bits_in(unit)?;
    Some(scale * bits)
}

/// Whether the word begins with an ASCII letter.
fn begins_with_letter(word: &[u8]) -> bool
    ensures { result ≡ is_ascii_alphabetic (slice_index word.now 0) }
{
    !word.is_empty() && word[0].is_ascii_alphabetic()
}

/// A number of units of so many bits per second.
fn scaled(digits: &[u8], rate: u64, at: usize) -> Result<Bandwidth, LineFault>
    requires { 1 ≤ rate }
    ensures { result ≡ placed at (within 0 1000000000000 (times rate (number_of digits.now))) }
{
    let count = number_between(digits, at, 0, 1_000_000_000_000)?;
    Bandwidth::new(count.saturating_mul(rate)).ok_or(LineFault::OutOfRange(at))
}

/// The bandwidth of a pipe.
#[tactic(auto, unfolding(crate::specs::Values::bandwidth_at))]
pub fn bandwidth_value(word: &[u8], at: usize) -> Result<Bandwidth, LineFault>
    ensures { result ≡ bandwidth_at at word.now }
{
    if begins_with_letter(word) {
        return Err(LineFault::LeftOut(at));
    }
    let (digits, unit) = split_digits(word);
    match unit_rate(unit) {
        Some(rate) => scaled(digits, rate, at),
        None => Err(LineFault::BadNumber(at)),
    }
}
