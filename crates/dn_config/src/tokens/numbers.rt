ghost use Rattle.std.specs.Prelude.{◌≡◌, ◌≤◌, IfOk};
ghost use Rattle.dn_config.specs.Tokens.Numbers.{numeral_of, number_of, within, number_within};

use crate::tokens::number_fault::NumberFault;

/// The value of one digit or more in a radix, at most `greatest`.
///
/// Leading zeros are allowed, and the text may be of any length.
#[tactic(auto, unfolding(crate::specs::Tokens::Numbers::numeral_of, crate::specs::Tokens::Numbers::within))]
pub fn read_numeral(text: &[u8], radix: u32, greatest: u64) -> Result<u64, NumberFault>
    requires radix_from { 2 ≤ radix }
    requires radix_to { radix ≤ 36 }
    ensures value { result ≡ within 0 greatest (numeral_of radix text.now) }
    ensures in_range { IfOk result (λ n. n ≤ greatest) }
{
    if text.is_empty() {
        return Err(NumberFault::Shape);
    }
    // What is above `greatest` counts as one more than it, so that a long text needs no more room.
    let beyond = u128::from(greatest) + 1;
    let mut value = 0u128;
    for byte in text {
        let Some(digit) = char::from(*byte).to_digit(radix) else {
            return Err(NumberFault::Shape);
        };
        value = (value * u128::from(radix) + u128::from(digit)).min(beyond);
    }
    if value == beyond {
        return Err(NumberFault::Range);
    }
    Ok(value as u64)
}

/// The value of a decimal number from `least` to `greatest`, as `0` or a digit 1 to 9 and any digits write it.
///
/// The text may be of any length.
#[tactic(auto, unfolding(crate::specs::Tokens::Numbers::number_of, crate::specs::Tokens::Numbers::within))]
pub fn read_number(text: &[u8], least: u64, greatest: u64) -> Result<u64, NumberFault>
    ensures value { result ≡ number_within least greatest text.now }
    ensures in_range { IfOk result (λ n. (least ≤ n) × (n ≤ greatest)) }
{
    if text.len() > 1 && text[0] == b'0' {
        return Err(NumberFault::Shape);
    }
    let value = read_numeral(text, 10, greatest)?;
    if value < least {
        return Err(NumberFault::Range);
    }
    Ok(value)
}
