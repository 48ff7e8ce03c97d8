ghost use Rattle.std.specs.Prelude.{◌≡◌};
ghost use Rattle.dn_types.specs.declared.limit.Limit.TheVariants.{Slots, Kbytes};
ghost use Rattle.dn_config.specs.Tokens.Numbers.{number_within};
ghost use Rattle.dn_config.specs.Values.{placed, limited, limit_at};

use crate::fault::LineFault;
use crate::keywords::{is, is_in_any_case};
use crate::numbers::number_between;
use crate::tokens::split_digits;
use dn_types::Limit;

/// A number of packets.
fn slots(digits: &[u8], at: usize) -> Result<Limit, LineFault>
    ensures { result ≡ limited Slots (placed at (number_within 1 10000 digits.now)) }
{
    let value = number_between(digits, at, 1, 10_000)?;
    Limit::slots(value as u16).ok_or(LineFault::OutOfRange(at))
}

/// A number of units of 1,024 bytes.
fn kbytes(digits: &[u8], at: usize) -> Result<Limit, LineFault>
    ensures { result ≡ limited Kbytes (placed at (number_within 1 1024 digits.now)) }
{
    let value = number_between(digits, at, 1, 1_024)?;
    Limit::kbytes(value as u16).ok_or(LineFault::OutOfRange(at))
}

/// The limit of a queue.
#[tactic(auto, unfolding(crate::specs::Values::limit_at))]
pub fn limit_value(word: &[u8], at: usize) -> Result<Limit, LineFault>
    ensures { result ≡ limit_at at word.now }
{
    let (digits, unit) = split_digits(word);
    if is(unit, "") {
        slots(digits, at)
    } else if is_in_any_case(unit, "k")
        || is_in_any_case(unit, "kb")
        || is_in_any_case(unit, "kbyte")
        || is_in_any_case(unit, "kbytes")
    {
        kbytes(digits, at)
    } else {
        Err(LineFault::BadNumber(at))
    }
}
