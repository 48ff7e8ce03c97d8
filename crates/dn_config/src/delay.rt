ghost use Rattle.std.specs.Prelude.{◌≡◌};
ghost use Rattle.dn_config.specs.Tokens.Numbers.{number_within};
ghost use Rattle.dn_config.specs.Values.{placed, delay_at};

use crate::fault::LineFault;
use crate::keywords::is;
use crate::numbers::number_between;
use crate::tokens::split_digits;
use dn_types::Delay;

/// A number of milliseconds.
fn milliseconds(digits: &[u8], at: usize) -> Result<Delay, LineFault>
    ensures { result ≡ placed at (number_within 0 3600000 digits.now) }
{
    let value = number_between(digits, at, 0, 3_600_000)?;
    Delay::new(value as u32).ok_or(LineFault::OutOfRange(at))
}

/// The delay of a pipe.
#[tactic(auto, unfolding(crate::specs::Values::delay_at))]
pub fn delay_value(word: &[u8], at: usize) -> Result<Delay, LineFault>
    ensures { result ≡ delay_at at word.now }
{
    let (digits, unit) = split_digits(word);
    if is(unit, "") || is(unit, "ms") {
        milliseconds(digits, at)
    } else {
        Err(LineFault::BadNumber(at))
    }
}
