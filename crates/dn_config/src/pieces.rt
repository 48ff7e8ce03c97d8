ghost use Rattle.std.specs.Prelude.{[], ◌∷◌, ◌++◌, ◌≡◌, ◌≤◌, OnOk, decimal, string_bytes};
ghost use Rattle.dn_config.specs.Text.{zero_padded, behind_spaces, number_words};

use itoa::Buffer;
use std::alloc::AllocError;

/// Writes a number at the end of a text.
fn push_number(text: &mut String, number: u64) -> Result<(), AllocError>
    ensures { OnOk result (string_bytes text.new ≡ string_bytes text.old ++ decimal number) }
{
    let mut buffer = Buffer::new();
    text.push_str(buffer.format(number))
}

/// Writes the last `width` digits of a number in a radix.
pub fn push_padded(text: &mut String, radix: u32, width: u32, number: u64) -> Result<(), AllocError>
    requires radix_from { 2 ≤ radix }
    requires radix_to { radix ≤ 36 }
    ensures { OnOk result (string_bytes text.new ≡ string_bytes text.old ++ zero_padded radix width number) }
{
    if width == 0 {
        return Ok(());
    }
    push_padded(text, radix, width - 1, number / u64::from(radix))?;
    let digit = (number % u64::from(radix)) as u32;
    let Some(digit) = char::from_digit(digit, radix) else {
        unreachable!()
    };
    text.push(digit)
}

/// Writes a space and a word.
pub fn push_word(text: &mut String, word: &str) -> Result<(), AllocError>
    ensures { OnOk result (string_bytes text.new ≡ string_bytes text.old ++ behind_spaces (word.now ∷ [])) }
{
    text.push(' ')?;
    text.push_str(word)
}

/// Writes a space and a number.
#[tactic(auto, using(crate::proofs::Appends::appends))]
pub fn push_numeral(text: &mut String, number: u64) -> Result<(), AllocError>
    ensures { OnOk result (string_bytes text.new ≡ string_bytes text.old ++ behind_spaces (decimal number ∷ [])) }
{
    text.push(' ')?;
    push_number(text, number)
}

/// Writes an option with a number and a unit.
#[tactic(auto, using(crate::proofs::Appends::appends))]
pub fn push_option(text: &mut String, name: &str, number: u64, unit: &str) -> Result<(), AllocError>
    ensures { OnOk result (string_bytes text.new ≡ string_bytes text.old ++ behind_spaces (name.now ∷ (decimal number ++ unit.now) ∷ [])) }
{
    push_word(text, name)?;
    text.push(' ')?;
    push_number(text, number)?;
    text.push_str(unit)
}

/// Writes an option with a number and a unit, where the number isn't the default.
pub fn push_changed(
    text: &mut String,
    name: &str,
    number: u64,
    unit: &str,
    default: u64,
) -> Result<(), AllocError>
    ensures { OnOk result (string_bytes text.new ≡ string_bytes text.old ++ behind_spaces (number_words name.now unit.now default number)) }
{
    if number == default {
        return Ok(());
    }
    push_option(text, name, number, unit)
}
