ghost use Rattle.std.specs.Prelude.{◌≡◌, ◌≤◌, true, length};
ghost use Rattle.std.specs.List.{prefix_len};
ghost use Rattle.std.specs.Char.{is_ascii_digit};
ghost use Rattle.dn_config.specs.Tokens.Numbers.{digits, unit, all_digits};

/// How many digits a text begins with.
#[tactic(auto, using(std::proofs::lemmas::List::Sums::prefix_len_is))]
fn digits_len(text: &[u8]) -> usize
    ensures value { result ≡ prefix_len is_ascii_digit text.now }
    ensures within { result ≤ length text.now }
{
    for (i, byte) in text.iter().enumerate() {
        if !byte.is_ascii_digit() {
            return i;
        }
    }
    text.len()
}

/// The decimal digits that a text begins with, and the unit that follows them.
pub fn split_digits(text: &[u8]) -> (&[u8], &[u8])
    ensures digits { result.0.now ≡ digits text.now }
    ensures unit { result.1.now ≡ unit text.now }
    ensures all_digits { all_digits 10 result.0.now ≡ true }
{
    text.split_at(digits_len(text))
}
