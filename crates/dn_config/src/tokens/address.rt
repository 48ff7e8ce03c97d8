ghost use Rattle.std.specs.Prelude.{◌≡◌, ◌≤◌, option_map, IfSome};
ghost use Rattle.dn_config.specs.Tokens.Addresses.{at_point, octet_of, address_of};

use crate::tokens::numbers::read_number;

/// The text before the first point, and the text after it.
fn split_point(text: &[u8]) -> Option<(&[u8], &[u8])>
    ensures { option_map (λ p. (p.0.now, p.1.now)) result ≡ at_point text.now }
{
    for (i, byte) in text.iter().enumerate() {
        if *byte == b'.' {
            return Some((&text[..i], &text[i + 1..]));
        }
    }
    None
}

/// One of the four numbers of an address.
fn read_octet(text: &[u8]) -> Option<u32>
    ensures value { result ≡ octet_of text.now }
    ensures in_range { IfSome result (λ n. n ≤ 255) }
{
    match read_number(text, 0, 255) {
        Ok(value) => Some(value as u32),
        Err(_) => None,
    }
}

/// The IPv4 address that four numbers 0 to 255 with points between them write.
///
/// The first is the highest byte. None for any other text.
#[tactic(auto, unfolding(crate::specs::Tokens::Addresses::address_of))]
pub fn read_address(text: &[u8]) -> Option<u32>
    ensures { result ≡ address_of text.now }
{
    let (first, rest) = split_point(text)?;
    let (second, rest) = split_point(rest)?;
    let (third, fourth) = split_point(rest)?;
    let first = read_octet(first)?;
    let second = read_octet(second)?;
    let third = read_octet(third)?;
    let fourth = read_octet(fourth)?;
    Some(first * 16_777_216 + second * 65_536 + third * 256 + fourth)
}
