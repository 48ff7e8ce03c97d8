ghost use Rattle.std.specs.Prelude.{◌≡◌, ◌≤◌, ◌<◌, ◌==◌, ◌&&◌, ◌||◌, IfOk, IsTrue, slice_index, length};
ghost use Rattle.dn_config.specs.Tokens.Numbers.{within};
ghost use Rattle.dn_config.specs.Masks.{greatest_of};
ghost use Rattle.dn_config.specs.Values.{placed, bits_of, bits_at};

use crate::fault::LineFault;
use crate::numbers::number_fault;
use crate::tokens::{NumberFault, read_number, read_numeral};

/// A field of a mask.
#[derive(Clone, Copy, Debug, PartialEq, Eq)]
pub enum MaskField {
    DstIp,
    SrcIp,
    DstPort,
    SrcPort,
    Proto,
}

impl MaskField {
    /// The value of the field with all bits set.
    pub fn greatest(self) -> u32
        ensures { result ≡ greatest_of self }
    {
        match self {
            MaskField::DstIp | MaskField::SrcIp => 0xffff_ffff,
            MaskField::DstPort | MaskField::SrcPort => 0xffff,
            MaskField::Proto => 0xff,
        }
    }
}

/// A word of a mask.
#[derive(Clone, Copy, Debug, PartialEq, Eq)]
pub enum MaskWord {
    Valued(MaskField),
    All,
}

/// Whether the word begins with a slash.
fn begins_with_slash(word: &[u8]) -> bool
    ensures { result ≡ (slice_index word.now 0 == 47) }
{
    !word.is_empty() && word[0] == b'/'
}

/// Whether the word is a hexadecimal number by its first two bytes.
fn is_hexadecimal(word: &[u8]) -> bool
    ensures value { result ≡ (slice_index word.now 0 == 48 && (slice_index word.now 1 == 120 || slice_index word.now 1 == 88)) }
    ensures long { IsTrue result → 2 ≤ length word.now }
{
    word.len() > 1 && word[0] == b'0' && (word[1] == b'x' || word[1] == b'X')
}

/// A number, or `0x` and hexadecimal digits, up to `greatest`.
#[tactic(auto, unfolding(crate::specs::Values::bits_of))]
fn read_bits(word: &[u8], greatest: u32) -> Result<u64, NumberFault>
    ensures value { result ≡ within 0 greatest (bits_of word.now) }
    ensures in_range { IfOk result (λ n. n ≤ greatest) }
{
    if is_hexadecimal(word) {
        read_numeral(&word[2..], 16, u64::from(greatest))
    } else {
        read_number(word, 0, u64::from(greatest))
    }
}

/// The value of a field of a mask.
#[tactic(auto, unfolding(crate::specs::Values::bits_at))]
pub fn bits_value(word: &[u8], at: usize, greatest: u32) -> Result<u32, LineFault>
    ensures value { result ≡ bits_at at greatest word.now }
    ensures in_range { IfOk result (λ n. n ≤ greatest) }
{
    if begins_with_slash(word) {
        return Err(LineFault::LeftOut(at));
    }
    match read_bits(word, greatest) {
        Ok(bits) => Ok(bits as u32),
        Err(fault) => Err(number_fault(fault, at)),
    }
}
