ghost use Rattle.std.specs.Prelude.{is_some, ◌||◌, IfOk, length, ◌<◌, ◌≤◌, ◌^◌, ◌≡◌, ◌+◌};
ghost use Rattle.dn_config.specs.Masks.{greatest_of, no_bits, set_field, has_no_bits, has_all_bits};
ghost use Rattle.dn_config.specs.Keywords.{field_of, is_left_out_word};
ghost use Rattle.dn_config.specs.Reading.{GoesOn, ReadsWords, read_field, read_fields, read_mask, left};
ghost use Rattle.dn_config.specs.declared.mask_field.MaskWord.TheVariants.{Valued};

use crate::fault::LineFault;
use crate::keywords::{field_named, is_left_out};
use crate::mask_field::{MaskField, MaskWord, bits_value};
use crate::tokens::Words;
use dn_types::Mask;

/// The mask with no bits.
pub const NO_BITS: Mask = Mask {
    src: 0,
    dst: 0,
    proto: 0,
    sport: 0,
    dport: 0,
};

/// The mask with every bit of every field.
pub const ALL_BITS: Mask = Mask {
    src: 0xffff_ffff,
    dst: 0xffff_ffff,
    proto: 0xff,
    sport: 0xffff,
    dport: 0xffff,
};

/// The mask with one field set, in place of what the field had.
pub fn with_field(mask: Mask, field: MaskField, bits: u32) -> Mask
    requires { bits ≤ greatest_of field }
    ensures { result ≡ set_field mask (Valued field) bits }
{
    match field {
        MaskField::DstIp => Mask { dst: bits, ..mask },
        MaskField::SrcIp => Mask { src: bits, ..mask },
        MaskField::DstPort => Mask {
            dport: bits as u16,
            ..mask
        },
        MaskField::SrcPort => Mask {
            sport: bits as u16,
            ..mask
        },
        MaskField::Proto => Mask {
            proto: bits as u8,
            ..mask
        },
    }
}

/// Whether the mask has no bits.
pub fn has_no_bits(mask: Mask) -> bool
    ensures { result ≡ has_no_bits mask }
{
    mask.dst == 0 && mask.src == 0 && mask.dport == 0 && mask.sport == 0 && mask.proto == 0
}

/// Whether the mask has all bits.
pub fn has_all_bits(mask: Mask) -> bool
    ensures { result ≡ has_all_bits mask }
{
    mask.dst == 0xffff_ffff
        && mask.src == 0xffff_ffff
        && mask.dport == 0xffff
        && mask.sport == 0xffff
        && mask.proto == 0xff
}

/// The mask with the field at this position set, and the words behind it.
fn field(
    mask: Mask,
    at: usize,
    word: MaskWord,
    words: Words<'_>,
) -> Result<(Mask, Words<'_>), LineFault>
    requires place { words.position ≡ at + 1 }
    requires room { words.position + length words.rest.now < 2 ^ 64 }
    ensures reads { ReadsWords result (read_field mask at word (left words.entry)) }
    ensures behind { IfOk result (λ x. GoesOn words.entry x.1) }
{
    match word {
        MaskWord::All => Ok((ALL_BITS, words)),
        MaskWord::Valued(field) => {
            let Some((value, behind)) = words.next() else {
                return Err(LineFault::MissingValue(at));
            };
            let bits = bits_value(value, words.position, field.greatest())?;
            Ok((with_field(mask, field, bits), behind))
        }
    }
}

/// The mask that its fields make, and the words behind them.
fn fields(mut words: Words<'_>) -> Result<(Mask, Words<'_>), LineFault>
    requires { words.position + length words.rest.now < 2 ^ 64 }
    ensures reads { ReadsWords result (read_fields no_bits words.entry.position (left words.entry)) }
    ensures behind { IfOk result (λ x. GoesOn words.entry x.1) }
{
    let mut mask = NO_BITS;
    while let Some((word, behind)) = words.next() {
        let Some(named) = field_named(word) else {
            return if is_left_out(word) {
                Err(LineFault::LeftOut(words.position))
            } else {
                Ok((mask, words))
            };
        };
        (mask, words) = field(mask, words.position, named, behind)?;
    }
    Ok((mask, words))
}

/// Whether the word goes on with a mask, or is one that is left out there.
fn continues_mask(word: &[u8]) -> bool
    ensures { result ≡ (is_some (field_of word.now) || is_left_out_word word.now) }
{
    field_named(word).is_some() || is_left_out(word)
}

/// The mask whose keyword stands at this position, before these words, and the words behind it.
pub fn read_mask(at: usize, words: Words<'_>) -> Result<(Mask, Words<'_>), LineFault>
    requires place { words.position ≡ at + 1 }
    requires room { words.position + length words.rest.now < 2 ^ 64 }
    ensures reads { ReadsWords result (read_mask at (left words.entry)) }
    ensures behind { IfOk result (λ x. GoesOn words.entry x.1) }
{
    let Some((word, _)) = words.next() else {
        return Err(LineFault::MissingValue(at));
    };
    if continues_mask(word) {
        fields(words)
    } else {
        Err(LineFault::MissingValue(at))
    }
}
