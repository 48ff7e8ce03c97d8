ghost use Rattle.std.specs.Prelude.{◌++◌, ◌≡◌, OnOk, string_bytes};
ghost use Rattle.dn_config.specs.Text.{behind_spaces, limit_words, loss_words, buckets_words, field_words, fields_words, mask_words, both_words};

use crate::mask::{has_all_bits, has_no_bits};
use crate::pieces::{push_changed, push_option, push_padded, push_word};
use dn_types::{Buckets, Limit, Loss, Mask};
use std::alloc::AllocError;

/// Writes the limit of a queue, where it isn't the default.
fn push_limit(text: &mut String, limit: Limit) -> Result<(), AllocError>
    ensures { OnOk result (string_bytes text.new ≡ string_bytes text.old ++ behind_spaces (limit_words limit)) }
{
    match limit {
        Limit::Slots(count) => push_changed(text, "queue", u64::from(count.get()), "", 50),
        Limit::Kbytes(count) => push_option(text, "queue", u64::from(count.get()), "Kbytes"),
    }
}

/// Writes a loss rate, where it isn't 0. It is rounded up, so that it reads back as it is kept.
#[tactic(auto, using(crate::proofs::Appends::appends))]
fn push_loss(text: &mut String, loss: Loss) -> Result<(), AllocError>
    ensures { OnOk result (string_bytes text.new ≡ string_bytes text.old ++ behind_spaces (loss_words loss)) }
{
    let kept = loss.get();
    if kept == 0 {
        return Ok(());
    }
    push_word(text, "plr")?;
    if kept == 0x8000_0000 {
        return push_word(text, "1");
    }
    push_word(text, "0.")?;
    let rate = (u128::from(kept) * 1_000_000_000_000_000_000 + 0x7fff_ffff) / 0x8000_0000;
    push_padded(text, 10, 18, rate as u64)
}

/// Writes the count of buckets, where there is one.
fn push_buckets(text: &mut String, buckets: Option<Buckets>) -> Result<(), AllocError>
    ensures { OnOk result (string_bytes text.new ≡ string_bytes text.old ++ behind_spaces (buckets_words buckets)) }
{
    match buckets {
        None => Ok(()),
        Some(buckets) => push_option(text, "buckets", u64::from(buckets.get()), ""),
    }
}

/// Writes a field of a mask, where it isn't 0.
#[tactic(auto, using(crate::proofs::Appends::appends))]
fn push_field(text: &mut String, name: &str, width: u32, bits: u32) -> Result<(), AllocError>
    ensures { OnOk result (string_bytes text.new ≡ string_bytes text.old ++ behind_spaces (field_words name.now width bits)) }
{
    if bits == 0 {
        return Ok(());
    }
    push_word(text, name)?;
    push_word(text, "0x")?;
    push_padded(text, 16, width, u64::from(bits))
}

/// Writes the fields of a mask.
#[tactic(auto, using(crate::proofs::Appends::appends))]
fn push_fields(text: &mut String, mask: Mask) -> Result<(), AllocError>
    ensures { OnOk result (string_bytes text.new ≡ string_bytes text.old ++ behind_spaces (fields_words mask)) }
{
    push_field(text, "dst-ip", 8, mask.dst)?;
    push_field(text, "src-ip", 8, mask.src)?;
    push_field(text, "dst-port", 4, u32::from(mask.dport))?;
    push_field(text, "src-port", 4, u32::from(mask.sport))?;
    push_field(text, "proto", 2, u32::from(mask.proto))
}

/// Writes a mask, where it has bits.
#[tactic(auto, using(crate::proofs::Appends::appends))]
fn push_mask(text: &mut String, mask: Mask) -> Result<(), AllocError>
    ensures { OnOk result (string_bytes text.new ≡ string_bytes text.old ++ behind_spaces (mask_words mask)) }
{
    if has_no_bits(mask) {
        return Ok(());
    }
    push_word(text, "mask")?;
    if has_all_bits(mask) {
        return push_word(text, "all");
    }
    push_fields(text, mask)
}

/// Writes the options that both kinds of line have.
#[tactic(auto, using(crate::proofs::Appends::appends))]
pub fn push_both(
    text: &mut String,
    limit: Limit,
    loss: Loss,
    buckets: Option<Buckets>,
    mask: Mask,
) -> Result<(), AllocError>
    ensures { OnOk result (string_bytes text.new ≡ string_bytes text.old ++ behind_spaces (both_words limit loss buckets mask)) }
{
    push_limit(text, limit)?;
    push_loss(text, loss)?;
    push_buckets(text, buckets)?;
    push_mask(text, mask)
}
