ghost use Rattle.std.specs.Prelude.{◌≡◌, bytes_eq};
ghost use Rattle.dn_config.specs.Keywords.{option_of, field_of, is_left_out_word, is_query};
ghost use Rattle.dn_config.specs.Values.{lower};

use crate::mask_field::{MaskField, MaskWord};
use crate::option_group::{OptionWord, Parameter};

/// Whether the word is this keyword.
pub fn is(word: &[u8], keyword: &str) -> bool
    ensures { result ≡ bytes_eq word.now keyword.now }
{
    word == keyword.as_bytes()
}

/// Is the word this unit, in letters of either case? Only ASCII letters have a case here.
pub fn is_in_any_case(word: &[u8], unit: &str) -> bool
    ensures { result ≡ bytes_eq (lower word.now) (lower unit.now) }
{
    word.eq_ignore_ascii_case(unit.as_bytes())
}

/// The option that a word begins.
#[tactic(auto, unfolding(crate::specs::Keywords::option_of))]
pub fn option_named(word: &[u8]) -> Option<OptionWord>
    ensures { result ≡ option_of word.now }
{
    if is(word, "bw") {
        Some(OptionWord::Valued(Parameter::Bandwidth))
    } else if is(word, "delay") {
        Some(OptionWord::Valued(Parameter::Delay))
    } else if is(word, "queue") {
        Some(OptionWord::Valued(Parameter::Queue))
    } else if is(word, "plr") {
        Some(OptionWord::Valued(Parameter::Loss))
    } else if is(word, "buckets") {
        Some(OptionWord::Valued(Parameter::Buckets))
    } else if is(word, "weight") {
        Some(OptionWord::Valued(Parameter::Weight))
    } else if is(word, "pipe") {
        Some(OptionWord::Valued(Parameter::Pipe))
    } else if is(word, "mask") {
        Some(OptionWord::Mask)
    } else {
        None
    }
}

/// The part of a mask that a word names.
#[tactic(auto, unfolding(crate::specs::Keywords::field_of))]
pub fn field_named(word: &[u8]) -> Option<MaskWord>
    ensures { result ≡ field_of word.now }
{
    if is(word, "dst-ip") {
        Some(MaskWord::Valued(MaskField::DstIp))
    } else if is(word, "src-ip") {
        Some(MaskWord::Valued(MaskField::SrcIp))
    } else if is(word, "dst-port") {
        Some(MaskWord::Valued(MaskField::DstPort))
    } else if is(word, "src-port") {
        Some(MaskWord::Valued(MaskField::SrcPort))
    } else if is(word, "proto") {
        Some(MaskWord::Valued(MaskField::Proto))
    } else if is(word, "all") {
        Some(MaskWord::All)
    } else {
        None
    }
}

/// Whether the word is an option or a mask field of ipfw(8) that this project leaves out.
#[tactic(auto, unfolding(crate::specs::Keywords::is_left_out_word))]
pub fn is_left_out(word: &[u8]) -> bool
    ensures { result ≡ is_left_out_word word.now }
{
    is(word, "red")
        || is(word, "gred")
        || is(word, "ecn")
        || is(word, "codel")
        || is(word, "pie")
        || is(word, "fq_codel")
        || is(word, "fq_pie")
        || is(word, "sched")
        || is(word, "burst")
        || is(word, "profile")
        || is(word, "noerror")
        || is(word, "src-ip6")
        || is(word, "dst-ip6")
        || is(word, "flow-id")
}

/// Whether the word asks for a listing, which this project leaves out.
pub fn asks(word: &[u8]) -> bool
    ensures { result ≡ is_query word.now }
{
    is(word, "show") || is(word, "list")
}
