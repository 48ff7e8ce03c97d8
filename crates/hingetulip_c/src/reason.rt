//! Why a call was answered so, in words, without memory: a caller may ask it when memory was refused.

ghost use Rattle.std.specs.Prelude.{[], ◌≡◌, ◌≤◌, ◌++◌, codes, decimal, length, IfSome, IfNone};
ghost use Rattle.hingetulip_c.specs.Reasons.{fault_words, reason};

use crate::records::CFault;
use crate::status::{LINE, status_words};
use arrayvec::ArrayString;
use dn_config::LineFault;
use itoa::Buffer;

/// The most bytes of a reason, which the header promises.
const MOST: usize = 128;

/// The words for the kind of a fault, or None for a number that is none.
fn fault_words(kind: u32) -> Option<&'static str>
    ensures some { IfSome result (λ words. (words.now ≡ fault_words kind) × (length words.now ≤ 60)) }
    ensures none { IfNone result (fault_words kind ≡ codes "fault " ++ decimal kind) }
{
    match kind {
        0 => Some("not UTF-8"),
        1 => Some(LineFault::UnknownWord(0).name()),
        2 => Some(LineFault::MissingValue(0).name()),
        3 => Some(LineFault::BadNumber(0).name()),
        4 => Some(LineFault::OutOfRange(0).name()),
        5 => Some(LineFault::LeftOut(0).name()),
        6 => Some(LineFault::NeedsPipe(0).name()),
        7 => Some(LineFault::OutOfMemory.name()),
        _ => None,
    }
}

/// Adds the words, or for a number without words what it counts, and the number.
fn push_words(text: &mut ArrayString<MOST>, words: Option<&str>, counted: &str, number: u64)
    requires room { length text.old.bytes ≤ 40 }
    requires words { IfSome words (λ w. length w.now ≤ 60) }
    requires counted { length counted.now ≤ 20 }
    ensures some { IfSome words.entry (λ w. text.new.bytes ≡ text.old.bytes ++ w.now) }
    ensures none { IfNone words.entry (text.new.bytes ≡ text.old.bytes ++ (counted.now ++ decimal number)) }
{
    match words {
        Some(words) => text.push_str(words),
        None => {
            text.push_str(counted);
            text.push_str(Buffer::new().format(number));
        }
    }
}

/// Begins with the word at which the fault is.
fn push_word(text: &mut ArrayString<MOST>, word: u64)
    requires { text.old.bytes ≡ [] }
    ensures text { text.new.bytes ≡ codes "word " ++ decimal word ++ codes ": " }
    ensures short { length text.new.bytes ≤ 40 }
{
    text.push_str("word ");
    text.push_str(Buffer::new().format(word));
    text.push_str(": ");
}

/// What the status says, or under DN_LINE what is wrong with the line.
pub(crate) fn reason_of(status: u32, fault: &CFault) -> ArrayString<MOST>
    ensures { result.bytes ≡ reason status fault.now }
{
    let mut text = ArrayString::new();
    if status != LINE {
        push_words(
            &mut text,
            status_words(status),
            "status ",
            u64::from(status),
        );
        return text;
    }
    if fault.word != 0 {
        push_word(&mut text, fault.word);
    }
    push_words(
        &mut text,
        fault_words(fault.kind),
        "fault ",
        u64::from(fault.kind),
    );
    text
}
