ghost use Rattle.std.specs.Prelude.{◌≡◌, codes, option_map};
ghost use Rattle.dn_types.specs.declared.target.Target.TheVariants.{Pipe, Queue};
ghost use Rattle.dn_files.specs.PlainRow.{kind_until, row_until, target_until, tuple_until};

use crate::line_end::number_at_end;
use crate::row::Row;
use dn_config::{address_until, number_until};
use dn_types::{FiveTuple, Len, Moment, Number, Packet, Target};

/// The pipe at the front of a text, and what stands behind the comma after its number.
#[inline(always)]
#[tactic(auto, unfolding(crate::specs::PlainRow::kind_until))]
fn pipe_at_front(text: &[u8]) -> Option<(Target, &[u8])>
    ensures { option_map (λ p. (p.0, p.1.now)) result ≡ kind_until (codes "pipe") Pipe text.now }
{
    let rest = text.strip_prefix(b"pipe,")?;
    let (number, rest) = number_until(rest, b',', 1, 65_535)?;
    Some((Target::Pipe(Number::new(number as u32)?), rest))
}

/// The queue at the front of a text, and what stands behind the comma after its number.
#[inline(always)]
#[tactic(auto, unfolding(crate::specs::PlainRow::kind_until))]
fn queue_at_front(text: &[u8]) -> Option<(Target, &[u8])>
    ensures { option_map (λ p. (p.0, p.1.now)) result ≡ kind_until (codes "queue") Queue text.now }
{
    let rest = text.strip_prefix(b"queue,")?;
    let (number, rest) = number_until(rest, b',', 1, 65_535)?;
    Some((Target::Queue(Number::new(number as u32)?), rest))
}

/// The target at the front of a text, and what stands behind the comma after its number.
#[inline(always)]
#[tactic(auto, unfolding(crate::specs::PlainRow::target_until))]
pub fn target_at_front(text: &[u8]) -> Option<(Target, &[u8])>
    ensures { option_map (λ p. (p.0, p.1.now)) result ≡ target_until text.now }
{
    match pipe_at_front(text) {
        Some(found) => Some(found),
        None => queue_at_front(text),
    }
}

/// The addresses, protocol and ports at the front of a text, and what stands behind the comma after them.
#[inline(always)]
#[tactic(auto, unfolding(crate::specs::PlainRow::tuple_until))]
pub fn tuple_at_front(text: &[u8]) -> Option<(FiveTuple, &[u8])>
    ensures { option_map (λ p. (p.0, p.1.now)) result ≡ tuple_until text.now }
{
    let (src, text) = address_until(text, b',')?;
    let (dst, text) = address_until(text, b',')?;
    let (proto, text) = number_until(text, b',', 0, 255)?;
    let (sport, text) = number_until(text, b',', 0, 65_535)?;
    let (dport, text) = number_until(text, b',', 0, 65_535)?;
    let tuple = FiveTuple {
        src,
        dst,
        proto: proto as u8,
        sport: sport as u16,
        dport: dport as u16,
    };
    Some((tuple, text))
}

/// The row whose plain line a text begins with, and what follows that line.
///
/// None if the text begins otherwise, as with a quote, a carriage return alone, a faulty row or a part of a row.
#[inline(always)]
#[tactic(auto, unfolding(crate::specs::PlainRow::row_until))]
pub(crate) fn plain_row(text: &[u8]) -> Option<(Row, &[u8])>
    ensures { option_map (λ p. (p.0, p.1.now)) result ≡ row_until text.now }
{
    let (moment, text) = number_until(text, b',', 0, 1 << 62)?;
    // The prover has no rule for `?` at a pair of a value of dn_types and a slice.
    let Some((target, text)) = target_at_front(text) else {
        return None;
    };
    let Some((tuple, text)) = tuple_at_front(text) else {
        return None;
    };
    let (len, text) = number_until(text, b',', 1, 65_535)?;
    let (word, text) = number_at_end(text, 0, 4_294_967_295)?;
    let packet = Packet {
        tuple,
        len: Len::new(len as u16)?,
        word: word as u32,
    };
    let row = Row {
        moment: Moment::new(moment)?,
        target,
        packet,
    };
    Some((row, text))
}
