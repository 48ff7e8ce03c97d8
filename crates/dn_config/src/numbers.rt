ghost use Rattle.std.specs.Prelude.{◌≡◌, ◌≤◌, IfOk};
ghost use Rattle.dn_config.specs.Tokens.Numbers.{number_within};
ghost use Rattle.dn_config.specs.Values.{number_fault, placed, pipe_or_queue_at, weight_at, buckets_at};

use crate::fault::LineFault;
use crate::tokens::{NumberFault, read_number};
use dn_types::{Buckets, Number, Weight};

/// The fault of a line whose number at this position has this fault.
pub fn number_fault(fault: NumberFault, at: usize) -> LineFault
    ensures { result ≡ number_fault at fault }
{
    match fault {
        NumberFault::Shape => LineFault::BadNumber(at),
        NumberFault::Range => LineFault::OutOfRange(at),
    }
}

/// A number from `least` to `greatest`, which stands at this position.
pub fn number_between(word: &[u8], at: usize, least: u64, greatest: u64) -> Result<u64, LineFault>
    ensures value { result ≡ placed at (number_within least greatest word.now) }
    ensures in_range { IfOk result (λ n. (least ≤ n) × (n ≤ greatest)) }
{
    match read_number(word, least, greatest) {
        Ok(value) => Ok(value),
        Err(fault) => Err(number_fault(fault, at)),
    }
}

/// The number of a pipe or of a queue.
pub fn number_value(word: &[u8], at: usize) -> Result<Number, LineFault>
    ensures { result ≡ pipe_or_queue_at at word.now }
{
    let value = number_between(word, at, 1, 65_535)?;
    Number::new(value as u32).ok_or(LineFault::OutOfRange(at))
}

/// The weight of a queue.
pub fn weight_value(word: &[u8], at: usize) -> Result<Weight, LineFault>
    ensures { result ≡ weight_at at word.now }
{
    let value = number_between(word, at, 1, 100)?;
    Weight::new(value as u8).ok_or(LineFault::OutOfRange(at))
}

/// The count of buckets.
pub fn buckets_value(word: &[u8], at: usize) -> Result<Buckets, LineFault>
    ensures { result ≡ buckets_at at word.now }
{
    let value = number_between(word, at, 16, 65_536)?;
    Buckets::new(value as u32).ok_or(LineFault::OutOfRange(at))
}
