ghost use Rattle.std.specs.Prelude.{IfOk, length, ◌<◌, ◌^◌, ◌≡◌, ◌+◌};
ghost use Rattle.dn_config.specs.Groups.{value_of, belongs};
ghost use Rattle.dn_config.specs.Reading.{GoesOn, ReadsWords, read_named, left};

use crate::bandwidth::bandwidth_value;
use crate::delay::delay_value;
use crate::fault::LineFault;
use crate::kind::Kind;
use crate::limit::limit_value;
use crate::loss::loss_value;
use crate::mask::read_mask;
use crate::numbers::{buckets_value, number_value, weight_value};
use crate::tokens::Words;
use dn_types::{Bandwidth, Buckets, Delay, Limit, Loss, Mask, Number, Weight};

/// An option with one value.
#[derive(Clone, Copy, Debug, PartialEq, Eq)]
pub enum Parameter {
    Bandwidth,
    Delay,
    Queue,
    Loss,
    Buckets,
    Weight,
    Pipe,
}

/// A word that begins an option.
#[derive(Clone, Copy, Debug, PartialEq, Eq)]
pub enum OptionWord {
    Valued(Parameter),
    Mask,
}

/// What one option says.
#[derive(Clone, Copy, Debug, PartialEq, Eq)]
pub enum Setting {
    Bandwidth(Bandwidth),
    Delay(Delay),
    Limit(Limit),
    Loss(Loss),
    Buckets(Buckets),
    Weight(Weight),
    Pipe(Number),
    Mask(Mask),
}

/// Whether a line of this kind may have this option.
fn belongs_to(kind: Kind, parameter: Parameter) -> bool
    ensures { result ≡ belongs kind parameter }
{
    match parameter {
        Parameter::Bandwidth | Parameter::Delay => kind == Kind::Pipe,
        Parameter::Weight | Parameter::Pipe => kind == Kind::Queue,
        Parameter::Queue | Parameter::Loss | Parameter::Buckets => true,
    }
}

/// What an option with this value says.
fn valued(parameter: Parameter, value: &[u8], at: usize) -> Result<Setting, LineFault>
    ensures { result ≡ value_of at parameter value.now }
{
    match parameter {
        Parameter::Bandwidth => Ok(Setting::Bandwidth(bandwidth_value(value, at)?)),
        Parameter::Delay => Ok(Setting::Delay(delay_value(value, at)?)),
        Parameter::Queue => Ok(Setting::Limit(limit_value(value, at)?)),
        Parameter::Loss => Ok(Setting::Loss(loss_value(value, at)?)),
        Parameter::Buckets => Ok(Setting::Buckets(buckets_value(value, at)?)),
        Parameter::Weight => Ok(Setting::Weight(weight_value(value, at)?)),
        Parameter::Pipe => Ok(Setting::Pipe(number_value(value, at)?)),
    }
}

/// What the option at this position says, by its keyword, and the words behind it.
pub fn option(
    kind: Kind,
    at: usize,
    name: Option<OptionWord>,
    left_out: bool,
    words: Words<'_>,
) -> Result<(Setting, Words<'_>), LineFault>
    requires place { words.position ≡ at + 1 }
    requires room { words.position + length words.rest.now < 2 ^ 64 }
    ensures reads { ReadsWords result (read_named kind at name left_out (left words.entry)) }
    ensures behind { IfOk result (λ x. GoesOn words.entry x.1) }
{
    let Some(name) = name else {
        return if left_out {
            Err(LineFault::LeftOut(at))
        } else {
            Err(LineFault::UnknownWord(at))
        };
    };
    match name {
        OptionWord::Mask => {
            let (mask, words) = read_mask(at, words)?;
            Ok((Setting::Mask(mask), words))
        }
        OptionWord::Valued(parameter) => {
            if !belongs_to(kind, parameter) {
                return Err(LineFault::UnknownWord(at));
            }
            let Some((value, behind)) = words.next() else {
                return Err(LineFault::MissingValue(at));
            };
            let setting = valued(parameter, value, words.position)?;
            Ok((setting, behind))
        }
    }
}
