ghost use Rattle.std.specs.Prelude.{length, ◌<◌, ◌^◌, ◌≡◌, ◌+◌};
ghost use Rattle.dn_config.specs.Settings.{defaults};
ghost use Rattle.dn_config.specs.Reading.{read_options, left};

use crate::fault::LineFault;
use crate::keywords::{is_left_out, option_named};
use crate::kind::Kind;
use crate::mask::NO_BITS;
use crate::option_group::{Setting, option};
use crate::tokens::Words;
use dn_types::{Bandwidth, Buckets, Delay, Limit, Loss, Mask, Number, Weight};

/// What the options of a line say together.
#[derive(Clone, Copy, Debug, PartialEq, Eq)]
pub struct Options {
    pub bw: Bandwidth,
    pub delay: Delay,
    pub limit: Limit,
    pub loss: Loss,
    pub buckets: Option<Buckets>,
    pub weight: Weight,
    pub pipe: Option<Number>,
    pub mask: Mask,
}

impl Options {
    ghost use Rattle.dn_config.specs.Settings.{set_option, defaults};

    /// What a line without options says.
    pub fn none() -> Options
        ensures { result ≡ defaults }
    {
        Options {
            bw: Bandwidth::new(0).unwrap(),
            delay: Delay::new(0).unwrap(),
            limit: Limit::slots(50).unwrap(),
            loss: Loss::new(0).unwrap(),
            buckets: None,
            weight: Weight::new(1).unwrap(),
            pipe: None,
            mask: NO_BITS,
        }
    }

    /// The options with one more setting, which counts in place of an earlier one of its kind.
    pub fn with(self, setting: Setting) -> Options
        ensures { result ≡ set_option self setting }
    {
        match setting {
            Setting::Bandwidth(bw) => Options { bw, ..self },
            Setting::Delay(delay) => Options { delay, ..self },
            Setting::Limit(limit) => Options { limit, ..self },
            Setting::Loss(loss) => Options { loss, ..self },
            Setting::Buckets(buckets) => Options {
                buckets: Some(buckets),
                ..self
            },
            Setting::Weight(weight) => Options { weight, ..self },
            Setting::Pipe(pipe) => Options {
                pipe: Some(pipe),
                ..self
            },
            Setting::Mask(mask) => Options { mask, ..self },
        }
    }
}

/// What all options of a line say together.
pub fn read_options(kind: Kind, mut words: Words<'_>) -> Result<Options, LineFault>
    requires { words.position + length words.rest.now < 2 ^ 64 }
    ensures { result ≡ read_options kind defaults words.entry.position (left words.entry) }
{
    let mut options = Options::none();
    while let Some((word, behind)) = words.next() {
        let name = option_named(word);
        let left_out = is_left_out(word);
        match option(kind, words.position, name, left_out, behind) {
            Ok((setting, behind)) => {
                options = options.with(setting);
                words = behind;
            }
            Err(fault) => return Err(fault),
        }
    }
    Ok(options)
}
