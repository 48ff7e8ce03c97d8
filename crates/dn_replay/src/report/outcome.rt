ghost use Rattle.std.specs.Prelude.{◌≡◌, not};
ghost use Rattle.std.specs.List.{list_any};
ghost use Rattle.dn_replay.specs.Kept.{all_untargeted, is_row, is_untargeted};

use crate::report::fate::Fate;
use crate::report::order::is_submit;
use dn_types::Entry;

/// What is to be told of a replay beside its report.
#[derive(Clone, Copy, Debug, PartialEq, Eq)]
pub struct Outcome {
    /// There is a row, and no row has a target: nothing went through a link.
    pub untargeted: bool,
}

/// Whether an entry is the Submit of a row with a target.
fn is_targeted(entry: &Entry) -> bool
    ensures { result ≡ is_row (λ f. not (is_untargeted f)) entry.now }
{
    is_submit(&entry.call) && !Fate::of(&entry.reply).is_untargeted()
}

/// Whether an entry is the Submit of a row without a target.
fn is_untargeted(entry: &Entry) -> bool
    ensures { result ≡ is_row is_untargeted entry.now }
{
    is_submit(&entry.call) && Fate::of(&entry.reply).is_untargeted()
}

/// Whether a history has a row with a target.
fn has_target(entries: &[Entry]) -> bool
    ensures { result ≡ list_any (is_row (λ f. not (is_untargeted f))) entries.now }
{
    entries.iter().any(|entry| is_targeted(entry))
}

/// Whether a history has a row without a target.
fn lacks_target(entries: &[Entry]) -> bool
    ensures { result ≡ list_any (is_row is_untargeted) entries.now }
{
    entries.iter().any(|entry| is_untargeted(entry))
}

/// Whether a history has a row, and no row has a target.
fn all_untargeted(entries: &[Entry]) -> bool
    ensures { result ≡ all_untargeted entries.now }
{
    !has_target(entries) && lacks_target(entries)
}

impl Outcome {
    /// The outcome of a replay that left this history, of one caller or of several.
    pub fn of(entries: &[Entry]) -> Outcome
        ensures { result.untargeted ≡ all_untargeted entries.now }
    {
        Outcome {
            untargeted: all_untargeted(entries),
        }
    }
}
