ghost use Rattle.std.specs.Prelude.{◌≡◌};
ghost use Rattle.dn_history.specs.EntryRecords.{target_name, target_number};

use dn_types::Target;

/// Whether a pipe or a queue is meant, in a word.
pub(crate) fn target_name(target: &Target) -> &'static str
    ensures { result.now ≡ target_name target.now }
{
    match target {
        Target::Pipe(_) => "pipe",
        Target::Queue(_) => "queue",
    }
}

/// The number of the pipe or queue.
pub(crate) fn target_number(target: &Target) -> u64
    ensures { result ≡ target_number target.now }
{
    match target {
        Target::Pipe(number) | Target::Queue(number) => u64::from(number.get()),
    }
}
