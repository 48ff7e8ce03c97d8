ghost use Rattle.std.specs.Prelude.{◌≡◌};
ghost use Rattle.dn_replay.specs.Kept.{lacks_target};

/// Why the packet of a row was not accepted.
///
/// `at` is the effective moment of its Submit in nanoseconds, and `flow` a flow number.
#[derive(Clone, Copy, Debug)]
pub(crate) enum Refusal {
    /// It was lost by the loss rate.
    Lost { flow: usize, at: u64 },
    /// It was refused by a full queue.
    Full { flow: usize, at: u64 },
    /// Its target had no configuration.
    NoTarget { at: u64 },
    /// Its Submit came after the last call that counts.
    Unanswered,
}

impl Refusal {
    pub(crate) fn lacks_target(&self) -> bool
        ensures { result ≡ lacks_target self.now }
    {
        matches!(self, Refusal::NoTarget { .. })
    }
}
