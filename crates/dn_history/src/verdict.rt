ghost use Rattle.std.specs.Prelude.{◌≡◌};
ghost use Rattle.dn_history.specs.Audit.{verdict_status};

/// What an audit finds of a history.
#[derive(Clone, Copy, Debug, PartialEq, Eq)]
pub enum Verdict {
    /// Each reply is the one of sequential dummynet after the calls before it.
    Lawful,
    /// The first entry whose reply is another one, counted from 0.
    Differs(usize),
}

impl Verdict {
    /// The status with which the program ends on this verdict: 0 or 1.
    pub fn status(&self) -> u8
        ensures { result ≡ verdict_status self.now }
    {
        match self {
            Verdict::Lawful => 0,
            Verdict::Differs(_) => 1,
        }
    }
}
