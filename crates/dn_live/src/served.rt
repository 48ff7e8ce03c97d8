ghost use Rattle.std.specs.Prelude.{◌≡◌, ◌==◌, ◌+◌, ◌<◌, ◌^◌, cond};

/// What a session came to.
#[derive(Clone, Copy, Debug, PartialEq, Eq)]
pub struct Served {
    /// How many calls were answered.
    pub calls: usize,
    /// How many lines were bad. What stands behind the last line feed is one.
    pub bad: usize,
}

impl Served {
    /// This and what came after it.
    pub(crate) fn with(self, more: Served) -> Served
        requires calls { self.calls + more.calls < 2 ^ 64 }
        requires bad { self.bad + more.bad < 2 ^ 64 }
        ensures { result ≡ record { calls = self.calls + more.calls; bad = self.bad + more.bad } }
    {
        Served {
            calls: self.calls + more.calls,
            bad: self.bad + more.bad,
        }
    }

    /// The status with which the program ends: 0, or 4 where a line was bad.
    pub fn status(self) -> u8
        ensures { result ≡ cond (self.bad == 0) 0 4 }
    {
        if self.bad == 0 { 0 } else { 4 }
    }
}
