ghost use Rattle.std.specs.Prelude.{◌≡◌, ◌||◌, ℕ, Bool, List, Option};
ghost use Rattle.dn_records.specs.Devices.{Writes, write_fails};

/// A place for bytes that remembers whether a write to it has failed.
pub trait Outlet {
    // The bytes that were written, where they are known.
    ghost contents: { Self → Option (List ℕ) };

    // Whether a write has failed.
    ghost has_failed: { Self → Bool };

    /// Writes some bytes from the front of `buf` and returns how many.
    ///
    /// None is a failure, an interrupted call included, and so is 0 of at least one byte.
    fn write(&mut self, buf: &[u8]) -> Option<usize>
        ensures bytes { Writes (contents self.old) (contents self.new) result buf.now }
        ensures failed { has_failed self.new ≡ has_failed self.old || write_fails result buf.now };

    /// Whether a write has failed since the outlet was made.
    fn failed(&self) -> bool
        ensures { result ≡ has_failed self.now };
}
