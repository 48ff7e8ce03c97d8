ghost use Rattle.std.specs.Prelude.{◌≡◌, ◌||◌, ℕ, Bool, List, Option};
ghost use Rattle.dn_records.specs.Devices.{ReadsBytes, read_fails};

/// A source of bytes that remembers whether a read of it has failed.
pub trait Inlet {
    // The bytes that reads will give from here on, where they are known.
    ghost remaining: { Self → Option (List ℕ) };

    // Whether a read has failed.
    ghost has_failed: { Self → Bool };

    /// Reads some bytes into the front of `buf` and returns how many.
    ///
    /// 0 is returned only at the end of the input or if `buf` is empty. None is a failure, an interrupted call included.
    fn read(&mut self, buf: &mut [u8]) -> Option<usize>
        ensures bytes { ReadsBytes (remaining self.old) (remaining self.new) result buf.new }
        ensures failed { has_failed self.new ≡ has_failed self.old || read_fails result };

    /// Whether a read has failed since the inlet was made.
    fn failed(&self) -> bool
        ensures { result ≡ has_failed self.now };
}
