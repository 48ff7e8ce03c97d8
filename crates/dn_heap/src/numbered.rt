ghost use Rattle.std.specs.Prelude.{◌≡◌, ℕ};

/// A key with a number by which a heap finds it.
pub trait Numbered {
    ghost number: { Self → ℕ };

    /// The number of the key.
    fn number(&self) -> usize
        ensures { result ≡ number self.now };
}
