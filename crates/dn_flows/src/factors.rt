ghost use Rattle.std.specs.Prelude.{◌≡◌};
ghost use Rattle.dn_flows.specs.Hashing.{product};

/// What the two halves of a word of a key are multiplied by.
#[derive(Clone, Copy)]
pub struct Factors {
    pub lower: u64,
    pub upper: u64,
}

impl Factors {
    /// The sum of the two products, modulo 2^64.
    pub fn product(&self, word: u64) -> u64
        ensures { result ≡ product self.now word }
    {
        let lower = self.lower.wrapping_mul(word % 0x1_0000_0000);
        let upper = self.upper.wrapping_mul(word / 0x1_0000_0000);
        lower.wrapping_add(upper)
    }
}
