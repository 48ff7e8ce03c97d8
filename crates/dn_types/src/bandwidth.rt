ghost use Rattle.std.specs.Prelude.{◌≡◌, ℕ, ◌≤◌, ◌↔◌, IsSome, IfSome};

use std::marker::Model;

/// The bandwidth of a pipe in bit/s, 0 to 10^12. As in ipfw(8), 0 is unlimited.
#[derive(Clone, Copy, Debug, PartialEq, Eq, PartialOrd, Ord, Hash)]
pub struct Bandwidth(u64);

impl Model for Bandwidth {
    ghost Value = { ℕ };

    ghost view = { λ a. a.0 };

    ghost invariant = { λ a. a.0 ≤ 1000000000000 };

    ghost inverse = { λ n. record { 0 = n } };
}

impl Bandwidth {
    /// The bandwidth, or None above 10^12 bit/s.
    pub fn new(value: u64) -> Option<Bandwidth>
        ensures in_range { IsSome result ↔ (value ≤ 1000000000000) }
        ensures value { IfSome result (λ made. made ≡ value) }
    {
        if value <= 1_000_000_000_000 {
            Some(Bandwidth(value))
        } else {
            None
        }
    }

    /// The bandwidth in bit/s.
    pub fn get(self) -> u64
        ensures value { result ≡ self }
        ensures in_range { result ≤ 1000000000000 }
    {
        self.0
    }
}
