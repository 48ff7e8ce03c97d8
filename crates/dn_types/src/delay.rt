ghost use Rattle.std.specs.Prelude.{◌≡◌, ℕ, ◌≤◌, ◌↔◌, IsSome, IfSome};

use std::marker::Model;

/// The propagation delay of a pipe in milliseconds, 0 to 3,600,000 (one hour).
#[derive(Clone, Copy, Debug, PartialEq, Eq, PartialOrd, Ord, Hash)]
pub struct Delay(u32);

impl Model for Delay {
    ghost Value = { ℕ };

    ghost view = { λ a. a.0 };

    ghost invariant = { λ a. a.0 ≤ 3600000 };

    ghost inverse = { λ n. record { 0 = n } };
}

impl Delay {
    /// The delay, or None above 3,600,000 ms.
    pub fn new(value: u32) -> Option<Delay>
        ensures in_range { IsSome result ↔ (value ≤ 3600000) }
        ensures value { IfSome result (λ made. made ≡ value) }
    {
        if value <= 3_600_000 {
            Some(Delay(value))
        } else {
            None
        }
    }

    /// The delay in milliseconds.
    pub fn get(self) -> u32
        ensures value { result ≡ self }
        ensures in_range { result ≤ 3600000 }
    {
        self.0
    }
}
