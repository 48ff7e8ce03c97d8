ghost use Rattle.std.specs.Prelude.{◌≡◌, ℕ, ◌≤◌, ◌^◌, ◌↔◌, IsSome, IfSome};

use std::marker::Model;

/// The loss rate in parts of 2^31, 0 to 2^31: a rate `plr` of ipfw(8) is kept as `floor(plr * 2^31)`.
#[derive(Clone, Copy, Debug, PartialEq, Eq, PartialOrd, Ord, Hash)]
pub struct Loss(u32);

impl Model for Loss {
    ghost Value = { ℕ };

    ghost view = { λ a. a.0 };

    ghost invariant = { λ a. a.0 ≤ 2 ^ 31 };

    ghost inverse = { λ n. record { 0 = n } };
}

impl Loss {
    /// The loss rate, or None above 2^31.
    pub fn new(value: u32) -> Option<Loss>
        ensures in_range { IsSome result ↔ (value ≤ 2 ^ 31) }
        ensures value { IfSome result (λ made. made ≡ value) }
    {
        if value <= 1 << 31 {
            Some(Loss(value))
        } else {
            None
        }
    }

    /// The loss rate in parts of 2^31.
    pub fn get(self) -> u32
        ensures value { result ≡ self }
        ensures in_range { result ≤ 2 ^ 31 }
    {
        self.0
    }
}
