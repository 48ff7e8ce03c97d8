ghost use Rattle.std.specs.Prelude.{◌≡◌, ℕ, ◌≤◌, ◌↔◌, IsSome, IfSome};

use std::marker::Model;

/// The number of a pipe or of a queue, 1 to 65535, as in `pipe N config` of ipfw(8).
#[derive(Clone, Copy, Debug, PartialEq, Eq, PartialOrd, Ord, Hash)]
pub struct Number(u32);

impl Model for Number {
    ghost Value = { ℕ };

    ghost view = { λ a. a.0 };

    ghost invariant = { λ a. (1 ≤ a.0) × (a.0 ≤ 65535) };

    ghost inverse = { λ n. record { 0 = n } };
}

impl Number {
    /// The number, or None outside 1 to 65535.
    pub fn new(value: u32) -> Option<Number>
        ensures in_range { IsSome result ↔ ((1 ≤ value) × (value ≤ 65535)) }
        ensures value { IfSome result (λ made. made ≡ value) }
    {
        if (1..=65_535).contains(&value) {
            Some(Number(value))
        } else {
            None
        }
    }

    /// The number.
    pub fn get(self) -> u32
        ensures value { result ≡ self }
        ensures in_range { (1 ≤ result) × (result ≤ 65535) }
    {
        self.0
    }
}
