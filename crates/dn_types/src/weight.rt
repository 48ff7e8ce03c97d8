ghost use Rattle.std.specs.Prelude.{◌≡◌, ℕ, ◌≤◌, ◌↔◌, IsSome, IfSome};

use std::marker::Model;

/// The weight of a queue, 1 to 100: its share of the link, beside the weights of the other backlogged queues.
#[derive(Clone, Copy, Debug, PartialEq, Eq, PartialOrd, Ord, Hash)]
pub struct Weight(u8);

impl Model for Weight {
    ghost Value = { ℕ };

    ghost view = { λ a. a.0 };

    ghost invariant = { λ a. (1 ≤ a.0) × (a.0 ≤ 100) };

    ghost inverse = { λ n. record { 0 = n } };
}

impl Weight {
    /// The weight, or None outside 1 to 100.
    pub fn new(value: u8) -> Option<Weight>
        ensures in_range { IsSome result ↔ ((1 ≤ value) × (value ≤ 100)) }
        ensures value { IfSome result (λ made. made ≡ value) }
    {
        if (1..=100).contains(&value) {
            Some(Weight(value))
        } else {
            None
        }
    }

    /// The weight.
    pub fn get(self) -> u8
        ensures value { result ≡ self }
        ensures in_range { (1 ≤ result) × (result ≤ 100) }
    {
        self.0
    }
}
