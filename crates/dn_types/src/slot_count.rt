ghost use Rattle.std.specs.Prelude.{◌≡◌, ℕ, ◌≤◌, ◌↔◌, IsSome, IfSome};

use std::marker::Model;

/// A queue limit in packets (slots), 1 to 10000.
#[derive(Clone, Copy, Debug, PartialEq, Eq, PartialOrd, Ord, Hash)]
pub struct SlotCount(u16);

impl Model for SlotCount {
    ghost Value = { ℕ };

    ghost view = { λ a. a.0 };

    ghost invariant = { λ a. (1 ≤ a.0) × (a.0 ≤ 10000) };

    ghost inverse = { λ n. record { 0 = n } };
}

impl SlotCount {
    /// The count, or None outside 1 to 10000.
    pub fn new(value: u16) -> Option<SlotCount>
        ensures in_range { IsSome result ↔ ((1 ≤ value) × (value ≤ 10000)) }
        ensures value { IfSome result (λ made. made ≡ value) }
    {
        if (1..=10_000).contains(&value) {
            Some(SlotCount(value))
        } else {
            None
        }
    }

    /// The count of packets.
    pub fn get(self) -> u16
        ensures value { result ≡ self }
        ensures in_range { (1 ≤ result) × (result ≤ 10000) }
    {
        self.0
    }
}
