ghost use Rattle.std.specs.Prelude.{◌≡◌, ℕ, ◌≤◌, ◌↔◌, IsSome, IfSome};

use std::marker::Model;

/// A queue limit in units of 1,024 bytes, 1 to 1024.
#[derive(Clone, Copy, Debug, PartialEq, Eq, PartialOrd, Ord, Hash)]
pub struct KbyteCount(u16);

impl Model for KbyteCount {
    ghost Value = { ℕ };

    ghost view = { λ a. a.0 };

    ghost invariant = { λ a. (1 ≤ a.0) × (a.0 ≤ 1024) };

    ghost inverse = { λ n. record { 0 = n } };
}

impl KbyteCount {
    /// The count, or None outside 1 to 1024.
    pub fn new(value: u16) -> Option<KbyteCount>
        ensures in_range { IsSome result ↔ ((1 ≤ value) × (value ≤ 1024)) }
        ensures value { IfSome result (λ made. made ≡ value) }
    {
        if (1..=1_024).contains(&value) {
            Some(KbyteCount(value))
        } else {
            None
        }
    }

    /// The count of units of 1,024 bytes.
    pub fn get(self) -> u16
        ensures value { result ≡ self }
        ensures in_range { (1 ≤ result) × (result ≤ 1024) }
    {
        self.0
    }
}
