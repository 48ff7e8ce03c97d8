ghost use Rattle.std.specs.Prelude.{◌≡◌, ℕ, ◌≤◌, ◌↔◌, IsSome, IfSome};

use std::marker::Model;

/// The length of a packet in bytes, 1 to 65535.
#[derive(Clone, Copy, Debug, PartialEq, Eq, PartialOrd, Ord, Hash)]
pub struct Len(u16);

impl Model for Len {
    ghost Value = { ℕ };

    ghost view = { λ a. a.0 };

    ghost invariant = { λ a. 1 ≤ a.0 };

    ghost inverse = { λ n. record { 0 = n } };
}

impl Len {
    /// The length, or None for 0 bytes.
    pub fn new(value: u16) -> Option<Len>
        ensures in_range { IsSome result ↔ (1 ≤ value) }
        ensures value { IfSome result (λ made. made ≡ value) }
    {
        if value >= 1 { Some(Len(value)) } else { None }
    }

    /// The length in bytes.
    pub fn get(self) -> u16
        ensures value { result ≡ self }
        ensures in_range { 1 ≤ result }
    {
        self.0
    }
}
