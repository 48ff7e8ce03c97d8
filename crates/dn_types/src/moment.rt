ghost use Rattle.std.specs.Prelude.{◌≡◌, ℕ, ◌≤◌, ◌^◌, ◌↔◌, IsSome, IfSome};

use std::marker::Model;

/// A moment of the clock in nanoseconds, 0 to 2^62.
///
/// The upper bound keeps every start and due moment below 2^63.
#[derive(Clone, Copy, Debug, PartialEq, Eq, PartialOrd, Ord, Hash)]
pub struct Moment(u64);

impl Model for Moment {
    ghost Value = { ℕ };

    ghost view = { λ a. a.0 };

    ghost invariant = { λ a. a.0 ≤ 2 ^ 62 };

    ghost inverse = { λ n. record { 0 = n } };
}

impl Moment {
    /// The moment, or None above 2^62 ns.
    pub fn new(value: u64) -> Option<Moment>
        ensures in_range { IsSome result ↔ (value ≤ 2 ^ 62) }
        ensures value { IfSome result (λ made. made ≡ value) }
    {
        if value <= 1 << 62 {
            Some(Moment(value))
        } else {
            None
        }
    }

    /// The moment in nanoseconds.
    pub fn get(self) -> u64
        ensures value { result ≡ self }
        ensures in_range { result ≤ 2 ^ 62 }
    {
        self.0
    }
}
