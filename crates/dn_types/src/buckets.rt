ghost use Rattle.std.specs.Prelude.{◌≡◌, ℕ, ◌≤◌, ◌↔◌, IsSome, IfSome};

use std::marker::Model;

/// The size of the hash table of flows, 16 to 65536, as ipfw(8) has it.
///
/// It is kept and changes no reply.
#[derive(Clone, Copy, Debug, PartialEq, Eq, PartialOrd, Ord, Hash)]
pub struct Buckets(u32);

impl Model for Buckets {
    ghost Value = { ℕ };

    ghost view = { λ a. a.0 };

    ghost invariant = { λ a. (16 ≤ a.0) × (a.0 ≤ 65536) };

    ghost inverse = { λ n. record { 0 = n } };
}

impl Buckets {
    /// The size, or None outside 16 to 65536.
    pub fn new(value: u32) -> Option<Buckets>
        ensures in_range { IsSome result ↔ ((16 ≤ value) × (value ≤ 65536)) }
        ensures value { IfSome result (λ made. made ≡ value) }
    {
        if (16..=65_536).contains(&value) {
            Some(Buckets(value))
        } else {
            None
        }
    }

    /// The size in buckets.
    pub fn get(self) -> u32
        ensures value { result ≡ self }
        ensures in_range { (16 ≤ result) × (result ≤ 65536) }
    {
        self.0
    }
}
