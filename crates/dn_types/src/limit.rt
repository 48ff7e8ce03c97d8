ghost use Rattle.std.specs.Prelude.{◌≡◌, ℕ, ◌≤◌, ◌↔◌, IsSome, IfSome};

use crate::kbyte_count::KbyteCount;
use crate::slot_count::SlotCount;

/// The limit of a queue, in packets (slots) or in units of 1,024 bytes, as `queue` of ipfw(8) gives it.
#[derive(Clone, Copy, Debug, PartialEq, Eq)]
pub enum Limit {
    Slots(SlotCount),
    Kbytes(KbyteCount),
}

impl Limit {
    /// A limit in packets, or None outside 1 to 10000.
    pub fn slots(count: u16) -> Option<Limit>
        ensures in_range { IsSome result ↔ ((1 ≤ count) × (count ≤ 10000)) }
        ensures value { IfSome result (λ made. made ≡ Limit.Slots count) }
    {
        SlotCount::new(count).map(Limit::Slots)
    }

    /// A limit in units of 1,024 bytes, or None outside 1 to 1024.
    pub fn kbytes(count: u16) -> Option<Limit>
        ensures in_range { IsSome result ↔ ((1 ≤ count) × (count ≤ 1024)) }
        ensures value { IfSome result (λ made. made ≡ Limit.Kbytes count) }
    {
        KbyteCount::new(count).map(Limit::Kbytes)
    }

    /// The packets of a limit in packets, and None of a limit in bytes.
    pub fn as_slots(self) -> Option<u16>
        ensures some { (count : ℕ) → self ≡ Limit.Slots count → result ≡ Some count }
        ensures none { (count : ℕ) → self ≡ Limit.Kbytes count → result ≡ None }
    {
        match self {
            Limit::Slots(count) => Some(count.get()),
            Limit::Kbytes(_) => None,
        }
    }

    /// The units of 1,024 bytes of a limit in bytes, and None of a limit in packets.
    pub fn as_kbytes(self) -> Option<u16>
        ensures some { (count : ℕ) → self ≡ Limit.Kbytes count → result ≡ Some count }
        ensures none { (count : ℕ) → self ≡ Limit.Slots count → result ≡ None }
    {
        match self {
            Limit::Slots(_) => None,
            Limit::Kbytes(count) => Some(count.get()),
        }
    }
}
