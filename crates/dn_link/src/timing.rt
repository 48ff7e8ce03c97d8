ghost use Rattle.std.specs.Prelude.{◌≡◌, ℕ, ◌+◌, ◌*◌, ◌<◌, ◌≤◌, ◌^◌};
ghost use Rattle.dn_types.specs.Links.{transmission_time};

use dn_types::{Bandwidth, Delay, Len};

/// A byte in units of a bit times a nanosecond per second: at 1 bit/s it takes so many nanoseconds.
const BYTE: u64 = 8_000_000_000;

const NANOSECONDS_PER_MILLISECOND: u64 = 1_000_000;

/// The transmission time in nanoseconds: the least in which all bits of a packet pass.
///
/// It is 0 if the bandwidth is 0, which is unlimited. It is rounded up, so that a link never carries more than its
/// bandwidth.
pub fn tx_time(len: Len, bandwidth: Bandwidth) -> u64
    ensures value { result ≡ transmission_time bandwidth len }
    ensures unlimited { bandwidth ≡ 0 → result ≡ 0 }
    // The same in other words.
    ensures enough { 0 < bandwidth → len * 8000000000 ≤ result * bandwidth }
    ensures least { 0 < bandwidth → (t : ℕ) → len * 8000000000 ≤ t * bandwidth → result ≤ t }
    ensures bound { result < 2 ^ 50 }
{
    let bits = u64::from(len.get()) * BYTE;
    let rate = bandwidth.get();
    if rate == 0 {
        0
    } else {
        (bits + (rate - 1)) / rate
    }
}

/// When a packet is due that starts at `start` and takes `tx`, in nanoseconds.
///
/// It is due when its bits and the delay have passed, whatever goes before it on its link.
pub fn due(start: u64, tx: u64, delay: Delay) -> u64
    requires fits { start + tx + delay * 1000000 < 2 ^ 64 }
    ensures value { result ≡ start + tx + delay * 1000000 }
{
    start + tx + u64::from(delay.get()) * NANOSECONDS_PER_MILLISECOND
}
