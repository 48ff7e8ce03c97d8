//! Texts that are written where they have room.

ghost use Rattle.std.specs.Prelude.{◌≡◌, ◌≢◌, ◌≤◌, ◌<◌, ◌⊎◌, drop, length, take};

use crate::status::{OK, ROOM};

/// Puts items into the first places of a list.
pub(crate) fn put_list<T: Copy>(items: &[T], list: &mut [T])
    requires { length items.now ≤ length list.old }
    ensures items { take (length items.now) list.new ≡ items.now }
    ensures others { drop (length items.now) list.new ≡ drop (length items.now) list.old }
{
    list[..items.len()].copy_from_slice(items);
}

/// Writes the line if it has room, and how many bytes it has.
pub(crate) fn put_text(line: &[u8], text: &mut [u8], size: &mut u64) -> u32
    ensures size { size.new ≡ length line.now }
    ensures wrote { result ≡ 0 → take size.new text.new ≡ line.now }
    ensures others { result ≡ 0 → drop size.new text.new ≡ drop size.new text.old }
    ensures refused { result ≢ 0 → text.new ≡ text.old }
    ensures why { (result ≡ 0) ⊎ ((result ≡ 7) × (length text.old < size.new)) }
{
    *size = line.len() as u64;
    if text.len() < line.len() {
        return ROOM;
    }
    put_list(line, text);
    OK
}
