ghost use Rattle.std.specs.Prelude.{◌≡◌, ◌≤◌, ◌<◌, ◌+◌, ◌++◌, drop, codes, decimal, length};
ghost use Rattle.dn_records.specs.Writing.{address_text};

use itoa::write_digits;

/// The length of the longest address in dotted form.
pub(crate) const LONGEST: usize = 15;

// Writes a point and a byte of an address so that they end at `end`, and answers where they start.
fn write_byte(byte: u8, bytes: &mut [u8], end: usize) -> usize
    requires { (4 ≤ end) × (end ≤ length bytes.old) }
    ensures start { (end ≤ result + 4) × (result < end) }
    ensures written { drop result bytes.new
        ≡ codes "." ++ decimal byte ++ drop end bytes.old }
{
    let start = write_digits(byte as u64, bytes, end) - 1;
    bytes[start] = b'.';
    start
}

// Writes an address in dotted form so that it ends at `end`, and answers where it starts.
pub(crate) fn write_address(address: u32, bytes: &mut [u8], end: usize) -> usize
    requires { (15 ≤ end) × (end ≤ length bytes.old) }
    ensures start { (end ≤ result + 15) × (result < end) }
    ensures written { drop result bytes.new ≡ address_text address ++ drop end bytes.old }
{
    let fourth = write_byte((address % 256) as u8, bytes, end);
    let third = write_byte((address / 256 % 256) as u8, bytes, fourth);
    let second = write_byte((address / 65536 % 256) as u8, bytes, third);
    write_digits((address / 16777216) as u64, bytes, second)
}

// Writes an address in dotted form into a buffer, and answers the text.
pub(crate) fn format_address(address: u32, buffer: &mut [u8; LONGEST]) -> &[u8]
    ensures text { result.now ≡ address_text address }
{
    let first = write_address(address, buffer, LONGEST);
    &buffer[first..]
}
