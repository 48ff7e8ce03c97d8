ghost use Rattle.std.specs.Prelude.{◌≡◌, ◌≤◌, ◌+◌, [], ◌∷◌, ◌++◌, decimal, length};
ghost use Rattle.dn_records.specs.Writing.{address_text};

use crate::address::write_address;
use itoa::write_digits;
use std::marker::Model;

// No line that is made in one has more bytes.
const LONGEST_LINE: usize = 256;

/// A line that is made from its end towards its front, in an array of 256 bytes, and goes to a text in one piece.
///
/// What has numbers and addresses alone is made faster so than field by field. Its value is the bytes so far.
#[derive(Drop)]
pub struct Line {
    bytes: [u8; LONGEST_LINE],
    start: usize,
}

impl Model for Line {
    ghost use Rattle.std.specs.Prelude.{ℕ, ◌≤◌, List, drop};

    ghost Value = { List ℕ };

    ghost view = { λ s. drop s.start s.bytes };

    ghost invariant = { λ s. s.start ≤ 256 };
}

impl Line {
    /// The end of a line.
    pub fn new() -> Line
        ensures { result ≡ 10 ∷ [] }
    {
        let mut bytes = [0; LONGEST_LINE];
        bytes[LONGEST_LINE - 1] = b'\n';
        Line {
            bytes,
            start: LONGEST_LINE - 1,
        }
    }

    /// Puts a comma and a number before what stands.
    pub fn put_number(&mut self, number: u64)
        requires { length self.old + 21 ≤ 256 }
        ensures written { self.new ≡ 44 ∷ (decimal number ++ self.old) }
        ensures len { length self.new ≤ length self.old + 21 }
    {
        let start = write_digits(number, &mut self.bytes, self.start) - 1;
        self.bytes[start] = b',';
        self.start = start;
    }

    /// Puts a comma and an address in dotted form before what stands.
    pub fn put_address(&mut self, address: u32)
        requires { length self.old + 16 ≤ 256 }
        ensures written { self.new ≡ 44 ∷ (address_text address ++ self.old) }
        ensures len { length self.new ≤ length self.old + 16 }
    {
        let start = write_address(address, &mut self.bytes, self.start) - 1;
        self.bytes[start] = b',';
        self.start = start;
    }

    /// Puts bytes before what stands, as they are.
    pub fn put_bytes(&mut self, bytes: &[u8])
        requires { length self.old + length bytes.now ≤ 256 }
        ensures { self.new ≡ bytes.now ++ self.old }
    {
        let start = self.start - bytes.len();
        self.bytes[start..self.start].copy_from_slice(bytes);
        self.start = start;
    }

    /// The bytes so far.
    pub(crate) fn as_bytes(&self) -> &[u8]
        ensures { result.now ≡ self.now }
    {
        &self.bytes[self.start..]
    }
}
