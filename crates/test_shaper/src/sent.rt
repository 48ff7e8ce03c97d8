use dn_types::{FiveTuple, Len, Packet};
use std::test::Fail;

/// A packet that a step sends, with its length as a plain number.
#[derive(Clone, Copy)]
pub struct Sent {
    pub tuple: FiveTuple,
    pub len: u16,
    pub word: u32,
}

impl Sent {
    /// The packet, for a call.
    pub fn packet(&self) -> Result<Packet, Fail> {
        Ok(Packet {
            tuple: self.tuple,
            len: Len::new(self.len).ok_or("a length")?,
            word: self.word,
        })
    }
}

/// A packet of 1,000 bytes from 10.0.0.1 to an address, protocol 17, from port 1000 to 2000.
pub fn to_host(dst: u32) -> Sent {
    Sent {
        tuple: FiveTuple {
            src: 0x0a00_0001,
            dst,
            proto: 17,
            sport: 1_000,
            dport: 2_000,
        },
        len: 1_000,
        word: 0,
    }
}

/// A packet of so many bytes to 10.0.0.2.
pub fn sized(len: u16) -> Sent {
    Sent {
        len,
        ..to_host(0x0a00_0002)
    }
}
