use crate::five_tuple::FiveTuple;
use crate::len::Len;

/// A packet as the emulator sees it.
#[derive(Clone, Copy, Debug, PartialEq, Eq)]
pub struct Packet {
    pub tuple: FiveTuple,
    pub len: Len,
    /// A random word. The packet is lost where its low 31 bits are below the loss rate.
    pub word: u32,
}
