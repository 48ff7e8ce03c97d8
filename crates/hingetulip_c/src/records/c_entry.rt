use crate::records::{CFate, CPacket};

/// A call of a history and the reply to it: `dn_entry`.
#[repr(C)]
#[derive(Clone, Copy)]
pub struct CEntry {
    /// The packet of a submit. Of an advance or a collect the moment alone.
    pub packet: CPacket,
    /// What became of the packet. Of an advance or a collect the clock alone.
    pub fate: CFate,
    pub caller: u64,
    /// Where the line of a configure begins among the lines, in bytes.
    pub line: u64,
    /// How many bytes it has.
    pub size: u64,
    /// Where its deliveries begin among all of them, or its flows.
    pub first: u64,
    /// How many they are.
    pub count: u64,
    /// The status of a refusal, else 0.
    pub status: u32,
    /// 0 configure, 1 submit, 2 advance, 3 collect, 4 show.
    pub call: u8,
    /// 0 refused, 1 configured, 2 deleted, 3 fate, 4 clock, 5 deliveries, 6 flows.
    pub reply: u8,
    pub reserved: u16,
}
