/// A packet as C gives it: `dn_packet`.
#[repr(C)]
#[derive(Clone, Copy)]
pub struct CPacket {
    /// When it arrives, in nanoseconds.
    pub moment: u64,
    pub src: u32,
    pub dst: u32,
    pub word: u32,
    pub sport: u16,
    pub dport: u16,
    /// In bytes.
    pub length: u16,
    /// The number of the pipe or of the queue.
    pub number: u16,
    /// 0 for a pipe, 1 for a queue.
    pub kind: u8,
    pub proto: u8,
    pub reserved: u16,
}
