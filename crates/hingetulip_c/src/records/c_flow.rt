/// The state of a flow: `dn_flow`.
#[repr(C)]
#[derive(Clone, Copy)]
pub struct CFlow {
    pub flow: u64,
    pub queued: u64,
    pub bytes: u64,
    pub lost: u64,
    pub full: u64,
    pub started: u64,
    pub discarded: u64,
    pub src: u32,
    pub dst: u32,
    pub sport: u16,
    pub dport: u16,
    pub number: u16,
    pub pipe: u16,
    /// 0 for a pipe, 1 for a queue.
    pub kind: u8,
    pub proto: u8,
    pub reserved: u16,
    pub reserved2: u32,
}
