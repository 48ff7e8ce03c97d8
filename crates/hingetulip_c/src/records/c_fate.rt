/// What became of a packet: `dn_fate`.
#[repr(C)]
#[derive(Clone, Copy)]
pub struct CFate {
    /// The effective moment, in nanoseconds.
    pub at: u64,
    pub flow: u64,
    pub packet: u64,
    /// 0 queued, 1 lost, 2 full, 3 no target.
    pub outcome: u32,
    pub reserved: u32,
}
