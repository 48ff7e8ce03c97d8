/// The rule of a history, and how long its lists are: `dn_history`.
#[repr(C)]
#[derive(Clone, Copy)]
pub struct CHistory {
    pub entries: u64,
    /// The bytes of all lines.
    pub bytes: u64,
    pub deliveries: u64,
    pub flows: u64,
    /// 0 ordered, 1 free.
    pub rule: u32,
    pub reserved: u32,
}
