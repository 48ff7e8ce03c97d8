/// What an audit found of a history: `dn_verdict`.
#[repr(C)]
#[derive(Clone, Copy)]
pub struct CVerdict {
    /// How many entries the history has.
    pub entries: u64,
    /// The first entry that differs, from 0, and 0 if none does.
    pub first: u64,
    /// 0 lawful, 1 differs.
    pub finding: u32,
    pub reserved: u32,
}
