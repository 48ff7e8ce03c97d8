/// What is wrong with a line: `dn_fault`.
#[repr(C)]
#[derive(Clone, Copy)]
pub struct CFault {
    /// The word that the fault concerns, from 1, and 0 for a text that is no UTF-8.
    pub word: u64,
    pub kind: u32,
    pub reserved: u32,
}
