/// A packet that leaves the emulator: `dn_delivery`.
#[repr(C)]
#[derive(Clone, Copy)]
pub struct CDelivery {
    /// In nanoseconds, as is `start`.
    pub due: u64,
    pub packet: u64,
    pub flow: u64,
    pub start: u64,
    pub reserved: u64,
}
