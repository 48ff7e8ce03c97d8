/// A packet that a Collect gives.
///
/// Deliveries are ordered by their fields in this order, so by due moment and then by packet number.
#[derive(Clone, Copy, Debug, PartialEq, Eq, PartialOrd, Ord)]
pub struct Delivery {
    /// When the packet leaves the emulator, in nanoseconds.
    pub due: u64,
    /// The count of packets accepted before it.
    pub packet: u64,
    pub flow: usize,
    /// When its transmission began, in nanoseconds.
    pub start: u64,
}
