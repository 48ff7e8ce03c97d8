/// A packet that waits, with its tags in units of 1/65536 byte per weight.
#[derive(Clone, Copy)]
pub(crate) struct TaggedPacket {
    pub(crate) start_tag: u128,
    pub(crate) finish_tag: u128,
    pub(crate) len: u16,
    pub(crate) weight: u8,
}
