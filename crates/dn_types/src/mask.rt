ghost use Rattle.std.specs.Prelude.{◌≡◌};
ghost use Rattle.dn_types.specs.Flows.{masked};

use crate::five_tuple::FiveTuple;

/// The bits of a five-tuple that tell the flows of a pipe or a queue apart, as `mask` of ipfw(8) gives them.
///
/// With no bits all packets are one flow.
#[derive(Clone, Copy, Debug, PartialEq, Eq, PartialOrd, Ord, Hash)]
pub struct Mask {
    pub src: u32,
    pub dst: u32,
    pub proto: u8,
    pub sport: u16,
    pub dport: u16,
}

impl Mask {
    /// The tuple with the bits alone that the mask keeps, field by field.
    pub fn apply(&self, tuple: &FiveTuple) -> FiveTuple
        ensures { result ≡ masked self.now tuple.now }
    {
        FiveTuple {
            src: tuple.src & self.src,
            dst: tuple.dst & self.dst,
            proto: tuple.proto & self.proto,
            sport: tuple.sport & self.sport,
            dport: tuple.dport & self.dport,
        }
    }
}
