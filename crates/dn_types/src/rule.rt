/// How the due moments of the packets on one link follow one another.
#[derive(Clone, Copy, Debug, PartialEq, Eq)]
pub enum Rule {
    /// A packet is due when its bits and the pipe's delay have passed, whatever is before it.
    Free,
    /// And no sooner than the packet before it on its link.
    Ordered,
}
