use dn_types::Reply;

/// A reply, and the place of its entry in the history.
#[derive(Debug, Drop)]
pub struct Placed {
    /// How many calls were answered before.
    pub place: u64,
    /// The reply.
    pub reply: Reply,
}
