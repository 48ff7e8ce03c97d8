use dn_shaper::HashKey;

/// How a replay by one caller is made.
#[derive(Clone, Copy)]
pub struct Manner {
    /// The secret of the flow table, for packets that a stranger chose. No result depends on it.
    pub key: HashKey,
    /// Whether each call is kept with its reply, and the history is returned.
    ///
    /// If not, what is kept of a packet is what its line says.
    // A pass makes its `Held` of it, and asks that from then on.
    pub records: bool,
    /// How many bytes the packets, or a joined input, have at most: up to 2^40. The usual limit is `PACKET_LIMIT`.
    pub limit: usize,
}
