/// What a command line asks for. Paths are the user's words.
#[derive(Clone, Copy, Debug)]
pub enum Request<'a> {
    /// A replay of the joined input on standard input.
    Joined,
    /// A replay of two files.
    Replay(Replay<'a>),
    /// The audit of a history.
    Audit(Audit<'a>),
    /// A live session.
    Live,
}

/// A replay of two files.
#[derive(Clone, Copy, Debug)]
pub struct Replay<'a> {
    /// The path of the configuration.
    pub config: &'a str,
    /// The path of the packets.
    pub packets: &'a str,
    /// By how many callers in threads of their own it is made; by none of them, where no count is given.
    pub callers: Option<usize>,
    /// The path to which the history goes, if one is given.
    pub history: Option<&'a str>,
    /// How many bytes the packets can have at most, 1 to 2^40; as many as is usual, where no count is given.
    pub most_packets: Option<usize>,
}

/// The audit of a history.
#[derive(Clone, Copy, Debug)]
pub struct Audit<'a> {
    /// The path of the history.
    pub history: &'a str,
    /// How many bytes it can have at most, 1 to 2^40; as many as is usual, where no count is given.
    pub most_history: Option<usize>,
}
