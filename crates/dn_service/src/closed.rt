use dn_types::Entry;

/// What a closed service leaves.
#[derive(Debug, Drop)]
pub struct Closed {
    /// All calls with their replies, oldest first.
    pub history: Vec<Entry>,
}
