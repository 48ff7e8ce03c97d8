use dn_types::Entry;

/// Entries that were taken out of a service.
#[derive(Debug, Drop)]
pub struct Segment {
    /// How many entries were taken out before these.
    pub start: u64,
    /// The entries, oldest first.
    pub entries: Vec<Entry>,
}
