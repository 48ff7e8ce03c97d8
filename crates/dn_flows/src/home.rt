/// Where the packets of a flow wait outside the table: a place that the caller chooses, and a slot there.
///
/// The table keeps it and never looks at it. It lies beside the flow's queue, since a packet that joins reads both.
#[derive(Clone, Copy, Debug, PartialEq, Eq)]
pub struct Home {
    pub place: u32,
    pub slot: u32,
}
