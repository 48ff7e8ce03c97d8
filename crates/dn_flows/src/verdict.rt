/// What becomes of an arriving packet.
#[derive(Clone, Copy, Debug, PartialEq, Eq)]
pub enum Verdict {
    /// It joins its flow's queue.
    Take,
    /// It is lost by the loss rate.
    Lost,
    /// Its flow's queue is full.
    Full,
}
