use crate::caller::Caller;
use crate::close_fault::CloseFault;
use crate::lasting::Lasting;

/// What was handed to `close`, with the reason why it was not closed. The service goes on as before.
#[derive(Drop)]
pub struct Unlasting {
    /// Why the service was not closed.
    pub fault: CloseFault,
    /// The service, with all that it has answered.
    pub service: Lasting,
    /// The callers that were handed in, in the same order.
    pub callers: Vec<Caller>,
}
