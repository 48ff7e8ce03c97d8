ghost use Rattle.std.specs.Prelude.{◌≡◌, IfOk};

use crate::call::Call;
use crate::reply::Reply;
use std::alloc::AllocError;

/// One call of a caller, with the reply that it got.
#[derive(Debug, PartialEq, Eq, Drop)]
pub struct Entry {
    pub caller: usize,
    pub call: Call,
    pub reply: Reply,
}

impl Entry {
    /// An equal entry, or an error where memory was refused.
    pub fn try_clone(&self) -> Result<Entry, AllocError>
        ensures { IfOk result (λ copy. copy ≡ self.now) }
    {
        Ok(Entry {
            caller: self.caller,
            call: self.call,
            reply: self.reply.try_clone()?,
        })
    }
}
