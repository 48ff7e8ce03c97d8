//! When a caller is to ask next.
ghost use Rattle.std.specs.Prelude.{◌≡◌, ◌≢◌, ◌<◌, IfOk, IfErr, OnOk};
ghost use Rattle.dn_service.specs.Callers.{IsSameCaller, having_lost};
ghost use Rattle.dn_service.specs.Wakes.{Wakes};

use crate::caller::Caller;
use crate::desk::Desk;
use crate::lock::{enter, give_back_read};

impl Caller {
    /// Reports when the emulator's next packet is due or starts, as `Shaper::wake` does, if no other caller is in a call.
    ///
    /// It is no call of the history, and this caller has now seen all calls so far. It tries once, waits for nobody, and takes no
    /// memory. `Err(k)` says that caller k was in a call, and then nothing has changed.
    pub fn try_wake(&mut self) -> Result<Option<u64>, usize>
        ensures ok { IfOk result (λ next. Wakes self.old next self.new) }
        ensures same_caller { IsSameCaller self.old self.new }
        ensures lost { OnOk result (self.new.lost ≡ self.old.lost) }
        ensures err { IfErr result (λ k. self.new ≡ having_lost k self.old) }
        ensures busy { IfErr result (λ k. (k < self.old.service.callers) × (k ≢ self.old.number)) }
    {
        match self.try_wake_quietly() {
            Ok(moment) => {
                self.desk.bell.ring();
                Ok(moment)
            }
            Err(holder) => Err(holder),
        }
    }

    /// Reports as `try_wake` does, and wakes no caller that waits.
    pub fn try_wake_quietly(&mut self) -> Result<Option<u64>, usize>
        ensures ok { IfOk result (λ next. Wakes self.old next self.new) }
        ensures same_caller { IsSameCaller self.old self.new }
        ensures lost { OnOk result (self.new.lost ≡ self.old.lost) }
        ensures err { IfErr result (λ k. self.new ≡ having_lost k self.old) }
        ensures busy { IfErr result (λ k. (k < self.old.service.callers) × (k ≢ self.old.number)) }
    {
        let number = self.number;
        let desk: &Desk = &self.desk;
        match enter(desk, &mut self.seat, number) {
            Ok(book) => {
                let next = book.wake();
                give_back_read(desk, &mut self.seat, book);
                Ok(next)
            }
            Err(holder) => Err(holder),
        }
    }
}
