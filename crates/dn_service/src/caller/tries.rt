//! A caller's call by one try, and its tries that wake nobody.
ghost use Rattle.std.specs.Prelude.{◌≡◌, ◌≢◌, ◌<◌, ◌≤◌, ◌+◌, ◌^◌, [], length, IfOk, IfErr, OnOk};
ghost use Rattle.dn_service.specs.Callers.{IsSameCaller, Answered, NamesAnother, Refuses, IsOf, having_lost};
ghost use Rattle.dn_service.specs.Lasting.{Takes, IsTryAfterFault, RefusesAfter};

use crate::caller::Caller;
use crate::desk::Desk;
use crate::lasting::Lasting;
use crate::lock::{enter, give_back, publish};
use crate::placed::Placed;
use crate::segment::Segment;
use crate::try_after_fault::TryAfterFault;
use crate::try_fault::TryFault;
use dn_types::{Call, Entry, Reply};

impl Caller {
    /// Makes a call if no other caller is in one.
    ///
    /// It tries once and waits for nobody. `Busy(k)`, which is tested first, says that caller k was in a call;
    /// `OutOfMemory` that memory was refused, for the call or for its place in the history. Neither changes anything.
    pub fn try_call(&mut self, call: Call) -> Result<Reply, TryFault>
        ensures ok { IfOk result (λ reply. Answered self.old call reply self.new) }
        ensures same_caller { IsSameCaller self.old self.new }
        ensures lost { OnOk result (self.new.lost ≡ self.old.lost) }
        ensures err { IfErr result (λ fault. Refuses self.old fault self.new) }
        ensures busy { IfErr result (λ fault. NamesAnother self.old fault) }
    {
        self.try_once(&call)
    }

    /// Tries as `try_call_quietly` does, and wakes a caller that waits, unless another caller was in a call.
    pub(crate) fn try_once(&mut self, call: &Call) -> Result<Reply, TryFault>
        ensures ok { IfOk result (λ reply. Answered self.old call.now reply self.new) }
        ensures same_caller { IsSameCaller self.old self.new }
        ensures lost { OnOk result (self.new.lost ≡ self.old.lost) }
        ensures err { IfErr result (λ fault. Refuses self.old fault self.new) }
        ensures busy { IfErr result (λ fault. NamesAnother self.old fault) }
    {
        match self.try_call_quietly(call) {
            Ok(reply) => {
                self.desk.bell.ring();
                Ok(reply)
            }
            Err(TryFault::OutOfMemory) => {
                self.desk.bell.ring();
                Err(TryFault::OutOfMemory)
            }
            Err(fault) => Err(fault),
        }
    }

    /// Makes a call as `try_call` does, and wakes no caller that waits.
    ///
    /// A library for C may wake nobody.
    pub fn try_call_quietly(&mut self, call: &Call) -> Result<Reply, TryFault>
        ensures ok { IfOk result (λ reply. Answered self.old call.now reply self.new) }
        ensures same_caller { IsSameCaller self.old self.new }
        ensures lost { OnOk result (self.new.lost ≡ self.old.lost) }
        ensures err { IfErr result (λ fault. Refuses self.old fault self.new) }
        ensures busy { IfErr result (λ fault. NamesAnother self.old fault) }
    {
        match self.try_placed(0, call) {
            Ok(placed) => Ok(placed.reply),
            Err(TryAfterFault::Busy(holder)) => Err(TryFault::Busy(holder)),
            Err(TryAfterFault::OutOfMemory) => Err(TryFault::OutOfMemory),
            Err(TryAfterFault::Ahead) => unreachable!(),
        }
    }

    /// Makes a call that comes after `after` others, as `try_call_after` does, and wakes no caller that waits.
    pub(crate) fn try_placed(&mut self, after: u64, call: &Call) -> Result<Placed, TryAfterFault>
        ensures ok { IfOk result (λ placed. Answered self.old call.now placed.reply self.new) }
        ensures place { IfOk result (λ placed. length self.new.front < 2 ^ 64 → length self.new.front ≡ placed.place + 1) }
        ensures after { IfOk result (λ placed. after ≤ placed.place) }
        ensures same_caller { IsSameCaller self.old self.new }
        ensures lost { OnOk result (self.new.lost ≡ self.old.lost) }
        ensures err { IfErr result (λ fault. RefusesAfter self.old fault self.new) }
        ensures cause { IfErr result (λ fault. IsTryAfterFault self.old after fault) }
    {
        let number = self.number;
        let desk: &Desk = &self.desk;
        let mut book = match enter(desk, &mut self.seat, number) {
            Ok(book) => book,
            Err(holder) => return Err(TryAfterFault::Busy(holder)),
        };
        let place = book.place();
        if place < after {
            give_back(desk, &mut self.seat, book);
            return Err(TryAfterFault::Ahead);
        }
        match book.apply(number, call) {
            Ok(reply) => {
                publish(desk, &mut self.seat, book);
                Ok(Placed { place, reply })
            }
            Err(_) => {
                give_back(desk, &mut self.seat, book);
                Err(TryAfterFault::OutOfMemory)
            }
        }
    }

    /// Takes all entries so far out, as `try_take` does, and wakes no caller that waits.
    pub fn try_take_quietly(&mut self, lasting: &mut Lasting) -> Result<Segment, usize>
        requires { IsOf lasting.old.service self.old }
        ensures ok { IfOk result (λ s. Takes lasting.old self.old s.start s.entries.items lasting.new self.new) }
        ensures same_caller { IsSameCaller self.old self.new }
        ensures lost { OnOk result (self.new.lost ≡ self.old.lost) }
        ensures err { IfErr result (λ k. (self.new ≡ having_lost k self.old) × (lasting.new ≡ lasting.old)) }
        ensures same_service { lasting.new.service ≡ lasting.old.service }
        ensures busy { IfErr result (λ k. (k < self.old.service.callers) × (k ≢ self.old.number)) }
    {
        let mut entries = lasting.empty_list();
        match self.take_quietly_into(lasting, &mut entries) {
            Ok(start) => Ok(Segment { start, entries }),
            Err(holder) => Err(holder),
        }
    }

    /// Takes as `try_take_quietly` does, into an empty list.
    pub(crate) fn take_quietly_into(
        &mut self,
        lasting: &mut Lasting,
        list: &mut Vec<Entry>,
    ) -> Result<u64, usize>
        requires caller { IsOf lasting.old.service self.old }
        requires list { list.old.items ≡ [] }
        ensures ok { IfOk result (λ start. Takes lasting.old self.old start list.new.items lasting.new self.new) }
        ensures same_caller { IsSameCaller self.old self.new }
        ensures lost { OnOk result (self.new.lost ≡ self.old.lost) }
        ensures err { IfErr result (λ k. (self.new ≡ having_lost k self.old) × (lasting.new ≡ lasting.old) × (list.new ≡ list.old)) }
        ensures same_service { lasting.new.service ≡ lasting.old.service }
        ensures busy { IfErr result (λ k. (k < self.old.service.callers) × (k ≢ self.old.number)) }
    {
        lasting.take_by(&mut self.seat, self.number, list)
    }
}
