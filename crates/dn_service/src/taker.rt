ghost use Rattle.std.specs.Prelude.{◌≡◌, ◌≢◌, ◌<◌, [], IfOk, IfErr, OnOk, OnErr};

use crate::caller::Caller;
use crate::lasting::Lasting;
use crate::segment::Segment;
use dn_types::{Call, Entry, Reply};
use std::alloc::AllocError;
use std::marker::Model;
use std::sync::Wait;

/// A service that lasts, and a caller of it by which entries are taken out.
///
/// The type keeps that the caller is one of the service, so a taker can go through a channel or lie behind a lock.
///
/// Contracts see the service with all that was *taken*, and the caller.
#[derive(Drop)]
pub struct Taker {
    lasting: Lasting,
    caller: Caller,
}

impl Model for Taker {
    ghost use Rattle.dn_service.specs.Callers.{IsOf};
    ghost use Rattle.dn_service.specs.Lasting.{TakerView};

    ghost Value = { TakerView };

    ghost view = { λ t. record { lasting = t.lasting; caller = t.caller } };

    ghost invariant = { λ t. IsOf t.lasting.service t.caller };
}

impl Taker {
    ghost use Rattle.dn_service.specs.Callers.{IsOf, IsSameCaller, KeepsSeen, Answered, having_lost};
    ghost use Rattle.dn_service.specs.Lasting.{Takes, TakerView};

    /// The taker of the service by this caller of it.
    pub fn new(lasting: Lasting, caller: Caller) -> Taker
        requires { IsOf lasting.service caller }
        ensures { result ≡ record { lasting = lasting; caller = caller } }
    {
        Taker { lasting, caller }
    }

    /// The service, and its caller.
    pub fn into_parts(self) -> (Lasting, Caller)
        ensures parts { (result.0 ≡ self.lasting) × (result.1 ≡ self.caller) }
        ensures of { IsOf result.0.service result.1 }
    {
        let Taker { lasting, caller } = self;
        (lasting, caller)
    }

    /// Makes a call by the caller, as `Caller::call` does.
    pub fn call<R: Wait>(&mut self, rt: &R, call: Call) -> Result<Reply, AllocError>
        ensures ok { IfOk result (λ reply. Answered self.old.caller call reply self.new.caller) }
        ensures same_caller { IsSameCaller self.old.caller self.new.caller }
        ensures same_service { self.new.lasting ≡ self.old.lasting }
        ensures err { OnErr result (KeepsSeen self.old.caller self.new.caller) }
    {
        self.caller.call(rt, call)
    }

    /// Takes all entries so far out of the service, as `Caller::take` does.
    pub fn take<R: Wait>(&mut self, rt: &R) -> Segment
        ensures taken { Takes self.old.lasting self.old.caller result.start result.entries.items self.new.lasting self.new.caller }
        ensures same_caller { IsSameCaller self.old.caller self.new.caller }
    {
        self.caller.take(rt, &mut self.lasting)
    }

    /// Takes as `take` does, into an empty list, whose memory the next entries take.
    ///
    /// It reports how many entries were taken out before.
    pub fn take_into<R: Wait>(&mut self, rt: &R, list: &mut Vec<Entry>) -> u64
        requires { list.old.items ≡ [] }
        ensures taken { Takes self.old.lasting self.old.caller result list.new.items self.new.lasting self.new.caller }
        ensures same_caller { IsSameCaller self.old.caller self.new.caller }
    {
        self.caller.take_into(rt, &mut self.lasting, list)
    }

    /// Takes all entries so far out if no other caller is in a call, as `Caller::try_take` does.
    pub fn try_take(&mut self) -> Result<Segment, usize>
        ensures ok { IfOk result (λ s. Takes self.old.lasting self.old.caller s.start s.entries.items self.new.lasting self.new.caller) }
        ensures same_caller { IsSameCaller self.old.caller self.new.caller }
        ensures lost { OnOk result (self.new.caller.lost ≡ self.old.caller.lost) }
        ensures err { IfErr result (λ k. (self.new.caller ≡ having_lost k self.old.caller) × (self.new.lasting ≡ self.old.lasting)) }
        ensures busy { IfErr result (λ k. (k < self.old.caller.service.callers) × (k ≢ self.old.caller.number)) }
    {
        self.caller.try_take(&mut self.lasting)
    }
    /// Takes all entries so far out, as `try_take` does, and wakes no caller that waits.
    pub fn try_take_quietly(&mut self) -> Result<Segment, usize>
        ensures ok { IfOk result (λ s. Takes self.old.lasting self.old.caller s.start s.entries.items self.new.lasting self.new.caller) }
        ensures same_caller { IsSameCaller self.old.caller self.new.caller }
        ensures lost { OnOk result (self.new.caller.lost ≡ self.old.caller.lost) }
        ensures err { IfErr result (λ k. (self.new.caller ≡ having_lost k self.old.caller) × (self.new.lasting ≡ self.old.lasting)) }
        ensures busy { IfErr result (λ k. (k < self.old.caller.service.callers) × (k ≢ self.old.caller.number)) }
    {
        self.caller.try_take_quietly(&mut self.lasting)
    }
}
