ghost use Rattle.std.specs.Prelude.{◌≡◌, ◌≢◌, ◌<◌, ◌≤◌, ◌+◌, ◌^◌, [], length, IfOk, IfErr, OnOk, OnErr};

mod tries;
mod wakes;

use crate::after_fault::AfterFault;
use crate::desk::Desk;
use crate::lasting::Lasting;
use crate::patience::Patience;
use crate::placed::Placed;
use crate::rule::BookSeat;
use crate::seen::Seen;
use crate::segment::Segment;
use crate::steps::{Learn, Tell, Witness};
use crate::try_after_fault::TryAfterFault;
use crate::try_fault::TryFault;
use dn_types::{Call, Entry, Reply};
use std::alloc::AllocError;
use std::marker::Model;
use std::sync::{Arc, Wait};

/// One of the callers that a service handed out. It can be sent to a thread of its own.
///
/// Contracts see the service, the number, the *front*, which is the history up to the last call of this caller that was
/// answered, and the caller's *own* entries, one for each of its answered calls.
#[derive(Drop)]
pub struct Caller {
    desk: Arc<Desk>,
    seat: BookSeat,
    number: usize,
}

impl Model for Caller {
    ghost use Rattle.std.specs.Arc.{arc_value};
    ghost use Rattle.dn_service.specs.Callers.{CallerView};
    ghost use Rattle.dn_service.specs.Accounts.{front_in, own_in, lost_in, faced_in};
    ghost use Rattle.dn_service.specs.Seats.{IsCallerSeat};

    ghost Value = { CallerView };

    ghost view = { λ c. record {
      service = record { table = c.seat.table_id; callers = c.seat.me.0.count };
      number = c.number;
      front = front_in c.seat.me.0.accounts;
      own = own_in c.seat.me.0.accounts;
      lost = lost_in c.seat.me.0.accounts;
      faced = faced_in c.seat.me.0.accounts;
    } };

    ghost invariant = { λ c. IsCallerSeat (arc_value c.desk).table.shared.table_id c.number c.seat.table_id c.seat.me };
}

impl Caller {
    ghost use Rattle.std.specs.Arc.{arc_value};
    ghost use Rattle.dn_service.specs.Callers.{new_caller, IsSameCaller, KeepsSeen, Answered, IsOf, having_lost};
    ghost use Rattle.dn_service.specs.Lasting.{Takes, Learns, IsTryAfterFault, IsAfterFault, RefusesAfter};
    ghost use Rattle.dn_service.specs.Seats.{sitting};

    /// The caller of this number, who sits at the seat.
    pub(crate) fn new(desk: Arc<Desk>, seat: BookSeat, number: usize) -> Caller
        requires table { (seat.table_id ≡ (arc_value desk).table.shared.table_id) × (seat.table_id.words ≡ 1) }
        requires number { (number < seat.me.0.count) × (seat.me.0.count ≤ 16) }
        requires seat { seat.me ≡ (sitting seat.me.0.count number [] [] [] 0, []) }
        ensures { result ≡ new_caller (record { table = seat.table_id; callers = seat.me.0.count }) number }
    {
        Caller { desk, seat, number }
    }

    pub(crate) fn into_seat(self) -> BookSeat
        ensures table { result.table_id ≡ self.service.table }
        ensures seat { result.me ≡ (sitting self.service.callers self.number self.front self.own self.lost self.faced, []) }
    {
        let Caller {
            desk: _desk,
            seat,
            number: _,
        } = self;
        seat
    }

    /// The caller's number, from 0 on.
    pub fn number(&self) -> usize
        ensures { result ≡ self.now.number }
    {
        self.number
    }

    /// Makes a call that comes after `after` others, if no other caller is in one, and reports its place in the history.
    ///
    /// The place of a reply, and one more, is a number that another thread can hand in here, by whatever way it came: its call then
    /// comes after that reply. `Busy(k)` says that caller k was in a call, and `Ahead` that fewer than `after` calls were answered,
    /// as comes to no number of calls that this caller has seen. `OutOfMemory` says that memory was refused.
    pub fn try_call_after(&mut self, after: u64, call: Call) -> Result<Placed, TryAfterFault>
        ensures ok { IfOk result (λ placed. Answered self.old call placed.reply self.new) }
        ensures place { IfOk result (λ placed. length self.new.front < 2 ^ 64 → length self.new.front ≡ placed.place + 1) }
        ensures after { IfOk result (λ placed. after ≤ placed.place) }
        ensures same_caller { IsSameCaller self.old self.new }
        ensures lost { OnOk result (self.new.lost ≡ self.old.lost) }
        ensures err { IfErr result (λ fault. RefusesAfter self.old fault self.new) }
        ensures cause { IfErr result (λ fault. IsTryAfterFault self.old after fault) }
    {
        match self.try_placed(after, &call) {
            Ok(placed) => {
                self.desk.bell.ring();
                Ok(placed)
            }
            Err(TryAfterFault::Busy(holder)) => Err(TryAfterFault::Busy(holder)),
            Err(fault) => {
                self.desk.bell.ring();
                Err(fault)
            }
        }
    }

    /// Makes a call that comes after `after` others, as `try_call_after` does, and waits while other callers are in a call.
    #[tactic(auto, using(crate::proofs::Outcomes::answered_on, crate::proofs::Outcomes::same_on, crate::proofs::Outcomes::same_lost, crate::proofs::Outcomes::keeps_lost, crate::proofs::Outcomes::keeps_faced))]
    pub fn call_after<R: Wait>(
        &mut self,
        rt: &R,
        after: u64,
        call: Call,
    ) -> Result<Placed, AfterFault>
        ensures ok { IfOk result (λ placed. Answered self.old call placed.reply self.new) }
        ensures place { IfOk result (λ placed. length self.new.front < 2 ^ 64 → length self.new.front ≡ placed.place + 1) }
        ensures after { IfOk result (λ placed. after ≤ placed.place) }
        ensures same_caller { IsSameCaller self.old self.new }
        ensures err { OnErr result (KeepsSeen self.old self.new) }
        ensures cause { IfErr result (λ fault. IsAfterFault self.old after fault) }
    {
        let asked = &call;
        let mut patience = Patience::new();
        for _ in rt.forever() {
            match self.try_call_after(after, *asked) {
                Ok(placed) => return Ok(placed),
                Err(TryAfterFault::OutOfMemory) => return Err(AfterFault::OutOfMemory),
                Err(TryAfterFault::Ahead) => return Err(AfterFault::Ahead),
                Err(TryAfterFault::Busy(_)) => patience.wait(rt, &self.desk.bell),
            }
        }
        unreachable!()
    }

    /// Makes a call, and waits while other callers are in one.
    ///
    /// It spins between its first tries, and then sleeps until a call has ended. If memory is refused, for the call or for
    /// its place in the history, nothing has changed.
    #[tactic(auto, using(crate::proofs::Outcomes::answered_on, crate::proofs::Outcomes::same_on, crate::proofs::Outcomes::same_lost, crate::proofs::Outcomes::keeps_lost, crate::proofs::Outcomes::keeps_faced))]
    pub fn call<R: Wait>(&mut self, rt: &R, call: Call) -> Result<Reply, AllocError>
        ensures ok { IfOk result (λ reply. Answered self.old call reply self.new) }
        ensures same_caller { IsSameCaller self.old self.new }
        ensures err { OnErr result (KeepsSeen self.old self.new) }
    {
        let mut patience = Patience::new();
        for _ in rt.forever() {
            match self.try_once(&call) {
                Ok(reply) => return Ok(reply),
                Err(TryFault::OutOfMemory) => return Err(AllocError),
                Err(TryFault::Busy(_)) => patience.wait(rt, &self.desk.bell),
            }
        }
        unreachable!()
    }

    /// Takes all entries so far out of the service if no other caller is in a call.
    ///
    /// It tries once, waits for nobody, and takes no memory. `Err(k)` says that caller k was in a call, and then nothing has changed.
    pub fn try_take(&mut self, lasting: &mut Lasting) -> Result<Segment, usize>
        requires { IsOf lasting.old.service self.old }
        ensures ok { IfOk result (λ s. Takes lasting.old self.old s.start s.entries.items lasting.new self.new) }
        ensures same_caller { IsSameCaller self.old self.new }
        ensures lost { OnOk result (self.new.lost ≡ self.old.lost) }
        ensures err { IfErr result (λ k. (self.new ≡ having_lost k self.old) × (lasting.new ≡ lasting.old)) }
        ensures same_service { lasting.new.service ≡ lasting.old.service }
        ensures busy { IfErr result (λ k. (k < self.old.service.callers) × (k ≢ self.old.number)) }
    {
        let mut entries = lasting.empty_list();
        match self.try_take_into(lasting, &mut entries) {
            Ok(start) => Ok(Segment { start, entries }),
            Err(holder) => Err(holder),
        }
    }

    /// Takes as `try_take` does, into an empty list, whose memory the next entries take.
    ///
    /// It reports how many entries were taken out before.
    pub fn try_take_into(
        &mut self,
        lasting: &mut Lasting,
        list: &mut Vec<Entry>,
    ) -> Result<u64, usize>
        requires caller { IsOf lasting.old.service self.old }
        requires list { list.old.items ≡ [] }
        ensures ok { IfOk result (λ start. Takes lasting.old self.old start list.new.items lasting.new self.new) }
        ensures same_caller { IsSameCaller self.old self.new }
        ensures lost { OnOk result (self.new.lost ≡ self.old.lost) }
        ensures err { IfErr result (λ k. (self.new ≡ having_lost k self.old) × (lasting.new ≡ lasting.old) × (list.new ≡ list.old)) }
        ensures same_service { lasting.new.service ≡ lasting.old.service }
        ensures busy { IfErr result (λ k. (k < self.old.service.callers) × (k ≢ self.old.number)) }
    {
        match self.take_quietly_into(lasting, list) {
            Ok(start) => {
                self.desk.bell.ring();
                Ok(start)
            }
            Err(holder) => Err(holder),
        }
    }

    /// Takes all entries so far out of the service, and waits while other callers are in a call. It takes no memory.
    pub fn take<R: Wait>(&mut self, rt: &R, lasting: &mut Lasting) -> Segment
        requires { IsOf lasting.old.service self.old }
        ensures taken { Takes lasting.old self.old result.start result.entries.items lasting.new self.new }
        ensures same_caller { IsSameCaller self.old self.new }
        ensures same_service { lasting.new.service ≡ lasting.old.service }
    {
        let mut entries = lasting.empty_list();
        let start = self.take_into(rt, lasting, &mut entries);
        Segment { start, entries }
    }

    /// Takes as `take` does, into an empty list, whose memory the next entries take.
    ///
    /// It reports how many entries were taken out before.
    #[tactic(auto, using(crate::proofs::Outcomes::takes_on, crate::proofs::Outcomes::same_on, crate::proofs::Outcomes::same_lost, crate::proofs::Outcomes::keeps_lost))]
    pub fn take_into<R: Wait>(
        &mut self,
        rt: &R,
        lasting: &mut Lasting,
        list: &mut Vec<Entry>,
    ) -> u64
        requires caller { IsOf lasting.old.service self.old }
        requires list { list.old.items ≡ [] }
        ensures taken { Takes lasting.old self.old result list.new.items lasting.new self.new }
        ensures same_caller { IsSameCaller self.old self.new }
        ensures same_service { lasting.new.service ≡ lasting.old.service }
    {
        let mut patience = Patience::new();
        for _ in rt.forever() {
            if let Ok(start) = self.try_take_into(lasting, list) {
                return start;
            }
            patience.wait(rt, &self.desk.bell);
        }
        unreachable!()
    }

    /// A token of the history that this caller has seen. It has no bytes, and another caller can learn from it.
    pub fn seen(&mut self) -> Seen
        ensures seen { (result.service ≡ self.old.service) × (result.front ≡ self.old.front) }
        ensures same { self.new ≡ self.old }
    {
        let seat = self.desk.table.shared.split_seat::<Witness>(&mut self.seat);
        Seen::new(seat)
    }

    /// From now on this caller has seen what the token's caller had seen, so that its next reply comes after all of that.
    ///
    /// It waits for nobody.
    pub fn learn(&mut self, seen: Seen)
        requires { seen.service ≡ self.old.service }
        ensures learns { Learns self.old seen self.new }
        ensures same_caller { IsSameCaller self.old self.new }
    {
        let desk: &Desk = &self.desk;
        desk.table
            .shared
            .join_seat::<Tell>(&mut self.seat, seen.into_seat());
        let _ = desk.table.shared.load::<Learn>(&mut self.seat, 0);
    }
}
