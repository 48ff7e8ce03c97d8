ghost use Rattle.std.specs.Prelude.{◌≡◌, ◌≢◌, ◌+◌, ◌^◌, ◌<◌, [], All, IfOk, OnOk, IfErr};
ghost use Rattle.dn_service.specs.Seats.{IsKeeperOf, with_loss};
ghost use Rattle.dn_service.specs.Steps.{Emptied};

use crate::caller::Caller;
use crate::close_fault::CloseFault;
use crate::closed::Closed;
use crate::desk::Desk;
use crate::lock::{enter, give_empty};
use crate::rule::BookSeat;
use crate::steps::{FirstAlone, Together, Vacate};
use crate::take_in::{first_missing, leave};
use crate::unlasting::Unlasting;
use dn_types::Entry;
use std::marker::Model;
use std::mem;
use std::sync::Arc;

/// A service that lasts: its entries can be taken out while it goes on.
///
/// Contracts see the service, and all entries that were *taken* so far.
#[derive(Drop)]
pub struct Lasting {
    desk: Arc<Desk>,
    seat: BookSeat,
    count: usize,
    start: u64,
}

impl Model for Lasting {
    ghost use Rattle.std.specs.Prelude.{◌≡◌, ◌^◌, ◌<◌, length};
    ghost use Rattle.std.specs.Arc.{arc_value};
    ghost use Rattle.dn_service.specs.Lasting.{LastingView};
    ghost use Rattle.dn_service.specs.Seats.{IsLastingSeat, shed_in};

    ghost Value = { LastingView };

    ghost view = { λ s. record {
      service = record { table = s.seat.table_id; callers = s.count };
      taken = shed_in s.seat.me.0.shed;
    } };

    ghost invariant = { λ s. IsLastingSeat (arc_value s.desk).table.shared.table_id s.count s.seat.table_id s.seat.me
        × (length (shed_in s.seat.me.0.shed) < 2 ^ 64 → s.start ≡ length (shed_in s.seat.me.0.shed)) };
}

/// Takes all entries out of the book into an empty list, by a seat for the caller `number` alone.
///
/// The seat has all that was taken out before. `Err` names the caller that has the book.
fn empty(
    desk: &Desk,
    seat: &mut BookSeat,
    number: usize,
    list: &mut Vec<Entry>,
) -> Result<(), usize>
    requires table { (seat.old.table_id ≡ desk.now.table.shared.table_id) × (seat.old.table_id.words ≡ 1) }
    requires number { number + 1 < 2 ^ 64 }
    requires seat { IsKeeperOf number seat.old.me }
    requires list { list.old.items ≡ [] }
    ensures table { (seat.new.table_id ≡ seat.old.table_id) × (seat.new.id ≡ seat.old.id) }
    ensures count { seat.new.me.0.count ≡ seat.old.me.0.count }
    ensures seat { IsKeeperOf number seat.new.me }
    ensures ok { OnOk result (Emptied seat.old.me list.new.items seat.new.me) }
    ensures err { IfErr result (λ k. (seat.new.me ≡ (with_loss seat.old.me.0 k, [])) × (list.new ≡ list.old)) }
    ensures busy { IfErr result (λ k. (k < seat.old.me.0.count) × (k ≢ number)) }
{
    match enter(desk, seat, number) {
        Ok(mut book) => {
            book.take(list);
            give_empty(desk, seat, book);
            Ok(())
        }
        Err(holder) => Err(holder),
    }
}

impl Lasting {
    ghost use Rattle.dn_service.specs.Callers.{IsOf, IsCloseFault};
    ghost use Rattle.dn_service.specs.Lasting.{Takes, ClosesAfter, caller_at};
    ghost use Rattle.dn_service.specs.Accounts.{lost_in};
    ghost use Rattle.dn_service.specs.Seats.{IsCallerSeat, IsServiceSeat, with_loss};
    ghost use Rattle.std.specs.Arc.{arc_value};

    pub(crate) fn new(desk: Arc<Desk>, seat: BookSeat, count: usize) -> Lasting
        requires { IsServiceSeat (arc_value desk).table.shared.table_id count seat.table_id seat.me }
        ensures { result ≡ record { service = record { table = seat.table_id; callers = count }; taken = [] } }
    {
        Lasting {
            desk,
            seat,
            count,
            start: 0,
        }
    }

    /// A list with no entries. It takes no memory.
    pub(crate) fn empty_list(&self) -> Vec<Entry>
        ensures { result.items ≡ [] }
    {
        Vec::new(self.desk.alloc)
    }

    /// Takes all entries out into an empty list, by the seat of the caller `number`, which is then a seat of that caller again.
    ///
    /// It reports how many were taken out before.
    pub(crate) fn take_by(
        &mut self,
        seat: &mut BookSeat,
        number: usize,
        list: &mut Vec<Entry>,
    ) -> Result<u64, usize>
        requires caller { IsCallerSeat self.old.service.table number seat.old.table_id seat.old.me }
        requires count { seat.old.me.0.count ≡ self.old.service.callers }
        requires list { list.old.items ≡ [] }
        ensures table { seat.new.table_id ≡ seat.old.table_id }
        ensures caller { IsCallerSeat seat.old.table_id number seat.new.table_id seat.new.me }
        ensures count { seat.new.me.0.count ≡ seat.old.me.0.count }
        ensures ok { IfOk result (λ start. Takes self.old (caller_at seat.old.table_id number seat.old.me) start list.new.items
            self.new (caller_at seat.new.table_id number seat.new.me)) }
        ensures lost { OnOk result (lost_in seat.new.me.0.accounts ≡ lost_in seat.old.me.0.accounts) }
        ensures err { IfErr result (λ k. (seat.new.me ≡ (with_loss seat.old.me.0 k, [])) × (self.new ≡ self.old) × (list.new ≡ list.old)) }
        ensures busy { IfErr result (λ k. (k < seat.old.me.0.count) × (k ≢ number)) }
    {
        let desk: &Desk = &self.desk;
        let (_, vacant) = desk.table.shared.load_new_seat::<Vacate>(0);
        desk.table
            .shared
            .join_seat::<Together>(&mut self.seat, mem::replace(seat, vacant));
        let taken = empty(desk, &mut self.seat, number, list);
        *seat = desk.table.shared.split_seat::<FirstAlone>(&mut self.seat);
        match taken {
            Ok(()) => {
                let start = self.start;
                self.start = start.wrapping_add(list.len() as u64);
                Ok(start)
            }
            Err(holder) => Err(holder),
        }
    }

    /// Ends the service, as `Service::close` does, and gives the entries that were not taken out.
    pub fn close(self, callers: Vec<Caller>) -> Result<Closed, Unlasting>
        requires { All (IsOf self.service) callers.items }
        ensures ok { IfOk result (λ closed. ClosesAfter self callers.items closed.history.items) }
        ensures err { IfErr result (λ back. (back.service ≡ self) × (back.callers ≡ callers)) }
        ensures fault { IfErr result (λ back. IsCloseFault self.service.callers callers.items back.fault) }
    {
        if let Some(number) = first_missing(callers.as_slice(), self.count) {
            return Err(Unlasting {
                fault: CloseFault::Absent(number),
                service: self,
                callers,
            });
        }
        let Lasting {
            desk,
            mut seat,
            count: _,
            start: _,
        } = self;
        Ok(Closed {
            history: leave(&desk, &mut seat, callers),
        })
    }
}
