ghost use Rattle.std.specs.Prelude.{◌≡◌, ℕ, ◌<◌, [], ◌++◌, All, true, MatchOption};
ghost use Rattle.dn_service.specs.Callers.{ServiceView, has_number, IsLeastMissing, IsOf, accounts_of, Closes};
ghost use Rattle.dn_service.specs.Seats.{keeping, shed_in};

use crate::caller::Caller;
use crate::desk::Desk;
use crate::lock::enter;
use crate::rule::{BookSeat, BookTable};
use crate::steps::Together;
use dn_types::Entry;

/// Joins the callers' seats to this one, which keeps each caller's account.
pub(crate) fn take_in(table: &BookTable, seat: &mut BookSeat, callers: Vec<Caller>)
    requires table { (seat.old.table_id ≡ table.now.shared.table_id) × (seat.old.table_id.words ≡ 1) }
    requires callers { (service : ServiceView) × (service.table ≡ seat.old.table_id)
        × (seat.old.me ≡ (keeping service.callers (shed_in seat.old.me.0.shed) [], [])) × All (IsOf service) callers.items }
    ensures table { seat.new.table_id ≡ seat.old.table_id }
    ensures seat { seat.new.me ≡ (keeping seat.old.me.0.count (shed_in seat.old.me.0.shed) (accounts_of callers.items), []) }
{
    for caller in callers {
        table.shared.join_seat::<Together>(seat, caller.into_seat());
    }
}

fn is_there(callers: &[Caller], number: usize) -> bool
    ensures { result ≡ has_number number callers.now }
{
    callers.iter().any(|c| c.number() == number)
}

/// The least number below `count` of which there is no caller.
pub(crate) fn first_missing(callers: &[Caller], count: usize) -> Option<usize>
    ensures { MatchOption result ((k : ℕ) → k < count → has_number k callers.now ≡ true) (λ k. IsLeastMissing count callers.now k) }
{
    for number in 0..count {
        if !is_there(callers, number) {
            return Some(number);
        }
    }
    None
}

/// The entries that are left, once all callers have come back. With those that the seat has taken out they are the history.
pub(crate) fn leave(desk: &Desk, seat: &mut BookSeat, callers: Vec<Caller>) -> Vec<Entry>
    requires table { (seat.old.table_id ≡ desk.now.table.shared.table_id) × (seat.old.table_id.words ≡ 1) }
    requires callers { (service : ServiceView) × (service.table ≡ seat.old.table_id)
        × (seat.old.me ≡ (keeping service.callers (shed_in seat.old.me.0.shed) [], [])) × All (IsOf service) callers.items }
    requires whole { (0 < seat.old.me.0.count) × ((k : ℕ) → k < seat.old.me.0.count → has_number k callers.items ≡ true) }
    ensures { (service : ServiceView) → service.callers ≡ seat.old.me.0.count
        → Closes service callers.items (shed_in seat.old.me.0.shed ++ result.items) }
{
    take_in(&desk.table, seat, callers);
    // With all callers' seats joined, no other caller can be in a call.
    let Ok(book) = enter(desk, seat, 0) else {
        unreachable!()
    };
    book.into_history()
}
