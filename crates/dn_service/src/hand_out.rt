ghost use Rattle.std.specs.Prelude.{◌≡◌, ◌≤◌, [], IfOk};
ghost use Rattle.std.specs.Arc.{arc_value};
ghost use Rattle.dn_service.specs.Callers.{new_callers};
ghost use Rattle.dn_service.specs.Accounts.{new_accounts};
ghost use Rattle.dn_service.specs.Seats.{keeping};

use crate::caller::Caller;
use crate::desk::Desk;
use crate::rule::BookSeat;
use crate::steps::FirstAlone;
use std::alloc::{AllocError, Global};
use std::sync::Arc;

/// Splits off a seat for each caller, in order.
pub(crate) fn hand_out(
    alloc: Global,
    desk: &Arc<Desk>,
    seat: &mut BookSeat,
    count: usize,
) -> Result<Vec<Caller>, AllocError>
    requires table { (seat.old.table_id ≡ (arc_value desk.now).table.shared.table_id) × (seat.old.table_id.words ≡ 1) }
    requires count { count ≤ 16 }
    requires seat { seat.old.me ≡ (keeping count [] (new_accounts 0 count), []) }
    ensures table { IfOk result (λ _. seat.new.table_id ≡ seat.old.table_id) }
    ensures seat { IfOk result (λ _. seat.new.me ≡ (keeping count [] [], [])) }
    ensures callers { IfOk result (λ callers.
        callers.items ≡ new_callers (record { table = seat.old.table_id; callers = count }) 0 count) }
{
    let mut callers = Vec::with_capacity(alloc, count)?;
    for number in 0..count {
        let one = desk.table.shared.split_seat::<FirstAlone>(seat);
        callers.push_reserved(Caller::new(Arc::try_clone(desk)?, one, number));
    }
    Ok(callers)
}
