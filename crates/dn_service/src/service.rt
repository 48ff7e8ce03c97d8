ghost use Rattle.std.specs.Prelude.{◌≡◌, ◌<◌, ◌≤◌, [], All, IfOk, IfErr};
ghost use Rattle.dn_service.specs.Seats.{first_seat};

use crate::bell::Bell;
use crate::book::Book;
use crate::caller::Caller;
use crate::close_fault::CloseFault;
use crate::closed::Closed;
use crate::desk::Desk;
use crate::hand_out::hand_out;
use crate::lasting::Lasting;
use crate::open_fault::OpenFault;
use crate::rule::{BookSeat, BookTable};
use crate::take_in::{first_missing, leave};
use crate::unclosed::Unclosed;
use atomic_table::Table;
use dn_shaper::HashKey;
use std::alloc::{AllocError, Global};
use std::marker::Model;
use std::sync::Arc;

/// The most callers of a service.
const MOST_CALLERS: usize = 16;

/// One dummynet with a fixed number of callers. It hands out its callers, and ends with one history of their calls.
///
/// Contracts see which service it is, and the number of its callers.
#[derive(Drop)]
pub struct Service {
    desk: Arc<Desk>,
    seat: BookSeat,
    count: usize,
}

impl Model for Service {
    ghost use Rattle.std.specs.Arc.{arc_value};
    ghost use Rattle.dn_service.specs.Callers.{ServiceView};
    ghost use Rattle.dn_service.specs.Seats.{IsServiceSeat};

    ghost Value = { ServiceView };

    ghost view = { λ s. record { table = s.seat.table_id; callers = s.count } };

    ghost invariant = { λ s. IsServiceSeat (arc_value s.desk).table.shared.table_id s.count s.seat.table_id s.seat.me };
}

/// The table with a new book, and its first seat.
fn new_table(alloc: Global, count: usize, key: HashKey) -> Result<(BookTable, BookSeat), AllocError>
    ensures table { IfOk result (λ made. (made.1.table_id ≡ made.0.shared.table_id) × (made.1.table_id.words ≡ 1)) }
    ensures seat { IfOk result (λ made. made.1.me ≡ (first_seat count, [])) }
{
    let mut slots = Vec::with_capacity(alloc, 1)?;
    slots.push_reserved(Some(Book::new(alloc, key)?));
    match Table::new(alloc, &[0], slots, &count) {
        Ok(made) => Ok(made),
        Err(_) => Err(AllocError),
    }
}

impl Service {
    ghost use Rattle.dn_service.specs.Callers.{new_callers, IsOf, IsOpenFault, IsCloseFault, Closes};

    /// A service with a new dummynet, and its `n` callers, numbered from 0 in their order.
    ///
    /// It returns `BadCount`, which is tested first, if `n` is not in 1..=16, and `OutOfMemory` if memory was refused.
    pub fn open(alloc: Global, n: usize) -> Result<(Service, Vec<Caller>), OpenFault>
        ensures service { IfOk result (λ made. (made.0.callers ≡ n) × (0 < n) × (n ≤ 16)) }
        ensures callers { IfOk result (λ made. made.1.items ≡ new_callers made.0 0 n) }
        ensures of { IfOk result (λ made. All (IsOf made.0) made.1.items) }
        ensures err { IfErr result (λ fault. IsOpenFault n fault) }
    {
        Service::open_with_key(alloc, n, HashKey(0))
    }

    /// The same with a secret for the table of its flows, for packets that a stranger chooses.
    ///
    /// No reply depends on the key.
    pub fn open_with_key(
        alloc: Global,
        n: usize,
        key: HashKey,
    ) -> Result<(Service, Vec<Caller>), OpenFault>
        ensures service { IfOk result (λ made. (made.0.callers ≡ n) × (0 < n) × (n ≤ 16)) }
        ensures callers { IfOk result (λ made. made.1.items ≡ new_callers made.0 0 n) }
        ensures of { IfOk result (λ made. All (IsOf made.0) made.1.items) }
        ensures err { IfErr result (λ fault. IsOpenFault n fault) }
    {
        if n == 0 || n > MOST_CALLERS {
            return Err(OpenFault::BadCount);
        }
        let Ok((table, mut seat)) = new_table(alloc, n, key) else {
            return Err(OpenFault::OutOfMemory);
        };
        let desk = Desk {
            table,
            bell: Bell::new(),
            alloc,
        };
        let Ok(desk) = Arc::new(alloc, desk) else {
            return Err(OpenFault::OutOfMemory);
        };
        let Ok(callers) = hand_out(alloc, &desk, &mut seat, n) else {
            return Err(OpenFault::OutOfMemory);
        };
        Ok((
            Service {
                desk,
                seat,
                count: n,
            },
            callers,
        ))
    }

    /// Ends the service, and gives its history.
    ///
    /// Every caller that `open` handed out has to be handed in, in any order, or `Absent(k)` names the least that is
    /// missing and everything is handed back. It takes no memory and waits for nobody.
    pub fn close(self, callers: Vec<Caller>) -> Result<Closed, Unclosed>
        requires { All (IsOf self) callers.items }
        ensures ok { IfOk result (λ closed. Closes self callers.items closed.history.items) }
        ensures err { IfErr result (λ back. (back.service ≡ self) × (back.callers ≡ callers)) }
        ensures fault { IfErr result (λ back. IsCloseFault self.callers callers.items back.fault) }
    {
        if let Some(number) = first_missing(callers.as_slice(), self.count) {
            return Err(Unclosed {
                fault: CloseFault::Absent(number),
                service: self,
                callers,
            });
        }
        let Service {
            desk,
            mut seat,
            count: _,
        } = self;
        Ok(Closed {
            history: leave(&desk, &mut seat, callers),
        })
    }

    /// From now on entries can be taken out of the service while it goes on.
    pub fn lasting(self) -> Lasting
        ensures { result ≡ record { service = self; taken = [] } }
    {
        let Service { desk, seat, count } = self;
        Lasting::new(desk, seat, count)
    }
}
