use crate::book::Book;
use crate::view::View;
use atomic_table::{Seat, Table, TableRule};
use std::alloc::Global;

/// The rule of the table of the book. Its key is the number of callers.
pub(crate) struct BookRule;

impl TableRule<Option<Book>, View, usize> for BookRule {
    ghost use Rattle.dn_service.specs.Rule.{SeatRule};
    ghost use Rattle.dn_service.specs.Seats.{first_seat};

    ghost holds = { λ n s. SeatRule n s };

    ghost first = { first_seat };
}

/// One lock word, and one slot with the book.
pub(crate) type BookTable = Table<Option<Book>, View, usize, BookRule, Global>;

pub(crate) type BookSeat = Seat<Option<Book>, View>;
