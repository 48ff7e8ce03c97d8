//! The lock of the book: how a seat takes the book, and gives it back. Nothing here wakes a caller that waits.
ghost use Rattle.std.specs.Prelude.{◌≡◌, ℕ, ◌+◌, ◌^◌, ◌<◌, List, [], ◌∷◌, ◌++◌, MatchResult, Some, None};
ghost use Rattle.dn_types.specs.declared.entry.Entry.{Entry};
ghost use Rattle.dn_service.specs.Pasts.{Past, BookView, Keeps, with_entry, all_shed};
ghost use Rattle.dn_service.specs.Accounts.{Has};
ghost use Rattle.dn_service.specs.Seats.{with_loss, with_faced, with_history, with_shed};
ghost use Rattle.dn_service.specs.Steps.{Won};

use crate::book::Book;
use crate::desk::Desk;
use crate::rule::{BookSeat, BookTable};
use crate::steps::{Empty, Publish, Read, Return, Try};

/// Takes the book out of the slot, which the seat has in hand.
fn take_out(table: &BookTable, seat: &mut BookSeat) -> Book
    requires table { seat.old.table_id ≡ table.now.shared.table_id }
    requires book { (book : BookView) × (seat.old.me.1 ≡ (0, Some book) ∷ []) }
    ensures table { (seat.new.table_id ≡ seat.old.table_id) × (seat.new.id ≡ seat.old.id) }
    ensures seat { seat.new.me ≡ (seat.old.me.0, (0, None) ∷ []) }
    ensures book { seat.old.me.1 ≡ (0, Some result) ∷ [] }
{
    table.shared.exchange(seat, 0, None).unwrap()
}

/// Puts the book into the slot again.
fn put_in(table: &BookTable, seat: &mut BookSeat, book: Book)
    requires table { seat.old.table_id ≡ table.now.shared.table_id }
    requires seat { seat.old.me.1 ≡ (0, None) ∷ [] }
    ensures table { (seat.new.table_id ≡ seat.old.table_id) × (seat.new.id ≡ seat.old.id) }
    ensures seat { seat.new.me ≡ (seat.old.me.0, (0, Some book) ∷ []) }
{
    table.shared.exchange(seat, 0, Some(book));
}

/// Tries once to take the word and the book for the caller `number`. `Err` names the caller that has them, which the seat notes.
pub(crate) fn enter(desk: &Desk, seat: &mut BookSeat, number: usize) -> Result<Book, usize>
    requires table { (seat.old.table_id ≡ desk.now.table.shared.table_id) × (seat.old.table_id.words ≡ 1) }
    requires number { number + 1 < 2 ^ 64 }
    requires seat { (seat.old.me.0.taken ≡ None) × (seat.old.me.1 ≡ []) × Has number seat.old.me.0.accounts }
    ensures table { (seat.new.table_id ≡ seat.old.table_id) × (seat.new.id ≡ seat.old.id) }
    ensures taken { MatchResult result
        (λ book. Won seat.old.me seat.new.me book)
        (λ holder. (seat.new.me ≡ (with_loss seat.old.me.0 holder, seat.old.me.1)) × (holder < seat.old.me.0.count) × (¬ Has holder seat.old.me.0.accounts)) }
{
    let found = desk
        .table
        .shared
        .compare_exchange::<Try>(seat, 0, 0, number as u64 + 1);
    if found != 0 {
        return Err((found - 1) as usize);
    }
    Ok(take_out(&desk.table, seat))
}

/// Gives the book back as it was taken.
pub(crate) fn give_back(desk: &Desk, seat: &mut BookSeat, book: Book)
    requires table { (seat.old.table_id ≡ desk.now.table.shared.table_id) × (seat.old.table_id.words ≡ 1) }
    requires seat { seat.old.me.1 ≡ (0, None) ∷ [] }
    requires book { (was : Past) × (seat.old.me.0.taken ≡ Some was) × Keeps was book }
    ensures table { (seat.new.table_id ≡ seat.old.table_id) × (seat.new.id ≡ seat.old.id) }
    ensures seat { (faced : ℕ → ℕ) × (seat.new.me ≡ (with_faced seat.old.me.0 faced, [])) }
{
    put_in(&desk.table, seat, book);
    desk.table.shared.store::<Return>(seat, 0, 0);
}

/// Gives the book back as it was taken. The callers of this seat have now seen all entries.
pub(crate) fn give_back_read(desk: &Desk, seat: &mut BookSeat, book: Book)
    requires table { (seat.old.table_id ≡ desk.now.table.shared.table_id) × (seat.old.table_id.words ≡ 1) }
    requires seat { seat.old.me.1 ≡ (0, None) ∷ [] }
    requires book { (was : Past) × (seat.old.me.0.taken ≡ Some was) × Keeps was book }
    ensures table { (seat.new.table_id ≡ seat.old.table_id) × (seat.new.id ≡ seat.old.id) }
    ensures seat { (faced : ℕ → ℕ) × ((was : Past) → seat.old.me.0.taken ≡ Some was → seat.new.me ≡ (with_history seat.old.me.0 faced was.history, [])) }
{
    put_in(&desk.table, seat, book);
    desk.table.shared.store::<Read>(seat, 0, 0);
}

/// Gives the book back with one entry more, of a caller of this seat. Here the call happens, for all callers.
pub(crate) fn publish(desk: &Desk, seat: &mut BookSeat, book: Book)
    requires table { (seat.old.table_id ≡ desk.now.table.shared.table_id) × (seat.old.table_id.words ≡ 1) }
    requires seat { seat.old.me.1 ≡ (0, None) ∷ [] }
    requires book { (was : Past) × (e : Entry) × (seat.old.me.0.taken ≡ Some was)
        × Keeps (with_entry was e) book × Has e.caller seat.old.me.0.accounts }
    ensures table { (seat.new.table_id ≡ seat.old.table_id) × (seat.new.id ≡ seat.old.id) }
    ensures seat { (faced : ℕ → ℕ) × ((was : Past) → seat.old.me.0.taken ≡ Some was
        → seat.new.me ≡ (with_history seat.old.me.0 faced (was.shed ++ book.kept), [])) }
{
    put_in(&desk.table, seat, book);
    desk.table.shared.store::<Publish>(seat, 0, 0);
}

/// Gives the book back without its entries, which were taken out. The seat is the one that has all that was taken out before.
pub(crate) fn give_empty(desk: &Desk, seat: &mut BookSeat, book: Book)
    requires table { (seat.old.table_id ≡ desk.now.table.shared.table_id) × (seat.old.table_id.words ≡ 1) }
    requires seat { seat.old.me.1 ≡ (0, None) ∷ [] }
    requires shed { (shed : List Entry) × (seat.old.me.0.shed ≡ Some shed) }
    requires book { (was : Past) × (seat.old.me.0.taken ≡ Some was) × Keeps (all_shed was) book }
    ensures table { (seat.new.table_id ≡ seat.old.table_id) × (seat.new.id ≡ seat.old.id) }
    ensures seat { (faced : ℕ → ℕ) × ((was : Past) → seat.old.me.0.taken ≡ Some was → seat.new.me ≡ (with_shed seat.old.me.0 faced was.history, [])) }
{
    put_in(&desk.table, seat, book);
    desk.table.shared.store::<Empty>(seat, 0, 0);
}
