//! What each step on the table tells the seat that makes it, and how seats are split and joined.
use crate::book::Book;
use crate::view::View;
use atomic_table::{Join, Play, Split};

/// The word is 0, and becomes k + 1, or the try fails.
pub(crate) struct Try;

impl Play<Option<Book>, View> for Try {
    ghost use Rattle.dn_service.specs.Steps.{tried};

    ghost then = { tried };
}

/// The word becomes 0 again, with no entry more.
pub(crate) struct Return;

impl Play<Option<Book>, View> for Return {
    ghost use Rattle.dn_service.specs.Steps.{returned};

    ghost then = { returned };
}

/// The word becomes 0 again, with no entry more, and the seat's callers have seen all entries.
pub(crate) struct Read;

impl Play<Option<Book>, View> for Read {
    ghost use Rattle.dn_service.specs.Steps.{read};

    ghost then = { read };
}

/// The word becomes 0 again, with one entry more.
pub(crate) struct Publish;

impl Play<Option<Book>, View> for Publish {
    ghost use Rattle.dn_service.specs.Steps.{published};

    ghost then = { published };
}

/// The word becomes 0 again, and all entries were taken out.
pub(crate) struct Empty;

impl Play<Option<Book>, View> for Empty {
    ghost use Rattle.dn_service.specs.Steps.{emptied};

    ghost then = { emptied };
}

/// The word is looked at, and what the seat was told of is what its callers have seen.
pub(crate) struct Learn;

impl Play<Option<Book>, View> for Learn {
    ghost use Rattle.dn_service.specs.Steps.{learnt};

    ghost then = { learnt };
}

/// The word is looked at by nobody.
pub(crate) struct Vacate;

impl Play<Option<Book>, View> for Vacate {
    ghost use Rattle.dn_service.specs.Steps.{vacant};

    ghost then = { vacant };
}

/// A new seat knows of what the first caller has seen.
pub(crate) struct Witness;

impl Split<View> for Witness {
    ghost use Rattle.dn_service.specs.Tokens.{as_it_was, witness_of};

    ghost left = { as_it_was };

    ghost right = { witness_of };
}

/// The seat's first caller gets a seat of its own.
pub(crate) struct FirstAlone;

impl Split<View> for FirstAlone {
    ghost use Rattle.dn_service.specs.Seats.{without_first, only_first};

    ghost left = { without_first };

    ghost right = { only_first };
}

/// One seat takes over the callers of another.
pub(crate) struct Together;

impl Join<View> for Together {
    ghost use Rattle.dn_service.specs.Seats.{joined, spent};

    ghost both = { joined };

    ghost spent = { spent };
}

/// One seat is told of what another knows of.
pub(crate) struct Tell;

impl Join<View> for Tell {
    ghost use Rattle.dn_service.specs.Seats.{spent};
    ghost use Rattle.dn_service.specs.Tokens.{told_of};

    ghost both = { told_of };

    ghost spent = { spent };
}
