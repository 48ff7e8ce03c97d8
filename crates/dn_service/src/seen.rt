ghost use Rattle.std.specs.Prelude.{◌≡◌, []};

use crate::rule::BookSeat;
use std::marker::Model;

/// What a caller has seen, as a token that another caller of the service can learn from. It has no bytes.
///
/// Contracts see the service and the *front*, a history with which that of the service begins.
#[derive(Drop)]
pub struct Seen {
    seat: BookSeat,
}

impl Model for Seen {
    ghost use Rattle.dn_service.specs.Lasting.{SeenView};
    ghost use Rattle.dn_service.specs.Tokens.{IsTokenSeat};

    ghost Value = { SeenView };

    ghost view = { λ s. record {
      service = record { table = s.seat.table_id; callers = s.seat.me.0.count };
      front = s.seat.me.0.seen;
    } };

    ghost invariant = { λ s. IsTokenSeat s.seat.table_id s.seat.me };
}

impl Seen {
    ghost use Rattle.dn_service.specs.Tokens.{IsTokenSeat, witness};

    pub(crate) fn new(seat: BookSeat) -> Seen
        requires { IsTokenSeat seat.table_id seat.me }
        ensures { result ≡ record { service = record { table = seat.table_id; callers = seat.me.0.count }; front = seat.me.0.seen } }
    {
        Seen { seat }
    }

    pub(crate) fn into_seat(self) -> BookSeat
        ensures table { result.table_id ≡ self.service.table }
        ensures seat { result.me ≡ (witness self.service.callers self.front, []) }
    {
        let Seen { seat } = self;
        seat
    }
}
