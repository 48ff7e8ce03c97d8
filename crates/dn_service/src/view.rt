use std::marker::Model;

/// What a seat knows. No value of it is made: views exist in proofs alone.
pub(crate) struct View {
    none: u8,
}

impl Model for View {
    ghost use Rattle.dn_service.specs.Seats.{SeatView, spent};

    ghost Value = { SeatView };

    ghost view = { λ _. spent };
}
