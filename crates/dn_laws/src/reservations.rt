//! The laws of room.

ghost use Rattle.dn_laws.specs.ReservationLaws.{ChangesHaveRoom, OnlyMakersLackMemory, RoomStays};

/// What dn_shaper says of room and memory means what its words say.
pub fn laws_of_reservations()
    ensures memory { OnlyMakersLackMemory }
    ensures room { ChangesHaveRoom }
    ensures stays { RoomStays }
{}
