//! The laws of seats, and the value that the lock of a table holds.
ghost use Rattle.dg_table.specs.Closing.{AttestedIsUnique};
ghost use Rattle.dg_table.specs.Looks.{KeepsLastLook};
ghost use Rattle.dg_table.specs.SeatLaws.{SeatStartsEmpty, OwnSeatsEntry, OtherSeatsEntry, SeatEntriesStand, AloneHasAll};

pub use crate::held::Held;

/// Which entries of a history are a seat's: none of the empty one; one more entry is the last of its own seat's, with
/// the history's length for its number, and leaves those of any other seat; a seat's entries stand in the history; and where
/// the seat 1 is alone they are all.
pub fn law_of_seats()
    ensures none { SeatStartsEmpty }
    ensures own { OwnSeatsEntry }
    ensures other { OtherSeatsEntry }
    ensures stand { SeatEntriesStand }
    ensures alone { AloneHasAll }
{}

/// Which look of a seat is its last: the one after which it took no other.
pub fn law_of_kept_looks()
    ensures { KeepsLastLook }
{}

/// All seats of a table together determine its history: so what is attested of them before and after a call that is refused is
/// one history.
pub fn law_of_attested()
    ensures { AttestedIsUnique }
{}
