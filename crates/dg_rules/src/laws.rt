//! The laws of histories: functions with empty bodies, whose contracts are the laws.
ghost use Rattle.dg_rules.specs.Step.{EmptyHistoryPosition, OneMoreEntry, PositionSinceChange, PlayedSinceStart, PlayedSinceChange, VerticesStay};
ghost use Rattle.dg_rules.specs.LegalLaws.{EmptyIsLegal, ExtensionIsLegal, PrefixIsLegal, FrontIsLegal, LegalIsSized, LegalGraphsHold, LegalLooksShow};

/// What a history does to the position: without an entry it is that of the start; one more entry does what its
/// accepted move, gift or join does, and nothing else; entries without an accepted gift or join fire it by their
/// scripts, from the start on and from the last change on; and the vertices stay.
pub fn law_of_positions()
    ensures start { EmptyHistoryPosition }
    ensures step { OneMoreEntry }
    ensures since_change { PositionSinceChange }
    ensures since_start { PlayedSinceStart }
    ensures since_last { PlayedSinceChange }
    ensures vertices { VerticesStay }
{}

/// Which histories are legal, and what their entries hold: the empty one is legal, one allowed entry more keeps a
/// legal one legal, and each beginning of a legal one is legal; all its replies have the size of the start, the graph
/// is within the limits after each, and each look showed the position.
pub fn law_of_legal_histories()
    ensures empty { EmptyIsLegal }
    ensures more { ExtensionIsLegal }
    ensures beginnings { PrefixIsLegal }
    ensures parts { FrontIsLegal }
    ensures sizes { LegalIsSized }
    ensures graphs { LegalGraphsHold }
    ensures looks { LegalLooksShow }
{}
