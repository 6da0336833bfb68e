//! What becomes of datagrams that are sent, of units that are accepted, of bodies that wait and of pieces that are held: each fate is met.
ghost use Rattle.worked_scripts.specs.FateScripts.{ASendHasEachFate, AUnitHasEachFate, ALostFlightComes, ABodyHasEachFate, APieceHasEachFate};

/// A datagram goes out in one flight, or as two pieces in two; it waits, and a request flies; or it is refused.
#[tactic(auto, using(crate::proofs::FateScripts::a_send_has_each_fate))]
pub fn a_send_has_each_fate()
    ensures { ASendHasEachFate }
{}

/// A unit is handed up, held, or goes on; or it ends: without a route, with a report to its origin, without hops, counters or room, or where
/// a write fails.
#[tactic(auto, using(crate::proofs::FateScripts::a_unit_has_each_fate))]
pub fn a_unit_has_each_fate()
    ensures { AUnitHasEachFate }
{}

/// A flight that is lost is no end of what it carries: its octets can still be injected, and are then handed up, with nothing forged.
#[tactic(auto, using(crate::proofs::FateScripts::a_lost_flight_comes))]
pub fn a_lost_flight_comes()
    ensures { ALostFlightComes }
{}

/// A body waits on where another frame comes, and for 29 seconds; it leaves where its route is found; it ends after 30 seconds, and where the
/// meter leaves or a write fails.
#[tactic(auto, using(crate::proofs::FateScripts::a_body_has_each_fate))]
pub fn a_body_has_each_fate()
    ensures { ABodyHasEachFate }
{}

/// A piece is held on where a piece of another datagram comes, and for 59 seconds; it comes up with the second piece; it is discarded where a
/// piece overlaps it; it ends after 60 seconds, and where the meter leaves or a write fails.
#[tactic(auto, using(crate::proofs::FateScripts::a_piece_has_each_fate))]
pub fn a_piece_has_each_fate()
    ensures { APieceHasEachFate }
{}
