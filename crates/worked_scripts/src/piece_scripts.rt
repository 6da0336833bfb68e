//! What becomes of the pieces of datagrams at the node that gathers them.
ghost use Rattle.worked_scripts.specs.PieceScripts.{ThePiecesMakeTheDatagram, PiecesComeInAnyOrder, ARepeatedPieceIsIgnored, AnOverlapBeginsAnew};
ghost use Rattle.worked_scripts.specs.PieceScripts.{PiecesAreNamed, EightAreGathered, EightyBlocksAreGathered, GatheringEndsAfterAMinute};

/// The last piece makes a datagram whole: it is handed up, once, with the number of its send.
#[tactic(auto, using(crate::proofs::PieceScripts::the_pieces_make_the_datagram))]
pub fn the_pieces_make_the_datagram()
    ensures { ThePiecesMakeTheDatagram }
{}

/// A piece that covers its datagram is handed up at once, and pieces come in any order.
#[tactic(auto, using(crate::proofs::PieceScripts::pieces_come_in_any_order))]
pub fn pieces_come_in_any_order()
    ensures { PiecesComeInAnyOrder }
{}

/// A piece with the place and length of a held one is ignored, whatever its octets are.
#[tactic(auto, using(crate::proofs::PieceScripts::a_repeated_piece_is_ignored))]
pub fn a_repeated_piece_is_ignored()
    ensures { ARepeatedPieceIsIgnored }
{}

/// A piece that overlaps a held one otherwise discards all that was gathered, and the datagram begins anew with it.
#[tactic(auto, using(crate::proofs::PieceScripts::an_overlap_begins_anew))]
pub fn an_overlap_begins_anew()
    ensures { AnOverlapBeginsAnew }
{}

/// Pieces belong together where origin, size and tag are the same.
#[tactic(auto, using(crate::proofs::PieceScripts::pieces_are_named))]
pub fn pieces_are_named()
    ensures { PiecesAreNamed }
{}

/// Eight datagrams are gathered at most: a piece of a ninth is refused, also where it alone would be the whole, and one of a held one is
/// taken.
#[tactic(auto, using(crate::proofs::PieceScripts::eight_are_gathered))]
pub fn eight_are_gathered()
    ensures { EightAreGathered }
{}

/// They take 80 blocks of 64 octets at most, each as many as its whole size needs.
#[tactic(auto, using(crate::proofs::PieceScripts::eighty_blocks_are_gathered))]
pub fn eighty_blocks_are_gathered()
    ensures { EightyBlocksAreGathered }
{}

/// A datagram is gathered for less than 60 seconds from its first piece, or from the piece that began it anew.
#[tactic(auto, using(crate::proofs::PieceScripts::gathering_ends_after_a_minute))]
pub fn gathering_ends_after_a_minute()
    ensures { GatheringEndsAfterAMinute }
{}
