//! Laws of cutting and reassembly. A function here does nothing: its contract is the law.
ghost use Rattle.fragment_buffers.specs.Laws.{OverlapBeginsAnew, WholeIsOfItsPieces, GapIsInNoPiece, PiecesStayApart, PiecesComeTogether};
ghost use Rattle.fragment_buffers.specs.Laws.{OtherChainsKeepReassemblies, NewChainsAreOthers, LoadsSpellOctets};

/// A whole reassembly has, at each position, the octet that one of its pieces has there; in one that is not whole some position
/// lies in no piece.
pub fn a_whole_reassembly_is_of_its_pieces()
    ensures whole { WholeIsOfItsPieces }
    ensures gap { GapIsInNoPiece }
{}

/// No two pieces of a reassembly overlap, whatever is taken in and whatever expires.
pub fn placed_pieces_never_overlap()
    ensures { PiecesStayApart }
{}

/// The pieces of a datagram, taken in any order and any of them more than once, are held until the last of them comes, which
/// completes exactly that datagram. The other reassemblies stay as they were.
pub fn the_pieces_of_a_datagram_come_together()
    ensures { PiecesComeTogether }
{}

/// A piece that overlaps another one begins its reassembly anew, with its own note and time: of three pieces of a datagram the
/// second and the third make it whole, and the second alone would have ended `REASSEMBLY_TIME` after it came.
pub fn an_overlap_begins_anew()
    ensures { OverlapBeginsAnew }
{}

/// A chain of the pool that no reassembly has may be reserved, written and given back: the reassemblies are kept, and stay as
/// they were, as long as the blocks that are left are enough for them. A chain that the pool did not have before is none of a
/// reassembly.
pub fn other_chains_keep_reassemblies()
    ensures kept { OtherChainsKeepReassemblies }
    ensures new { NewChainsAreOthers }
{}

/// Each unit of a short load of octets spells octets.
pub fn loads_spell_octets()
    ensures { LoadsSpellOctets }
{}
