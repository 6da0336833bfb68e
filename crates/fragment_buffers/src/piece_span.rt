//! Where a piece stands.
ghost use Rattle.std.specs.Prelude.{◌≡◌, ℕ, ◌*◌, ◌+◌, ◌<◌, ◌≤◌, true, false, IfSome, IfNone};
ghost use Rattle.std.specs.Bool.{MatchBool};
ghost use Rattle.std.specs.List.{list_any};
ghost use Rattle.fragment_buffers.specs.Entries.{place_of, same_place, meet, covers, AreCovering, LeaveGap};

use mesh_header::Piece;

/// The place of a piece in its datagram.
#[derive(Clone, Copy, Debug, Default)]
pub struct PieceSpan {
    /// Where it begins, in units of 8 octets.
    pub offset: u8,
    /// How many octets it has.
    pub length: u16,
}

impl PieceSpan {
    pub(crate) fn of(piece: &Piece<'_>) -> PieceSpan
        ensures { result ≡ place_of piece.now }
    {
        PieceSpan {
            offset: piece.offset(),
            length: piece.octets().len() as u16,
        }
    }

    /// The first position.
    pub(crate) fn start(self) -> u16
        ensures { result ≡ self.offset * 8 }
    {
        u16::from(self.offset) * 8
    }

    /// The position after the last one.
    pub(crate) fn end(self) -> u32
        ensures { result ≡ self.offset * 8 + self.length }
    {
        u32::from(self.start()) + u32::from(self.length)
    }

    // Whether a position lies in it.
    fn covers(self, at: u32) -> bool
        ensures { result ≡ covers at self }
    {
        u32::from(self.start()) <= at && at < self.end()
    }
}

/// Whether one of the places is that of this piece, with its length.
pub(crate) fn has_place(places: &[PieceSpan], piece: &Piece<'_>) -> bool
    ensures { result ≡ list_any (same_place (place_of piece.now)) places.now }
{
    let new = PieceSpan::of(piece);
    places.iter().any(|held| held.offset == new.offset && held.length == new.length)
}

/// Whether an octet of the piece stands at one of the places.
pub(crate) fn overlap(places: &[PieceSpan], piece: &Piece<'_>) -> bool
    ensures { result ≡ list_any (meet (place_of piece.now)) places.now }
{
    let new = PieceSpan::of(piece);
    let start = u32::from(new.start());
    let end = new.end();
    places
        .iter()
        .any(|held| u32::from(held.start()) < end && start < held.end())
}

// Where the first of the places that have a position ends.
fn end_at(places: &[PieceSpan], at: u32) -> Option<u32>
    ensures none { IfNone result (list_any (covers at) places.now ≡ false) }
    ensures later { IfSome result (λ end. at < end) }
    ensures covered { IfSome result (λ end. (i : ℕ) → at ≤ i → i < end → list_any (covers i) places.now ≡ true) }
{
    for held in places.iter() {
        if held.covers(at) {
            return Some(held.end());
        }
    }
    None
}

/// Whether every position of a datagram of this size lies in one of the places. Each is passed at once, so it takes no more steps than there are.
pub(crate) fn cover_all(places: &[PieceSpan], size: u16) -> bool
    ensures { MatchBool result (AreCovering size places.now) (LeaveGap size places.now) }
{
    let mut at = 0;
    while at < u32::from(size) {
        let Some(end) = end_at(places, at) else {
            return false;
        };
        at = end;
    }
    true
}
