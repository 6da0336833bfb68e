//! The pieces of a datagram.
ghost use Rattle.std.specs.Prelude.{◌≡◌, ◌≤◌, ◌<◌, Some, length, slice_get};
ghost use Rattle.fragment_buffers.specs.Fragmentation.{pieces_of, piece_of, pieces_cut};
ghost use Rattle.plc_base.specs.declared.limits.TheConstants.{LONGEST_DATAGRAM};

use mesh_header::{LONGEST_WHOLE, Piece};

/// The octets of each piece but the last.
const PIECE: usize = 368;

/// How many units carry a datagram of this many octets, 1 to 1,280: one for up to 375 octets, and else one for each piece of 368
/// octets and one for the octets that are left.
pub fn pieces(octets: u16) -> u8
    requires { (1 ≤ octets) × (octets ≤ LONGEST_DATAGRAM) }
    ensures { result ≡ pieces_of octets }
{
    if octets <= LONGEST_WHOLE as u16 {
        return 1;
    }
    octets.div_ceil(PIECE as u16) as u8
}

/// The k-th piece of a datagram of 376 to 1,280 octets, from 0; `k` is below `pieces`.
///
/// The piece has the datagram's size and this tag, stands at 46 times `k` units of 8 octets, and has 368 octets or, as the last
/// one, those that are left.
pub fn piece_at(datagram: &[u8], tag: u16, k: u8) -> Piece<'_>
    requires long { (376 ≤ length datagram.now) × (length datagram.now ≤ LONGEST_DATAGRAM) }
    requires there { k < pieces_of (length datagram.now) }
    ensures value { result ≡ piece_of datagram.now tag k }
    ensures kth { slice_get (pieces_cut datagram.now tag) k ≡ Some result }
{
    let size = datagram.len() as u16;
    let left = &datagram[PIECE * k as usize..];
    let octets = &left[..PIECE.min(left.len())];
    Piece::new(size, tag, 46 * k, octets).unwrap()
}
