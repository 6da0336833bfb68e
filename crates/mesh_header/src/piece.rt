//! A piece of a datagram.
ghost use Rattle.std.specs.Prelude.{◌≡◌, ◌≤◌, ◌<◌, ◌↔◌, ◌%◌, ◌+◌, ◌*◌, length, IsSome, IfSome};
ghost use Rattle.mesh_header.specs.Pieces.{IsPiece, Placed};
ghost use Rattle.plc_base.specs.declared.limits.TheConstants.{LONGEST_FRAME};

use plc_base::{LONGEST_DATAGRAM, OctetRef};
use std::marker::Model;

/// A piece of a datagram (RFC 4944, 5.3): how many octets the whole datagram has, the tag that names it, where the piece
/// stands in it, in units of 8 octets, and the piece's own octets.
///
/// Every piece keeps the rule of pieces: the size is 1 to 1,280, there is an octet, the piece ends within the size, and one that
/// ends before it has a multiple of 8 octets. No piece has more octets than a frame, which are 400. The octets stay where they
/// are. A contract sees the four parts.
#[derive(Drop)]
pub struct Piece<'a> {
    size: u16,
    tag: u16,
    offset: u8,
    octets: OctetRef<'a>,
}

impl<'a> Model for Piece<'a> {
    ghost use Rattle.std.specs.Prelude.{◌≤◌, length};
    ghost use Rattle.plc_base.specs.declared.limits.TheConstants.{LONGEST_FRAME};
    ghost use Rattle.mesh_header.specs.Pieces.{Placed, IsPiece, placed_code};

    ghost Value = { Placed };

    ghost coded = { placed_code };

    ghost view = { λ p. record { size = p.size; tag = p.tag; offset = p.offset; octets = p.octets } };

    ghost invariant = { λ p. IsPiece (record { size = p.size; tag = p.tag; offset = p.offset; octets = p.octets })
        × (length p.octets ≤ LONGEST_FRAME) };
}

impl<'a> Piece<'a> {
    /// The piece of these parts. None exactly where they break the rule of pieces.
    ///
    /// `size` is the whole datagram's in octets, `offset` the place of the piece in units of 8 octets. At most 400 octets are asked
    /// for.
    pub fn new(size: u16, tag: u16, offset: u8, octets: &'a [u8]) -> Option<Piece<'a>>
        requires fits { length octets.now ≤ LONGEST_FRAME }
        ensures valid { IsSome result ↔ IsPiece (record { size = size; tag = tag; offset = offset; octets = octets.now }) }
        ensures value { IfSome result
            (λ piece. piece ≡ record { size = size; tag = tag; offset = offset; octets = octets.now }) }
    {
        let count = octets.len();
        let end = offset as usize * 8 + count;
        let whole = size as usize;
        if whole == 0 || whole > LONGEST_DATAGRAM || count == 0 || end > whole {
            return None;
        }
        if end < whole && count % 8 != 0 {
            return None;
        }
        Some(Piece {
            size,
            tag,
            offset,
            octets: OctetRef::new(octets),
        })
    }

    /// The same piece again. Its octets stay where they are.
    pub fn again(&self) -> Piece<'a>
        ensures { result ≡ self.now }
    {
        Piece {
            size: self.size,
            tag: self.tag,
            offset: self.offset,
            octets: OctetRef::new(self.octets.octets()),
        }
    }

    /// How many octets the whole datagram has: 1 to 1,280.
    pub fn size(&self) -> u16
        ensures value { result ≡ self.now.size }
        ensures rule { IsPiece self.now }
    {
        self.size
    }

    /// The tag that names the datagram among those of its origin and size.
    pub fn tag(&self) -> u16
        ensures { result ≡ self.now.tag }
    {
        self.tag
    }

    /// Where the piece stands in the datagram, in units of 8 octets.
    pub fn offset(&self) -> u8
        ensures { result ≡ self.now.offset }
    {
        self.offset
    }

    /// The octets of the piece: 1 to 400.
    pub fn octets(&self) -> &'a [u8]
        ensures value { result.now ≡ self.now.octets }
        ensures some { 0 < length result.now }
        ensures fits { length result.now ≤ LONGEST_FRAME }
    {
        self.octets.octets()
    }
}
