//! Units.
use crate::piece::Piece;
use plc_base::{OctetRef, Short};

/// The most octets of a datagram that goes whole, in one frame. A longer one goes in pieces.
pub const LONGEST_WHOLE: usize = 375;

/// A mesh header with short addresses (RFC 4944, 5.2).
#[derive(Clone, Copy, Debug, PartialEq, Eq, Drop)]
pub struct Mesh {
    /// How many hops are left to it.
    pub hops: u8,
    /// The node that the unit comes from.
    pub origin: Short,
    /// The node that it is for: its final address.
    pub to: Short,
}

/// The payload of a MAC frame. Its octets stay where they are, so that nothing is copied with it.
#[derive(Drop)]
pub enum Unit<'a> {
    /// A whole datagram of 1 to 375 octets.
    Whole {
        /// The mesh header in front.
        mesh: Mesh,
        /// The datagram.
        octets: OctetRef<'a>,
    },
    /// A piece of a datagram.
    Part {
        /// The mesh header in front.
        mesh: Mesh,
        /// The piece.
        piece: Piece<'a>,
    },
    /// A joining command that is carried over the mesh.
    Carried {
        /// The mesh header in front.
        mesh: Mesh,
        /// What stands after the code 02.
        body: OctetRef<'a>,
    },
    /// A command for the neighbour that hears it, with no mesh header.
    Local {
        /// The code: 1 to 5.
        code: u8,
        /// What stands after the code.
        body: OctetRef<'a>,
    },
}
