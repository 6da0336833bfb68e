//! Why octets are no unit.
use plc_base::{Fault, FaultKind};
use thiserror::Error;

/// What is wrong, at the first place from the left where something is.
#[derive(Clone, Copy, Debug, PartialEq, Eq, Drop, Error)]
pub enum UnitFaultKind {
    /// There are no octets. The place is 0.
    #[error("no octets")]
    Empty,
    /// An octet begins no part that is allowed there, or a command's code is not allowed there. The place is that octet's.
    #[error("no part or command that is allowed here")]
    Dispatch,
    /// The mesh header has an extended address: its bit V or F is 0. The place is 0.
    #[error("an extended address in the mesh header")]
    AddressKind,
    /// The hops left stand in an octet of their own and are below 15. The place is 1.
    #[error("hops below 15 in the long form")]
    HopForm,
    /// The octets end inside a header, right after a mesh header, or before a command's code. The place is their number.
    #[error("the octets end inside a header")]
    Short,
    /// The size of a piece's datagram is 0 or above 1,280. The place is the first octet of the size.
    #[error("a datagram of no octet or more than 1,280")]
    Size,
    /// A piece has no octet, passes its datagram's size, has an uneven length and is not the last, or is a later piece at
    /// offset 0. The place is the first after the piece's headers.
    #[error("no piece of its datagram")]
    PieceForm,
    /// A whole datagram has no octet or more than 375. The place is the first after its dispatch.
    #[error("a whole datagram of no octet or more than 375")]
    DataSize,
    /// The origin or the final address is FFFE or FFFF. The place is its first octet.
    #[error("an address of no node")]
    Address,
}

/// The first fault from the left of octets that are no unit.
pub type UnitFault = Fault<UnitFaultKind>;

impl FaultKind for UnitFaultKind {
    ghost use Rattle.mesh_header.specs.declared.fault.UnitFaultKind.TheVariants.{Short};

    const SHORT: UnitFaultKind = UnitFaultKind::Short;

    ghost SHORT = { Short };
}
