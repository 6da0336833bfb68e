//! Why octets are no MAC frame.
use plc_base::{Fault, FaultKind};
use thiserror::Error;

/// What is wrong, at the first place from the left where something is.
#[derive(Clone, Copy, Debug, PartialEq, Eq, Drop, Error)]
pub enum FrameFaultKind {
    /// The octets end inside the header, or a sealed body has fewer than 4. The place is their number.
    #[error("the octets end inside the header, or before a whole tag")]
    Short,
    /// Octet 0 of the frame control has another type than data, or bit 4 or bit 7; the place is 0. Or octet 1 has bit 8 or
    /// bit 9, version 2 or 3, or version 0 on a sealed frame; the place is 1.
    #[error("another type, version or bit of the frame control")]
    Kind,
    /// Octet 0 of the frame control has no PAN id compression; the place is 0. Or octet 1 has another pair of addressing
    /// modes; the place is 1.
    #[error("addressing modes that are not taken")]
    Mode,
    /// The security control is not 0D, or the key index is above 1. The place is that octet's.
    #[error("another security level or key index")]
    Level,
    /// There are more than 400 octets. The place is 400.
    #[error("more than 400 octets")]
    Long,
    /// A short target is FFFE, or a short sender FFFE or FFFF. The place is its first octet.
    #[error("an address of no node")]
    Address,
}

/// The first fault of octets that are no MAC frame. `Long` comes first, and then the fields from the left.
pub type FrameFault = Fault<FrameFaultKind>;

impl FaultKind for FrameFaultKind {
    ghost use Rattle.mac_frames.specs.declared.fault.FrameFaultKind.TheVariants.{Short};

    const SHORT: FrameFaultKind = FrameFaultKind::Short;

    ghost SHORT = { Short };
}
