//! Why octets are no joining message.
use plc_base::{Fault, FaultKind};
use thiserror::Error;

/// What is wrong, at the first place from the left where something is.
#[derive(Clone, Copy, Debug, PartialEq, Eq, Drop, Error)]
pub enum JoinFaultKind {
    /// There are fewer octets than a code and an EUI-64 have. The place is their number.
    #[error("the octets end inside the code or the EUI")]
    Short,
    /// The first octet is no message's code. The place is 0.
    #[error("no code of a joining message")]
    Code,
    /// What stands after the EUI-64 is not what this code has there. The place is 9.
    #[error("another rest than this code has")]
    Body,
}

/// The first fault from the left of octets that are no joining message.
pub type JoinFault = Fault<JoinFaultKind>;

impl FaultKind for JoinFaultKind {
    ghost use Rattle.joining_messages.specs.declared.fault.JoinFaultKind.TheVariants.{Short};

    const SHORT: JoinFaultKind = JoinFaultKind::Short;

    ghost SHORT = { Short };
}
