//! Why octets are no route message.
use plc_base::{Fault, FaultKind};
use thiserror::Error;

/// What is wrong, at the first place from the left where something is.
#[derive(Clone, Copy, Debug, PartialEq, Eq, Drop, Error)]
pub enum MessageFaultKind {
    /// The first octet is no message's. The place is 0.
    #[error("no kind of route message")]
    Kind,
    /// The octets end inside a field. The place is their number.
    #[error("the octets end inside a field")]
    Short,
    /// The sequence number is 0. The place is its first octet.
    #[error("the number 0")]
    Zero,
    /// An address is FFFE or FFFF. The place is its first octet.
    #[error("an address of no node")]
    Address,
    /// Octets follow the last field. The place is the first of them.
    #[error("octets after the message")]
    Long,
}

/// The first fault from the left of octets that are no route message.
pub type MessageFault = Fault<MessageFaultKind>;

impl FaultKind for MessageFaultKind {
    ghost use Rattle.loadng_messages.specs.declared.fault.MessageFaultKind.TheVariants.{Short};

    const SHORT: MessageFaultKind = MessageFaultKind::Short;

    ghost SHORT = { Short };
}
