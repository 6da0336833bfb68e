//! What becomes of a path message at a node.
use crate::message::PathMessage;
use crate::walk::Walk;
use plc_base::Short;
use thiserror::Error;

/// What a node does with a path message that it took.
#[derive(Debug, Drop, PartialEq, Eq)]
pub enum PathStep {
    /// The message goes on to this neighbour.
    Forward {
        /// The neighbour.
        to: Short,
        /// The message that goes out.
        message: PathMessage,
    },
    /// The node is the target: its answer goes to this neighbour.
    Answer {
        /// The neighbour, the sender of the ask.
        to: Short,
        /// The message that goes out, a tell.
        message: PathMessage,
    },
    /// The node is the one that asked: this is the way.
    Done {
        /// The nodes of the way, from the own one to the target.
        walk: Walk,
    },
}

/// Why a node takes no path message.
#[derive(Clone, Copy, Debug, PartialEq, Eq, Drop, Error)]
pub enum PathRefusal {
    /// The last address of an ask is not the sender's, or a tell does not have the own address with the sender's directly after
    /// it.
    #[error("the path message does not fit its sender")]
    BadUnit,
    /// The target of an ask is another node, and there is no valid route to it.
    #[error("there is no valid route to the target")]
    NoRoute,
    /// The own address is already in the walk of an ask.
    #[error("the ask has been here before")]
    Revisited,
    /// The target of an ask is another node, and its walk has 15 addresses.
    #[error("the walk is full")]
    PathLong,
}
