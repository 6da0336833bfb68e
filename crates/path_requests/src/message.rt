//! Path messages.
use crate::walk::Walk;
use plc_base::Short;

/// A message by which a node asks which way another one is reached: the body of a command 05.
#[derive(Debug, Drop, PartialEq, Eq)]
pub enum PathMessage {
    /// Asks for the way to `target`.
    Ask {
        /// The node that is sought. It is not in the walk.
        target: Short,
        /// The nodes that the ask came by, from the one that began it to the sender: 1 to 15, no two the same.
        walk: Walk,
    },
    /// Carries the way that an ask took back to the node that began it.
    Tell {
        /// The nodes of the way, from the one that asked to the target: 2 to 16, no two the same.
        walk: Walk,
    },
}
