//! Route messages.
use plc_base::{Octets, Short};

/// The spelling of a message: at most 9 octets.
pub type MessageBuf = Octets<9>;

/// A message by which routes are found and ended (draft-clausen-lln-loadng, 6).
#[derive(Clone, Copy, Debug, PartialEq, Eq, Drop)]
pub enum Message {
    /// Asks for a route to `dest`, and offers one to `origin` on its way.
    Rreq {
        /// The sequence number that `origin` gave it: 1 to 65,535.
        number: u16,
        /// The cost of the way from `origin` so far.
        cost: u16,
        /// The node that asks.
        origin: Short,
        /// The node that is sought.
        dest: Short,
    },
    /// Answers a request, and offers a route to `origin` on its way.
    Rrep {
        /// The sequence number that `origin` gave it: 1 to 65,535.
        number: u16,
        /// The cost of the way from `origin` so far.
        cost: u16,
        /// The node that answers.
        origin: Short,
        /// The node that asked.
        to: Short,
    },
    /// Says that there is no longer a route to `lost`.
    Rerr {
        /// The node that can't be reached.
        lost: Short,
        /// The node that the route error goes to.
        to: Short,
    },
}
