//! Joining messages.
use plc_base::{EapBuf, Eui, KeyIndex};

/// A joining message: the joining node's identity and what is said.
#[derive(Debug, Drop)]
pub struct JoinMessage {
    /// The EUI-64 of the node that joins, or that is kicked or ordered to activate a key.
    pub eui: Eui,
    /// What is said.
    pub body: JoinBody,
}

/// What a joining message says.
#[derive(Debug, Drop)]
pub enum JoinBody {
    /// The node asks to join, with no packet, or answers a challenge.
    Join {
        /// Nothing, or an EAP packet: at most 128 octets.
        eap: EapBuf,
    },
    /// The coordinator has accepted the node: an EAP success (RFC 3748, 4.2).
    Accept {
        /// The identifier of the EAP exchange.
        identifier: u8,
    },
    /// The coordinator challenges the node.
    Challenge {
        /// An EAP packet: 1 to 128 octets.
        eap: EapBuf,
    },
    /// The coordinator does not let the node in.
    Decline,
    /// The node has to leave.
    Kick,
    /// The node has to seal with another key that it holds.
    Activate {
        /// The index of that key: 0 or 1.
        index: KeyIndex,
    },
}
