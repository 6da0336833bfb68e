//! Broadcast datagrams.
use plc_base::{Octets, Short};

/// A datagram that goes to all nodes: at most 360 octets.
pub type BroadcastBuf = Octets<360>;

/// What the command of a broadcast carries (LOWPAN_BC0 of RFC 4944, 11.1, with fields of this network's own).
#[derive(Debug, Drop)]
pub struct Broadcast {
    /// How many hops it may still go, this one among them: 1 to 14.
    pub hops: u8,
    /// The node that sent it first.
    pub origin: Short,
    /// The number that `origin` gave it.
    pub number: u32,
    /// The datagram: 1 to 360 octets.
    pub octets: BroadcastBuf,
}
