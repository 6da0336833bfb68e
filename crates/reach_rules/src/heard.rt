//! What a node makes of a command for its neighbours, and of the frames of discovery.
use broadcast_log::BroadcastBuf;
use path_requests::Walk;
use plc_base::Short;

/// What a node made of a command of code 03, 04 or 05.
#[derive(Debug, Drop)]
pub enum CommandHeard {
    /// The acknowledgement was awaited, and its check ends.
    Acked,
    /// A broadcast is handed up; where it has hops left, it goes on.
    Broadcast {
        /// The node that sent it first.
        origin: Short,
        /// The number that `origin` gave it.
        number: u32,
        /// The datagram.
        octets: BroadcastBuf,
    },
    /// The path message goes on.
    Relayed,
    /// The ask has come to its target, and a tell goes back.
    Answered,
    /// The tell has come back to the node that asked.
    Path {
        /// The nodes of the way, from the own one to the target.
        walk: Walk,
    },
}

/// What a node made of a frame of discovery.
#[derive(Clone, Copy, Debug, PartialEq, Eq)]
pub enum DiscoveryHeard {
    /// The request is answered with a beacon.
    Beacon,
    /// The beacon is taken into the scan.
    Beaconed,
}
