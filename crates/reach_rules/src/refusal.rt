//! Why a node refuses: the words of its answers.
//!
//! The rules of `specs/` are of nodes that are not halted, so none of them tries Halted: it is what a halted node answers, before any
//! rule is asked.
use node_rules::Dropped;
use thiserror::Error;

/// Why a node drops an accepted frame. After each of them but Store nothing has changed since the frame was accepted.
#[derive(Clone, Copy, Debug, PartialEq, Eq, Error)]
pub enum ReachDropped {
    /// It is dropped for a reason that nodes have without further reach.
    #[error("{0}")]
    Known(Dropped),
    /// The request comes from a neighbour that did not acknowledge a reply.
    #[error("the sender of the request is listed")]
    Blacklisted,
    /// No open check awaits the acknowledgement.
    #[error("no check awaits the acknowledgement")]
    NotAwaited,
    /// The broadcast is an own one, or its number is not above the mark of its origin.
    #[error("the broadcast came before")]
    Old,
    /// The origin of the broadcast is new, and 32 origins are held.
    #[error("no origin more can be held")]
    OriginsFull,
    /// The own address is already in the walk of the ask.
    #[error("the ask has been here before")]
    Revisited,
    /// The target of the ask is another node, and its walk has 15 addresses.
    #[error("the walk is full")]
    PathLong,
}

/// Why a broadcast is not sent. A halted node answers Halted; the others are tried in this order. Nothing has changed after each of them
/// but Store.
#[derive(Clone, Copy, Debug, PartialEq, Eq, Error)]
pub enum BroadcastRefusal {
    /// The node is halted.
    #[error("the node is halted")]
    Halted,
    /// The node has no ring.
    #[error("the node is not joined")]
    NotJoined,
    /// The datagram has not 1 to 360 octets.
    #[error("the datagram has not 1 to 360 octets")]
    BadSize,
    /// The numbers of the own broadcasts are spent.
    #[error("the broadcast numbers are spent")]
    NumberSpent,
    /// No frame counter is left.
    #[error("the frame counters are spent")]
    CounterSpent,
    /// A store write failed. The node is halted, and nothing was sent.
    #[error("a store write failed")]
    Store,
}

/// Why the way to a node is not asked for. A halted node answers Halted; the others are tried in this order. Nothing has changed after
/// each of them but Store.
#[derive(Clone, Copy, Debug, PartialEq, Eq, Error)]
pub enum AskRefusal {
    /// The node is halted.
    #[error("the node is halted")]
    Halted,
    /// The node has no ring.
    #[error("the node is not joined")]
    NotJoined,
    /// The target is the node itself.
    #[error("the target is the node itself")]
    ToSelf,
    /// No valid route leads to the target.
    #[error("no route leads to the target")]
    NoRoute,
    /// No frame counter is left.
    #[error("the frame counters are spent")]
    CounterSpent,
    /// A store write failed. The node is halted, and nothing was sent.
    #[error("a store write failed")]
    Store,
}

/// Why a node drops a frame of discovery. A halted node answers Halted; the others are tried in this order. Nothing has changed after
/// each.
#[derive(Clone, Copy, Debug, PartialEq, Eq, Error)]
pub enum DiscoveryDropped {
    /// The node is halted.
    #[error("the node is halted")]
    Halted,
    /// The octets are no request and no beacon.
    #[error("the octets are no frame of discovery")]
    Malformed,
    /// It is a request, and the node has no address; or a beacon of another PAN or from the own address.
    #[error("the frame is for another node")]
    NotForMe,
    /// It is a beacon, and the node has an address or does not scan.
    #[error("the node does not scan")]
    NotScanning,
    /// It is a request, and the meter has no valid route to the coordinator.
    #[error("no route leads to the coordinator")]
    NoRoute,
}

/// Why a meter does not scan. A halted one answers Halted. Nothing has changed after each.
#[derive(Clone, Copy, Debug, PartialEq, Eq, Error)]
pub enum ScanRefusal {
    /// The node is halted.
    #[error("the node is halted")]
    Halted,
    /// The meter has a ring.
    #[error("the meter is joined")]
    AlreadyJoined,
}

/// Why a meter does not begin to join by an agent that it heard. A halted one answers Halted; the others are tried in this order. Nothing
/// has changed after each.
#[derive(Clone, Copy, Debug, PartialEq, Eq, Error)]
pub enum ChooseRefusal {
    /// The node is halted.
    #[error("the node is halted")]
    Halted,
    /// The meter has a ring.
    #[error("the meter is joined")]
    AlreadyJoined,
    /// Fewer agents were heard.
    #[error("fewer agents were heard")]
    NoBeacon,
}
