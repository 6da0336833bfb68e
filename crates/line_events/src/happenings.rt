//! What happens at an event, as the report says it.
use crate::Answer;
use node_rules::ShownRef;
use path_requests::Walk;
use plc_base::{OctetRef, Short};

/// A datagram that a node handed up.
#[derive(Drop)]
pub struct Handed<'a> {
    /// The node.
    pub node: u16,
    /// The number of the send, from 1, or 0 where no node sent the frame that brought it.
    pub note: u32,
    /// The datagram: 1 to 1,280 octets.
    pub octets: OctetRef<'a>,
}

/// A meter that was allowed, and the address that the book gives it.
#[derive(Clone, Copy, Debug, PartialEq, Eq)]
pub struct Admission {
    /// The meter's node.
    pub node: u16,
    /// Its short address.
    pub address: Short,
}

/// A broadcast that a node handed up.
#[derive(Drop)]
pub struct BroadcastUp<'a> {
    /// The node.
    pub node: u16,
    /// The address of the node that sent it first.
    pub origin: Short,
    /// The number that `origin` gave it.
    pub number: u32,
    /// The datagram: 1 to 360 octets.
    pub octets: OctetRef<'a>,
}

/// An agent by which a meter begins to join, since its scan heard it.
#[derive(Clone, Copy, Debug, PartialEq, Eq)]
pub struct AgentLine {
    /// The meter's node.
    pub node: u16,
    /// The agent's short address.
    pub address: Short,
    /// The cost to the coordinator by it.
    pub total: u32,
}

/// The answer to a path request, as it comes back to the node that had sent it.
#[derive(Debug, Drop)]
pub struct PathLine {
    /// The node that had asked.
    pub node: u16,
    /// The addresses of the way, from its own to that of the target: 2 to 16.
    pub walk: Walk,
}

/// What the report says of an event that was taken.
#[derive(Drop)]
pub struct Happenings<'a> {
    /// How it ended.
    pub answer: Answer,
    /// Whether a tag that a node found right was made by nobody.
    pub forged: bool,
    /// The datagram that was handed up, if one was.
    pub up: Option<Handed<'a>>,
    /// The broadcast that was handed up, if one was.
    pub bup: Option<BroadcastUp<'a>>,
    /// The agent by which a meter joins, if one was chosen.
    pub agent: Option<AgentLine>,
    /// The answer to a path request, if one came back.
    pub path: Option<PathLine>,
    /// The meter that was allowed, if one was.
    pub grant: Option<Admission>,
    /// The node of the meter that took its grant, if one did.
    pub took: Option<u16>,
    /// The node of the meter whose joining is done, if one is.
    pub done: Option<u16>,
    /// What was shown of a node, if one was.
    pub shown: Option<ShownRef<'a>>,
    /// One more than the number of flights before the event.
    pub first_flight: u32,
    /// How many flights are new: at most 24.
    pub flights: u8,
}
