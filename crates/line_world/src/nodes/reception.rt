//! What a node makes of a frame, for the line.
use line_events::Answer;
use node_rules::Reply;
use plc_base::{Eui, OctetRef};

/// A datagram that a node handed up.
#[derive(Drop)]
pub struct HandedUp<'a> {
    /// The note of the datagram.
    pub note: u32,
    /// Its octets, where they were written.
    pub octets: OctetRef<'a>,
}

/// What a node made of a frame that it accepted.
#[derive(Drop)]
pub struct Reception<'a> {
    /// How it ended.
    pub answer: Answer,
    /// The datagram that was handed up, if one was.
    pub up: Option<HandedUp<'a>>,
    /// Whether the node took a grant.
    pub took: bool,
    /// The meter whose joining is done, if one is.
    pub done: Option<Eui>,
    /// The reply that the node's station sent last, for a frame that carries a route message.
    pub replied: Option<Reply>,
}
