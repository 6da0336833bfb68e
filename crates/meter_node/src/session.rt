//! A meter's end of a joining.
use eap_psk::Peer;
use plc_base::Short;

/// How a session runs.
#[derive(Clone, Copy, Debug, PartialEq, Eq)]
pub enum SessionWay {
    /// Over the air, by the agent of this address.
    ByAgent(Short),
    /// In commands, over the mesh.
    ByCommand,
}

/// A session. With a peer it awaits the third message, and else the first.
#[derive(Clone, Copy, Debug)]
pub struct Session {
    /// How it runs.
    pub session_way: SessionWay,
    /// The peer that answered the first message.
    pub peer: Option<Peer>,
    /// When it began, in seconds.
    pub since: u64,
}
