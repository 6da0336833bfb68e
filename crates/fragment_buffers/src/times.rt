//! How long a node holds what it has to wait for.

/// How long the pieces of a datagram are gathered after the first one came, in seconds (the reassembly timeout of RFC 4944,
/// 5.3, which allows 60 seconds at most).
pub const REASSEMBLY_TIME: u64 = 60;

/// How long a body waits for a route, in seconds (a rule of this network).
pub const WAITING_TIME: u64 = 30;
