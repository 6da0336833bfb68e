//! How long a joining takes at most.

/// How long a joining session lasts, in seconds (a rule of this network): at a meter from the call that began it, and again
/// from its answer to the first packet; at the coordinator from its first packet on.
pub const SESSION_TIME: u64 = 120;
