//! The limits of the network.

/// The most octets of a MAC frame, which is the longest that one PHY frame carries here.
pub const LONGEST_FRAME: usize = 400;

/// The most octets of a datagram: the least MTU that IPv6 asks of a link (RFC 8200, 5).
pub const LONGEST_DATAGRAM: usize = 1280;

/// The most frames that one step of a node gives out.
pub const MOST_FRAMES: usize = 24;

/// The greatest counter of a frame and the greatest number of a broadcast. It is a limit, and never given out.
pub const GREATEST_COUNTER: u32 = 4294967295;
