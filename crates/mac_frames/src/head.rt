//! The fields of a MAC header.
use plc_base::{Destination, Eui, KeyIndex, Short};

/// The fields of a MAC header, by kind of frame (IEEE 802.15.4-2006, section 7.2).
///
/// `ack` asks for an acknowledgement. `seq` is the sequence number and `pan` the identifier of the personal area network.
/// A short target is one node's address or FFFF for all, and never FFFE.
#[derive(Clone, Copy, Debug, PartialEq, Eq)]
pub enum MacHead {
    /// A frame between nodes that have short addresses, sealed at security level 5 with key identifier mode 1. Its version
    /// is 1.
    Sealed {
        ack: bool,
        seq: u8,
        pan: u16,
        /// The target's short address.
        to: Destination,
        /// The sender's short address.
        from: Short,
        /// The frame counter: one for each frame of a sender under a key.
        counter: u32,
        /// The key index, 0 or 1.
        index: KeyIndex,
    },
    /// A plain frame from a device that has no short address yet.
    Up {
        ack: bool,
        /// The frame version, 0 or 1.
        version: u8,
        seq: u8,
        pan: u16,
        /// The target's short address.
        to: Destination,
        /// The sender.
        from: Eui,
    },
    /// A plain frame to a device that has no short address yet.
    Down {
        ack: bool,
        /// The frame version, 0 or 1.
        version: u8,
        seq: u8,
        pan: u16,
        /// The target.
        to: Eui,
        /// The sender's short address.
        from: Short,
    },
}
