//! Discovery messages.
use plc_base::Short;

/// What a node asks and answers to find a network: a beacon request (IEEE 802.15.4-2006, 7.3.7) or a beacon (7.2.2.1).
#[derive(Clone, Copy, Debug, PartialEq, Eq)]
pub enum Discovery {
    /// Asks every node within reach for its beacon.
    Request {
        /// The sequence number. Nodes write 00.
        seq: u8,
    },
    /// Says that a node is there.
    Beacon {
        /// The sequence number. Nodes write 00.
        seq: u8,
        /// The identifier of the sender's network.
        pan: u16,
        /// The sender: the coordinator exactly where it is 0000.
        from: Short,
        /// What the sender's way to the coordinator costs.
        cost: u16,
    },
}
