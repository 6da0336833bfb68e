//! Capture files in the form pcapng, as Wireshark and tcpdump read them: one section, little-endian, with a block for each
//! interface and each packet.
//!
//! The format is that of draft-ietf-opsawg-pcapng, sections 3 and 4. `specs/Blocks.antt` says which octets spell which block, and
//! `specs/Reader.antt` has a reader; what is spelled is read back.
#![tactic(auto)]

mod blocks;
pub mod laws;
mod numbers;
mod options;

pub use blocks::{Packet, append_interface, append_packet, append_section};
pub use options::{Direction, Options};
