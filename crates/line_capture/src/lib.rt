//! A run as a capture that Wireshark opens: each node an interface, each frame that flew a packet, with what became of it as comments.
//!
//! ```text
//! let file = capture_file(alloc, false, &recording, "")?; // the octets of a file in the form pcapng
//! let keys = keys_text(alloc, &drawn)?; // the keys, as Wireshark reads them
//! let addresses = addresses_text(alloc, &recording)?; // and the addresses
//! ```
//!
//! A capture is a list of the blocks of `pcapng`, a function of what was recorded of the run (`specs/Captures.antt`). `capture_file` writes it, and the
//! reader of `pcapng` reads it back. The times of its packets rise, and its packets are the flights, each at its sender (`laws`).
#![tactic(auto)]

mod comments;
mod fate;
mod file;
mod keys;
pub mod laws;
mod notes;
mod packets;
mod place;
mod recording;
mod senders;

pub use fate::{Arrival, Fate, fates_of};
pub use file::capture_file;
pub use keys::{DrawnKeys, keys_text};
pub use place::Place;
pub use recording::Recording;
pub use senders::{ADDRESSES, addresses_text, frame_sender};
