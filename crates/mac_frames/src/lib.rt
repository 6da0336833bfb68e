//! MAC frames: the header of IEEE 802.15.4-2006 in the three forms that the network uses, and the sealing of frames with CCM*.
//! `docs/FORMATS.md` has the table.
//!
//! - [`read_frame`] reads octets as a frame: a [`MacHead`] (`Sealed`, `Up` or `Down`) and a body, over the octets ([`RawFrame`]).
//! - [`open_frame`] opens a sealed one under a key, by its schedule, into a buffer that the caller lends; [`decrypt_payload`] does so without a look at
//!   the tag, for whoever knows that the frame was sealed under that key.
//! - [`seal_frame`] writes the frame of a head and a payload; [`write_header`] and then [`seal_written`] do so without copying the payload.
//!   [`plain_frame`] writes one that is not sealed, as between a node that joins and its agent.
//!
//! What its calls promise, by the names of their clauses:
//!
//! - What is read is the frame that the octets are, and no other one (`found`, `only`, `one_value`); what is none has the first fault
//!   (`exact`, [`FrameFault`]).
//! - `open_frame` is Ok exactly under the tag of the definition, and gives the payload that was sealed (`tag`, `opened`, `only`); after BadTag
//!   `out` is empty (`bad_tag`).
//! - What is sealed is the sealed frame of the definition, of which there is one (`frame`, `one_spelling`), and it opens again
//!   (`laws::seal_and_open`).
//!
//! A frame has at most 400 octets, a sealed payload 381 at most, a tag 4 octets: a guess succeeds once in 2^32. No memory is taken, and there is no
//! `unsafe`. The nonce is made of the PAN, the sender and the counter, so it is the caller that gives no counter twice under a key
//! (`frame_counters`). It makes a key schedule nowhere: one `Aes` serves many frames.
#![tactic(auto)]

mod control;
mod fault;
mod head;
pub mod laws;
mod reading;
mod sealing;
mod writing;

pub use fault::{FrameFault, FrameFaultKind};
pub use head::MacHead;
pub use reading::{RawFrame, read_frame};
pub use sealing::{decrypt_payload, open_frame, seal_frame, seal_written};
pub use writing::{plain_frame, write_header};
