//! EAP-PSK (RFC 4764), both ends: four messages by which a joining node and the coordinator show one another that they hold the
//! same pair key, and by which the coordinator gives the node its grant in a protected channel.
//!
//! - [`PskKeys`] are the two keys of a pair key: `of`.
//! - [`Server`] is the coordinator's end: `first` writes the first message, `take_second` takes the answer and writes the third with the grant,
//!   `take_fourth` ends it with the random values that both hold ([`Agreed`]).
//! - [`Peer`] is the node's end: `answer_first` takes the first message and writes the second, `take_third` takes the third, answers
//!   the grant, and writes the fourth.
//!
//! Both are values: a call reads one packet, writes the next into a buffer that the caller lends, and gives the next value; the old one stays as it
//! was.
//!
//! What its calls promise, by the names of their clauses:
//!
//! - A fault of a packet is the first one in the order of [`EapFault`], and after it what the call writes is empty (`exact`, `refused`).
//! - What is taken is a message of the session, and what is written is that of `specs/Messages.antt` (`read`, `written`).
//! - The grant that a peer takes is the one that its message spells (`grant`), and each end names the tags that it made and checked (`tags`).
//! - What one end makes the other takes (`laws::first_is_taken` to `laws::fourth_is_taken`).
//!
//! No memory is taken, and there is no `unsafe`. Random values are the caller's, 16 octets each, and a value that comes again weakens a session
//! as RFC 4764 says. Nothing is said of whether a tag can be guessed; that equal tags are of one session and one grant is a law over the ciphers
//! as they are (`laws::granting_tags_agree`, `laws::success_tags_agree`). It has no timer: who drops a session is the caller's question.
#![tactic(auto)]

mod channel;
mod fault;
mod keys;
pub mod laws;
mod peer;
mod reading;
mod server;
mod writing;

pub use fault::EapFault;
pub use keys::PskKeys;
pub use peer::Peer;
pub use server::{Agreed, Server};
