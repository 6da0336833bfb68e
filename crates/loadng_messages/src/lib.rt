//! LOADng route messages, after draft-clausen-lln-loadng: a route request, a route reply and a route error, as the body of a
//! command alone. The layout of octets is this network's own; `docs/FORMATS.md` has the table.
//!
//! - [`read_message`] reads a [`Message`] out of the body of a command 01.
//! - [`write_message`] appends one to any buffer of octets; [`MessageBuf`] has room for each of them.
//!
//! What its calls promise, by the names of their clauses:
//!
//! - What is read is what the octets spell, all of them, and no other message (`found`, `only`, `exact`); octets that spell none have the first
//!   fault from the left, with its place ([`MessageFault`]).
//! - Each message has one spelling, and that is appended (`spelled`, `one_spelling`, `one_value`); reading it gives it back
//!   (`laws::messages_are_read`, `laws::read_messages_are_spelled`).
//!
//! A message has 9 octets, a route error 5. No memory is taken, and there is no `unsafe`. A writer asks for room (`room`) and for a
//! number that is not 0 (`number`). It says nothing of what a route message does: that is `routing_set`, and `node_rules` above it.
#![tactic(auto)]

mod fault;
pub mod laws;
mod message;
mod reading;
mod writing;

pub use fault::{MessageFault, MessageFaultKind};
pub use message::{Message, MessageBuf};
pub use reading::read_message;
pub use writing::write_message;
