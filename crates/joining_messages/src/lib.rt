//! Joining messages, which a node that joins and the coordinator exchange (after ITU-T G.9903), and the parameter list by
//! which a grant is carried in the protected channel of EAP-PSK. Layout and codes are this network's own; `docs/FORMATS.md` has
//! the tables.
//!
//! - [`read_join`] reads a message out of the body of a command 02, and [`write_join`] appends one: [`JoinMessage`] has the EUI-64 of the node
//!   that joins, and one of the bodies of [`JoinBody`].
//! - [`read_grant`] and [`write_grant`] read and append a grant, 26 octets with one key and 45 with two.
//!
//! What its calls promise, by the names of their clauses:
//!
//! - What is read is what the octets spell, all of them, and no other value (`found`, `only`, `exact`); octets that spell none have the first
//!   fault from the left, with its place ([`JoinFault`]).
//! - Each value has one spelling, and that is appended (`spelled`, `one_spelling`, `one_value`); reading it gives it back (`laws::joins_are_read`,
//!   `laws::grants_are_read`).
//! - What is read is in its ranges, also out of numbers that are no octets (`laws::read_joins_fit`).
//!
//! Nothing is copied but the fields, no memory is taken, and there is no `unsafe`. A writer asks for room in its buffer (`room`), and for a
//! message that may be said: a challenge has a packet, and an index is 0 or 1 (`allowed`). What a packet inside says is for `eap_psk`.
#![tactic(auto)]

mod fault;
mod granting;
pub mod laws;
mod message;
mod reading;
mod writing;

pub use fault::{JoinFault, JoinFaultKind};
pub use granting::{read_grant, write_grant};
pub use message::{JoinBody, JoinMessage};
pub use reading::read_join;
pub use writing::write_join;
