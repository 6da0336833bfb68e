//! Path requests: an ask goes hop by hop to its target and notes the nodes that it comes by, and a tell carries their walk back
//! the same way. The body of the command 05 is this network's own; `docs/FORMATS.md` has the table.
//!
//! - [`read_path`] and [`write_path`] read and append a [`PathMessage`]: an ask with its target and its walk so far, or a tell with a walk.
//! - [`take_path`] says what a node does with one that its neighbour sent it ([`PathStep`]): forward it, answer it, or be done with a walk.
//! - [`Walk`] is a list of at most 16 addresses.
//!
//! What its calls promise, by the names of their clauses:
//!
//! - What is read is what the octets spell, and each message is appended by its one spelling (`found`, `value`, `spelled`, `one_spelling`).
//! - Each message goes the way that its rule says, `taken` of `specs/PathSteps.antt`, or is refused for the first reason (`step`, [`PathRefusal`]);
//!   what goes on is a path message again (`message`).
//!
//! An ask takes 4 octets and two for each address, a tell 2 and two for each: 34 at most. No memory is taken, and there is no `unsafe`. It holds
//! nothing: an answer that does not come is the caller's to miss. The next hop is the caller's too, by its valid route (`routing_set`). A walk
//! is what the nodes on the way say of themselves; that each of its steps was taken is a law of whole lines (`line_laws`).
#![tactic(auto)]

pub mod laws;
mod message;
mod reading;
mod step;
mod taking;
mod walk;
mod writing;

pub use message::PathMessage;
pub use reading::read_path;
pub use step::{PathRefusal, PathStep};
pub use taking::take_path;
pub use walk::Walk;
pub use writing::write_path;
