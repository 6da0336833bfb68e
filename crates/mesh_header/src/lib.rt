//! Units: what the payload of a MAC frame is. A whole datagram, a piece of one or a command stands after a mesh header that
//! says from where and to where it goes; a command may also stand alone, for the neighbour that hears it.
//!
//! Mesh headers are those of RFC 4944, 5.2, with short addresses; pieces are its fragments, 5.3; `docs/FORMATS.md` has the tables.
//!
//! - [`read_unit`] reads a payload as a [`Unit`], whose octets stay where they are.
//! - [`write_unit`] writes one into a buffer, and [`append_unit`] after what stands there.
//! - [`Piece`] keeps the rule of pieces by itself: `new` is None for parts that break it.
//!
//! What its calls promise, by the names of their clauses:
//!
//! - What is read is the unit that the octets spell, all of them, and no other one (`found`, `only`, `value`); octets that spell none have the
//!   first fault from the left, with its place (`exact`, [`UnitFault`]).
//! - Each unit has one spelling, and that is written (`spelled`, `one_spelling`, `one_value`); reading it gives it back (`laws::units_are_read`,
//!   `laws::read_units_are_spelled`).
//! - A mesh header with one hop less is no longer (`laws::one_hop_less_is_no_longer`), so what came in a frame goes on in one.
//!
//! A whole datagram has at most [`LONGEST_WHOLE`] octets, 375; a longer one goes in pieces (`fragment_buffers`). No memory is taken, and there
//! is no `unsafe`. A writer asks for a unit that may be said (`allowed`) and for room (`room`).
#![tactic(auto)]

mod fault;
pub mod laws;
mod loads;
mod meshes;
mod piece;
mod reading;
mod unit;
mod writing;

pub use fault::{UnitFault, UnitFaultKind};
pub use piece::Piece;
pub use reading::read_unit;
pub use unit::{LONGEST_WHOLE, Mesh, Unit};
pub use writing::{append_unit, write_unit};
