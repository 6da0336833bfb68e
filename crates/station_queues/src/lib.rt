//! What a station keeps for later, in the blocks of one pool: the datagrams that it gathers from pieces, and the bodies that wait for
//! a route; and the sealing of the units that leave.
//!
//! - [`Bodies`]: `new` takes its memory. `gather` takes a piece in. `no_room` says whether a body can wait, `push` lets one wait, `is_awaited` and
//!   `count` look; when a route is there `units_for` says how many units they are, `seal_leaving` seals them for a next hop, and
//!   `drop_for` ends their waiting. `expire` drops what is old at a time in seconds, `clear` all.
//! - [`seal`] seals a unit under a key and appends its frame, [`seal_load`] the units of a datagram or a command that goes at once;
//!   [`own_mesh`] is the mesh header of what a node sends itself.
//!
//! What its calls promise, most of them in one clause without a name:
//!
//! - What is gathered and what waits are two lists with their octets, `gathered` and `waiting` of `specs/Bodies.antt`, and each call says what
//!   becomes of both (`answer`, `datagram`, `held` of `gather`).
//! - Bodies leave in the order of their arrival, as the frames of `leaving` (`fragment_buffers`), with counters from a given one on.
//! - The two keep apart in the pool: 8 reassemblies in 80 blocks, 8 bodies in 80 blocks (`sized` of `count`).
//!
//! All memory is taken by `new`: 160 blocks of 64 octets. There is no `unsafe`; the pool below is the crate with pointers. A body waits for
//! `WAITING_TIME` and a reassembly for `REASSEMBLY_TIME` (`fragment_buffers`). Calls that seal ask for counters that are left (`left`) and for
//! room in the list of frames (`room`); a command has at most [`LONGEST_COMMAND`] octets. Which counter is next and whether there is a route is
//! the station's question (`plc_station`).
#![tactic(auto)]

mod bodies;
mod sealing;

pub use bodies::{Bodies, BodyBuffer, LONGEST_COMMAND, Waiting};
pub use sealing::{own_mesh, seal, seal_load};
