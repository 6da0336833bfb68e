//! A station: what every node does on the line, whatever its role.
//!
//! It accepts and hears frames, passes units on, finds routes, puts datagrams together from pieces, and sends. A meter
//! (`meter_node`) and the coordinator (`coordinator`) stand on it; so may firmware with a role of its own.
//!
//! [`Station`] is over a `Keeper` (`plc_base`), the store of the node. Its calls, in the order in which firmware meets them:
//!
//! - `open` reads the store. [`OpenFault`] says why it can't, and the keeper comes back. `install` keeps the grant of a
//!   joining: the address and the group keys. `put_key`, `activate` and `leave` change the ring later; `preset_counter`,
//!   `preset_number` and `preset_near` set values in the workshop.
//! - `receive` takes octets that came as a frame, at a time, over a link of a cost, opens them into [`Buffers`] that the caller
//!   lends, and makes of what is inside what the rules say (`Heard`), or says why not (`Unheard`). It is `accept`, which answers
//!   what is inside ([`Accepted`]), and `hear`, which takes that, once: both are there for one who looks at a frame between them.
//! - `send` sends a datagram of up to 1,280 octets, `send_command` a command over the mesh, and `send_local` one to neighbours.
//!   `room` says beforehand what a command would be refused for.
//! - `tick` ends what is old at a time in seconds, and `next_end` says when there is something to end; `broke` ends the routes by a
//!   neighbour that is not reached any more.
//! - `halted`, `shown`, `ring`, `routing`, `valid` and `last_reply` look at it. `restart` forgets all but the store, and ends a
//!   halt.
//!
//! What goes out is in an `Out` that the caller lends, and replaces what that held; `send_local` adds to it.
//!
//! What its calls promise, by the names of their clauses:
//!
//! - Each call is its rule of `node_rules` carried out, whichever write to the store fails (`carries`; `state` of `tick` and
//!   `restart`, `ended` of `broke`, `room`, `shown`). A refusal comes for the first reason that the rule names.
//! - What it holds as stored is what its store gives: `open` begins so, and each call
//!   asks for it (`ready`, `agrees`) and keeps it (`after`; `agrees` of `hear`, `tick`, `broke` and `restart`); what is put through `keeper_mut` may end
//!   it. A halted station answers Halted and changes nothing (`halted`).
//! - `open` gives exactly what the store says, or its first fault (`opened`, `running`, `refused`).
//!
//! It takes memory in `open` alone, and has no `unsafe`; the pool of blocks below it is the one crate with pointers. It reads
//! no clock and draws no random value: times are the caller's, in seconds. It sends nothing by itself. After a write that
//! failed it is halted, with nothing sent, until `restart` has read the store again. `hear`, `install` and their like ask for a
//! station that is not halted (`ready`), which `halted` answers.
//!
//! For example, a node that is installed and gets a frame: `receive` refuses it as Replayed, or answers
//! `Heard::Up` with the datagram for this node, or `Heard::Relayed` with the frame for the next hop in `out`.
//! `docs/CRATES.md` has the code.
#![tactic(auto)]

mod accepted;
mod commands;
mod expiry;
mod frames;
mod hearing;
mod loads;
mod mesh;
mod neighbours;
mod next_steps;
mod offers;
mod own_replies;
mod parts;
mod pieces;
mod presets;
mod receiving;
mod relays;
mod replies;
mod ring_changes;
mod route_errors;
mod route_requests;
mod sealing;
mod sending;
mod showing;
mod station;
mod unopened;

pub use accepted::Accepted;
pub use receiving::Buffers;
pub use station::{OpenFault, Station};
