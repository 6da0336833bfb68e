//! A meter: a station that joins a network, carries the joining messages of its neighbours, and leaves.
//!
//! [`Meter`] is a station (`plc_station`) and, beside it, its pair key, at most 8 random values and one session of EAP-PSK. Its calls, in
//! the order in which firmware meets them:
//!
//! - `open` reads the store through a `Keeper`, with the EUI-64 and the pair key that the caller gives. `give_random` takes in a random
//!   value, of which each session takes one. `provision` installs a grant in the workshop, without a joining.
//! - `join` opens a session and sends JOIN to an agent: the coordinator, or a joined neighbour.
//! - `receive` takes each frame that comes: its station accepts it, and `hear` takes a joining message or carries it on, and hands on
//!   what the station makes of all else (`MeterHeard`). `station` lends the station, whose calls `send` and its like are.
//! - `tick` ends what is old at a time in seconds, a session after `SESSION_TIME`; `next_end` says when there is something to end. `leave`
//!   drops the ring; `restart` forgets all but the store, and ends a halt; `into_keeper` gives the store back.
//!
//! What its calls promise, by the names of their clauses:
//!
//! - Each call is its rule of `node_rules` carried out, whichever write to the store fails (`carries`; `state` of `tick`, `answer` and
//!   `memory` of `restart`). A refusal comes for the first reason that the rule names, and but for Store nothing has changed then.
//! - What it holds as stored is what its store gives; `open` begins so, and each call asks for it
//!   (`ready`, `agrees`) and keeps it, with the pair key (`after`; `agrees` and `psk` of `restart`).
//! - `open` gives exactly what the store says, or its first fault (`opened`, `running`, `refused`).
//!
//! It takes memory in `open` alone, and has no `unsafe`. It reads no clock and draws no random value, and sends nothing by itself: what
//! goes out is in the `Out` that the caller lends. After a write that failed it is halted until `restart`. It does not choose its agent,
//! and does not ask again where no answer comes: both are its caller's.
//!
//! For example, `join` puts JOIN into `out`; the challenge is accepted by the station and heard, and the answer is in `out`
//! (`MeterHeard::Replied`); the grant is heard and installed (`MeterHeard::Took`). `docs/CRATES.md` has the code.
//!
//! A joined meter is an agent too (ITU-T G.9903, joining through an agent): it carries JOIN of its neighbours up to the coordinator, and
//! CHALLENGE, ACCEPT and DECLINE down to them. It keeps nothing of the joinings that it carries, and checks no tag of them.
#![tactic(auto)]

mod challenges;
mod commanding;
mod hearing;
mod joining;
mod laws;
mod meter;
mod packets;
mod pair_key;
mod receiving;
mod relaying;
mod session;

pub use laws::accepted_frames_came;
pub use meter::Meter;
