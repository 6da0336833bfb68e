//! The coordinator of a mesh: it lets meters in, answers their messages, and hands out the group keys.
//!
//! [`Coordinator`] is a station (`plc_station`) with the address 0000 and, beside it, the book of its meters, random values and
//! at most 8 sessions of EAP-PSK. Its calls, in the order in which firmware meets them:
//!
//! - `open` reads the store through a `Keeper`; where that holds no ring, it stores one with the address 0000 and the key that
//!   is given. `give_random` takes in a random value, of which each session that is opened takes one; 8 are held.
//! - `allow` lets a meter join with its pair key, and answers its address; `depot` joins one in the workshop, and answers its
//!   grant.
//! - `receive` takes each frame that comes: its station accepts it, and `hear` answers a meter's joining message, and hands on
//!   what the station makes of all else (`CoordinatorHeard`). `station` lends the station, whose calls `send` and its like are.
//! - `challenge` opens a session with a meter that is reached over the mesh. `rekey` keeps a key for the grants from then on,
//!   `activate` orders a meter to seal with it, and `activate_self` does so at the coordinator. `kick` shuts a meter out.
//! - `tick` ends what is old, sessions after `SESSION_TIME`; `next_end` says when there is something to end. `eui`, `address`,
//!   `address_of`, `has_session` and `sessions` look at it; `restart` forgets all but the store, and ends a halt; `into_keeper` gives the store back.
//!
//! What its calls promise, by the names of their clauses:
//!
//! - Each call is its rule of `node_rules` carried out over all that the coordinator holds, whichever write fails (`carries`;
//!   `state` of `tick`, `answer` and `memory` of `restart`). A refusal comes for the first reason that the rule names, and but
//!   for Store nothing has changed then. Where `restart` answers BadStore, it has forgotten all but the store, and the
//!   coordinator is halted.
//! - What it holds as stored is what its store gives, and its address is 0000: `open` begins so where its ring, if
//!   there is one, has that address; each call asks for it and keeps it (`holds`, in `hear` a part of `ready`). Also where a write of `rekey` or
//!   `activate_self` fails, the store keeps a ring of the address 0000 (`home`).
//! - `open` gives exactly what the store says, or the first fault (`opened`, `running`, `refused`).
//!
//! It takes memory in `open` alone, and has no `unsafe`. It reads no clock and draws no random value, and sends nothing by
//! itself: what goes out is in the `Out` that the caller lends. After a write that failed it is halted until `restart`. What is
//! done at the lent station can end `holds`: to `install` a grant of another address there, to `leave`, or to put through its
//! keeper.
//!
//! For example, a meter joins over the air: its request is accepted by the station and heard, and the challenge is in `out`
//! (`Challenged`); its answer is heard, and its grant is noted in the book and goes out (`Keyed`); its last packet is heard,
//! and the session has ended (`Done`), with the random values that both ends hold. A meter that is not allowed is `Declined`.
#![tactic(auto)]

mod challenging;
mod coordinator;
mod enrolling;
mod entries;
mod hearing;
mod joining_replies;
mod joining_requests;
mod keys;
mod kicking;
mod mesh_commands;
mod opening;
mod orders;
mod packets;
mod receiving;
mod sessions;

pub use coordinator::Coordinator;
