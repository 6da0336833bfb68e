//! The calls of a meter as items of octets, and the answers to them: what a program that holds a meter and its owner say to each other.
//!
//! A call is one item, and its answer several: each record that is to be stored, each frame that is to be sent, that the meter has joined, a
//! datagram that is handed up, and last how the call ended. An item is a kind, a length of two octets, the highest first, and this many octets,
//! at most 2,000, so each is read without knowing its kind. `docs/FORMATS.md` has the table. What its calls promise:
//!
//! - [`read_call`] answers the call that an item spells, by the definition `call_in`, and None exactly where it spells none.
//! - [`write_answer`] writes the puts, in order, then the frames, in order, then that the meter has joined, then what is handed up, then how the
//!   call ended (`answer_text`), or a prefix of that where the sink fails.
//! - [`write_item`] writes the item's spelling, or a prefix of it where the sink fails. What [`read_item`] reads is taken from the source as the
//!   spelling of the item that is answered; each fault says what was taken instead. What is read back is what was written, and octets spell one
//!   item at most ([`items_are_read_back`]).
//!
//! [`OutboxKeeper`] is a [`plc_base::Keeper`] that lists the puts of a call, for whoever stores them after it. A node over it calls no driver: the
//! records are loaded once, before the node is opened, and after each call of the node its owner does three things, in this order:
//!
//! 1. store each put of [`OutboxKeeper::puts`], in order;
//! 2. call [`OutboxKeeper::begin`];
//! 3. send the frames of the call, in order.
//!
//! Where a store fails, or power does, the owner sends nothing, drops the node and opens another one over what was stored. That this is
//! sound is the law `listed_puts_are_deferred` of `node_rules`: the node then behaves as one over the store itself.
//!
//! It is a keeper like any other (`puts`), which lists each put at the end; or the list was full (`room`, `full`), and then no record has
//! changed (`refused`). `load` and `begin` change the records alone and the list alone. The list has room for 5 puts: a call of a node makes at
//! most 4 (`hearing_puts_few` of `node_rules`, and the laws after it), and an `accept` one (`accepting_only_marks`), so a frame may be accepted
//! and heard before the puts of both are stored. A put beyond fails, and halts the node.
//!
//! It takes no memory, and has no `unsafe`.
#![tactic(auto)]

mod answers;
mod calls;
mod fields;
mod items;
mod laws;
mod outbox;
mod status;

pub use answers::{Given, write_answer, write_status};
pub use calls::{Call, read_call};
pub use items::{ItemFault, ItemOctets, MOST_OCTETS, read_item, write_item};
pub use laws::items_are_read_back;
pub use outbox::{ListedPut, MOST_PUTS, OutboxKeeper};
pub use status::Status;
