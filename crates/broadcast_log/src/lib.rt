//! Broadcast datagrams: the body of the command that carries one, and what a node keeps so that it hands each of them up at
//! most once, also over restarts and losses of power. `docs/FORMATS.md` has the table of octets.
//!
//! - [`BroadcastLog`] is over a store: `open` reads it, `next` gives the number of a node's own broadcast, and `admit` is called for each one
//!   that comes; `room` says beforehand what `admit` would refuse. `number_left`, `mark` and `origins` look at it. It lies at slot 6
//!   and at the slots 0300 to 031F.
//! - [`read_broadcast`] and [`write_broadcast`] read and write the body of a command 04 ([`Broadcast`]).
//!
//! What its calls promise, by the names of their clauses:
//!
//! - An origin and number is admitted at most once, and a number given out at most once, over any calls, failed puts and new starts (`fresh`;
//!   `laws::each_is_admitted_once`, `laws::each_is_given_once`).
//! - The answer is the first refusal, and after one nothing has changed (`answer`, `log`). A number or a mark is stored before it is used.
//! - After `open` and after each put the log agrees with the store, with the values before or after a put that failed (`kept`, `either`).
//! - What is read is what the octets spell, each broadcast by one spelling (`found`, `only`, `one_spelling`).
//!
//! What is stored is ahead, so most calls put nothing: after a new start the next number is up to 32 higher, and numbers of an origin that are up
//! to 63 ahead are refused. It holds 32 origins and forgets none. A log takes its memory when it is made, and none after that. There is no
//! `unsafe`. After `Store` the log is to be opened again. Who may send a broadcast is not its question: a frame is opened and its counter marked before.
#![tactic(auto)]

mod broadcast;
mod fault;
pub mod laws;
mod log;
mod reading;
mod writing;

pub use broadcast::{Broadcast, BroadcastBuf};
pub use fault::LogFault;
pub use log::{BROADCASTS_AHEAD, BroadcastLog, OriginMark};
pub use reading::read_broadcast;
pub use writing::write_broadcast;
