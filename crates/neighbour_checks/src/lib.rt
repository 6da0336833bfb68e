//! Checks of neighbours, after the RREP_ACK of draft-clausen-lln-loadng: a neighbour that does not acknowledge a route reply
//! within [`CHECK_TIME`] is listed for [`LISTED_TIME`], and its route requests are not believed. The layout of octets and the
//! times are this network's own.
//!
//! - [`Checks`]: `reply_sent` for each route reply that goes out, `acked` for each acknowledgement that comes, `tick` at a time in seconds. `listed`
//!   says whether a neighbour's route requests are believed; `clear` forgets all, as a restart does.
//! - [`read_ack`] and [`write_ack`] read and write the body of a command 03: the number and the origin of the reply.
//!
//! What its calls promise, by the names of their clauses:
//!
//! - What is open and listed is what the history of replies, acknowledgements and ticks says (`history`), step by step by the definition
//!   (`value`).
//! - [`NotAwaited`] comes exactly where no open check has the neighbour, the number and the origin, and changes nothing (`answer`, `same`).
//! - At most 64 neighbours are open or listed, none of them twice (`laws::at_most_64`).
//! - What is read is what the octets spell, each acknowledgement by one spelling (`found`, `only`, `one_spelling`).
//!
//! A neighbour that has an open check or is listed gets no second one, and where 64 are there a reply begins none. No memory is taken, and there is
//! no `unsafe`. Nothing is stored: after a restart none is listed. Times are the caller's, in seconds.
#![tactic(auto)]

mod acks;
mod checks;
pub mod laws;
mod tables;

pub use acks::{read_ack, write_ack};
pub use checks::{Checks, NotAwaited};
pub use tables::{CHECK_TIME, LISTED_TIME, ListedNeighbour, OpenCheck};
