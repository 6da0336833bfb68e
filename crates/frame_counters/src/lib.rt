//! The counters of sealed frames: the one of the frames that a node sends, and the marks of those that it received.
//!
//! - [`SendCounter`] gives out each counter once: `take` one, `reserve` up to 1,024 in a row. Its limit lies at slot 2.
//! - [`PeerMarks`] holds for up to 64 senders the greatest counter that was accepted: `room` says beforehand what a counter would be
//!   refused for, `admit` accepts it. They lie at the slots 0100 to 013F.
//!
//! What their calls promise, by the names of their clauses:
//!
//! - A counter that is given out is above all that were given out before, and one that is admitted is above all that were admitted of
//!   its sender, over any of these calls, failed puts and new starts (`fresh`). `preset` and `set_limit` may go back.
//! - Spent comes exactly where no counter is left, Replayed where one is not above the sender's mark, PeersFull for a new sender where 64
//!   are held (`answer`).
//! - `open` gives what the records say; BadStore names one that has no reading (`bad`).
//!
//! What is stored is ahead, so most calls put nothing: after a new start the next counter is up to 1,024 ahead, and up to 63 counters of a
//! sender are refused. No sender is ever forgotten. The marks take their memory when they are opened, and none after that. There is no
//! `unsafe`. After a failed put the value is to be opened again.
//!
//! For example, `let number = counter.take(&mut keeper)?` is for the next frame, and `marks.admit(&mut keeper, from, heard)?` for one that
//! came, once its tag was found right.
#![tactic(auto)]

mod fault;
pub mod laws;
mod peer_marks;
mod send_counter;

pub use fault::{CounterFault, PeerFault};
pub use peer_marks::{PeerMark, PeerMarks};
pub use send_counter::{COUNTERS_AHEAD, SendCounter};
