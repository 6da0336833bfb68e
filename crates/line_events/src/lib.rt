//! The events of a line, as values: what a line of a script asks for, how it ended, and what the report says of it.
//!
//! An `Event` has the fields of its line in their order, and `specs/Events.antt` says in which ranges a line can have them. `Happenings`
//! are what an event that was taken gives: its answer, what was handed up, granted, joined or shown, and how many flights are new. A
//! `StepFault` says why one was not taken.
//!
//! What an event does to the nodes is no matter of this crate: `line_rules` defines it. So what reads scripts, writes reports or shows a
//! run needs no rules of the line.
#![tactic(auto)]

mod event;
mod happenings;

pub use event::{Answer, Event, MAX_EVENTS, StepFault};
pub use happenings::{Admission, AgentLine, BroadcastUp, Handed, Happenings, PathLine};
