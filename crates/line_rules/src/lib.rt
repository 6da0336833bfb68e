//! The line, as definitions: what each event of a script does to the nodes and to what flies between them, and what a run is.
//!
//! The definitions stand in `specs/`, over the events, answers and happenings of `line_events`; here are the laws of one step. There is
//! no other machine: the code of the line is proved against this one.
#![tactic(auto)]

mod laws;

pub use laws::{
    histories_go_on, it_starts_with_nothing_further, line_steps_go_on, logs_are_kept, steps_go_on,
};
