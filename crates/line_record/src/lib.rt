//! The record of a run as a value, and what is read off it: which of its events belong together, what became of each flight, how each story
//! ended, and what nodes were over time.
//!
//! **The record**: which line asked for which event, how the event ended, and whom each flight is for and what it is about. It keeps no octets of
//! datagrams, frames and keys: an event takes some 60 octets, a flight some 40. Who runs a script pushes each event that was taken, and then its
//! new flights, so events and flights have their numbers by their places, counted from 1.
//!
//! ```text
//! let mut run_record = RunRecord::new(alloc);
//! let happened = world.step(&event, &mut space)?;
//! record.push_event(line, &event, &happened, clock, 0)?;
//! for each new flight {
//!     run_record.push_flight(sender, note, octets, Some(payload), None)?;
//! }
//! ```
//!
//! `specs/Acts.antt` says what is kept of an event, `specs/RunRecords.antt` what a record is.
//!
//! **Stories**: what became of each thing that somebody asked of a line. A story is a datagram on its way, a joining, a renewal of keys, an order,
//! octets that no node sent, a broadcast, a path request, the setup, or what happens on the line by itself. Each event and each flight has one
//! that owns it. While the stories are found, what became of each flight at the node that it is for is found too: it went on, or was refused,
//! lost or missed.
//!
//! ```text
//! let run_stories = stories_of(alloc, &run_record)?;
//! let ends = ends_of(alloc, run_stories.stories.len(), &run_stories.courses)?;
//! for (story, ends) in run_stories.stories.iter().zip(&ends) {
//!     match verdict_of(story, ends, run_record.event(story.first)?) {
//!         Verdict::Reached { event } => .. // it came, or is done, at this event
//!         ..
//!     }
//! }
//! ```
//!
//! `specs/Kinds.antt` says what events and answers are to a story, `specs/Marks.antt` what becomes of a story and a flight at an event,
//! `specs/Stories.antt` which story owns which event and which flight, and `specs/Verdicts.antt` what became of each story.
//!
//! **Pasts**: whether a node was joined, with which key it sealed, and when that changed; and which way its frames to the coordinator went at the
//! end.
//!
//! ```text
//! pasts.push_node()?;
//! pasts.look(0, 5, &shown)?;
//! for change in pasts.changes(0) { .. }
//! ```
//!
//! `specs/Pasts.antt` says what a node is by what it shows, which way it shows to the coordinator, and what is kept of that.
#![tactic(auto)]

mod act;
mod counters;
mod course;
mod ends;
mod keeping;
mod kept;
mod kind;
pub mod laws;
mod mode;
mod past;
mod place;
mod readiness;
mod recorded;
mod run_record;
mod run_stories;
mod story;
mod verdict;

pub use act::{Act, act_of, flight_come};
pub use counters::Counters;
pub use course::{Course, Fate, change_courses};
pub use ends::{Ends, ends_of, first_nonzero, went_on};
pub use kept::{
    Kept, KeptEnd, end_of, ended_so, is_kept_of, is_message, is_still, makes_message, may_end,
};
pub use kind::{
    StoryKind, actor_of, begins, goes_on_with, is_for_another, is_line, is_piece_held, is_refused,
    is_setup, is_setup_kind, joins, keeps_joinings, makes_node, person_of, prepares, sends,
    takes_counter,
};
pub use mode::{Mode, is_same, mode_of};
pub use past::{Change, Pasts};
pub use recorded::{RecordedEvent, RecordedFlight, made_by, recorded_event, recorded_flight};
pub use run_record::RunRecord;
pub use run_stories::{RunStories, push_home, stories_of};
pub use story::{Story, came, left, marked, new_story, with_kept};
pub use verdict::{Verdict, is_good, verdict_of};
