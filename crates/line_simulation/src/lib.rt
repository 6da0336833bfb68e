//! A line that is simulated: the air, the owner and what is due, around a line that takes events.
//!
//! [`Simulation::new`] makes one of a description (`line_plan`), [`Simulation::run_whole`] runs it to the end of its time. Which events happen is decided here,
//! by the models of `line_air` and `line_owner` and the draws of the seed; what they do to the nodes is not: they go to a [`Recording`], which steps the line
//! and answers what each brought ([`Facts`]). So whatever a recording promises of its line holds of every simulation over it.
//!
//! One moment of the calendar is carried out after the other. What a moment leads to at once is a stack of [`PendingWork`]: whatever an act brings is done
//! before the act that follows it. At most 20,000,000 moments are carried out, and at most as much work for each: a run ends whatever the description says.
#![tactic(auto)]

mod arrivals;
mod attacks;
mod backlog;
mod book;
mod bringing;
mod events;
mod facts;
mod incidents;
mod recording;
mod remarks;
mod simulation;
mod start;
mod steps;
mod turns;
mod whole;
mod work;

pub use arrivals::Brought;
pub use backlog::Backlog;
pub use book::{Book, Outline};
pub use facts::{Came, Facts, Granted};
pub use incidents::Found;
pub use recording::{Counted, RecordFault, Recording};
pub use remarks::Remark;
pub use simulation::{Flown, Kept, Simulation};
pub use start::{Made, has_attackers, place_of};
pub use work::{Job, PendingWork, Stop};
