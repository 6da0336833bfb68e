//! The world: a line of nodes, what flew on it, and the step that an event makes.
//!
//! [`World`] holds the nodes with their stores, the flights, the counts and what stands beside the nodes. `step` takes an event of
//! `line_events` and gives what the report says of it (`Happenings`).
//!
//! The step is that of `line_rules`: its definition there is what the code here is proved against. A fault (`StepFault`) changes nothing.
//! Up to 999 meters and 50,000 events. Memory is taken before an event changes anything, so a lack of it is a fault as well.
#![tactic(auto)]

mod arriving;
mod beside;
mod discovery;
mod further;
mod happening;
mod joining;
mod line;
mod nodes;
mod ordering;
mod sending;
mod setup;
mod time;
mod world;

pub use world::{Buffers, Counts, World};
