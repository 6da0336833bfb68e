//! What is counted in a simulated run, and its summary as one line of JSON.
//!
//! [`Figures`] is told of frames, joinings, readings and changes of the key as they come, with their times in microseconds, and
//! `summary` writes what it was told. It draws nothing and decides nothing: a run is the same without it.
#![tactic(auto)]

mod changes;
mod figures;
mod frames;
mod joinings;
mod readings;
mod spread;
mod summary;
mod words;

pub use changes::{ChangeFigures, Changes};
pub use figures::Figures;
pub use frames::{FrameFigures, FrameKind, Loss};
pub use joinings::Joinings;
pub use readings::Readings;
pub use summary::{Ending, Line};
pub use words::WordCounts;
