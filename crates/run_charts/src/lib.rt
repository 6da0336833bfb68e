//! Charts of a run. Sequence charts: a column for each node that takes part, an arrow for each frame that came, and beside them the sentences.
//! Lanes: each node over the whole run, coloured by what it was, with a mark for each two pixels, the worst that happened there.
//!
//! ```text
//! let run = ChartRun { alloc, run_record: &run_record, courses: &courses, sentences: &sentences, notes: &[], pasts: &pasts };
//! push_chart(&mut out, &run, &[8, 9, 10])?;
//! push_lanes(&mut out, &run)?;
//! ```
//!
//! `specs/Rows.antt` says which events make a row, `specs/Columns.antt` which nodes have a column, `specs/Drawings.antt` what is drawn of each row,
//! and `specs/Charts.antt` has the whole chart.
#![tactic(auto)]

mod cells;
mod chart;
mod columns;
mod doing;
mod drawing;
mod lanes;
mod life;
mod outcome;
mod row;
mod run;
mod saying;

pub use chart::push_chart;
pub use lanes::push_lanes;
pub use outcome::{Outcome, outcome_of};
pub use run::{ChartRun, is_missed};
