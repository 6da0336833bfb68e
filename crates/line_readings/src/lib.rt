//! The readings of a run: which were due at which meter, which came, when and at which try, and why the others did not come.
//!
//! A script says by remarks (`#@ ..`) what its events can't: that a reading was tried, that a meter had no power, why a frame was lost, how a
//! meter is called. A [`Journal`] takes the lines and the events of a script in their order. Whether a reading came is never a remark's
//! word: it came where the run handed up the datagram of one of its tries, as the stories of the run say (`line_record`).
//!
//! ```text
//! journal.take_line(alloc, line)?;                     // of each line without an event
//! journal.take_event(alloc, &event, clock)?;           // of each event that was taken
//! let run = Run { events, stories, owners, ends, flights, courses };
//! let meters = meters_of(alloc, &journal.spares, nodes)?;
//! let readings = readings_of(alloc, &journal, &run, &meters)?;
//! let table = meter_table(alloc, &journal, &run, &readings, &meters)?;
//! ```
#![tactic(auto)]

mod cause;
mod counts;
mod csv;
mod headline;
mod journal;
mod links;
mod meters;
mod reading;
mod remark;
mod run;
mod spare;
mod tally;

pub use cause::{Cause, Reason, cause_of};
pub use counts::{Counts, counts_of, is_spare, meters_of};
pub use csv::Cell;
pub use headline::headline_of;
pub use journal::{Journal, Name, Note};
pub use links::{LINKS_HEAD, link_table};
pub use meters::{METERS_HEAD, meter_table};
pub use reading::{Came, Reading, readings_of};
pub use remark::{Remark, Said, Why, name_in, read_remark};
pub use run::Run;
pub use spare::spare_in;
