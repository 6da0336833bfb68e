//! The air over a line: which frames come to whom, and when. A model, and no claim about a real line.
//!
//! Frames of a node leave in the order in which it sent them. A node that wants to send waits, senses, and sends or waits again (CSMA). Where
//! frames overlap at a hearer, both are lost there; what is left of a frame is lost by chance, each hearer on its own. A frame to one node is
//! acknowledged, and sent again where no acknowledgement comes. Times are whole microseconds, chances are ten-thousandths.
//!
//! [`Calendar`] has what is due, by time and then by the order in which it was put there. Its owner takes out one [`Due`] after the other:
//!
//! - at [`Moment::Attempt`] it calls [`Air::attempt`]: the first frame of a node goes on the air, or waits longer;
//! - at [`Moment::End`] it calls [`Air::end`], carries out what came, and then calls [`Air::go_on`], which lets the nodes around go on;
//! - [`Moment::Task`] is the owner's own.
//!
//! [`Air::send`] puts a frame at the end of the queue of its sender. `fail` and `restore` are power that fails and comes back, `set_joined` says
//! which nodes frames to all come to, and `add_noise`, `add_cut` and `add_withheld` disturb the line for a time.
//!
//! What its calls promise, by the names of their clauses where they have one:
//!
//! - The calendar is the list of what is due, ordered by time, and at one time by the order of the puts (`specs/Calendars.antt`).
//! - `send`, `attempt` and `go_on` change air and calendar as `specs/Turns.antt` says, `end` as `specs/Ends.antt`: the nodes that a frame came to,
//!   what became of it, queues, draws and counts are functions of what they were before. So a run is a function of its seed and of what is sent.
//! - The times on the air are those of `specs/Airtime.antt` (`airtime`).
//! - Where memory runs out, nothing is said of the air but that its parts are safe to drop.
//!
//! The lengths of symbols, preambles and gaps (`specs/Airtime.antt`) are those that the authors remember of G3-PLC in the CENELEC A band;
//! they were not checked against G.9903. Not modelled: bursts of noise, capture, attenuation, phases, tone maps, the time of computing, queues
//! that are full, clocks that drift.
#![tactic(auto)]

mod air;
mod calendar;
mod chances;
mod disturbances;
mod ending;
mod frame;
mod given_up;
mod node;
mod nodes;
mod settings;
mod spans;
mod times;

pub use air::{Air, Attempt, Ended, Hearing};
pub use calendar::{Calendar, Due, Moment};
pub use chances::End;
pub use disturbances::{CutLink, Disturbances, Noise, Withheld};
pub use frame::{Frame, Target, Waiting};
pub use node::Ear;
pub use nodes::Heard;
pub use settings::{Rate, Settings};
pub use times::{Span, airtime};
