//! Scripts line by line, through a window, over any machine that takes lines.
//!
//! [`run`] takes octets from a `Source` (`plc_base`), cuts them into lines, hands each to a [`LineMachine`], and ends at the first line that
//! the machine refuses, at a fault of the source or the sink, or at the end. A line has at most 4,096 octets; the window holds 8,192.
//!
//! The text that it writes is that of the machine's turns, for every way in which the source cuts its octets (`run`). It takes memory for
//! the window alone, and reads no line before the text of the line before it was written. What a line means is the machine's.
#![tactic(auto)]

mod input;
mod laws;
mod machine;
mod text_output;
mod window;

pub use input::{LineKind, MAX_INPUT};
pub use laws::lines_of_a_script;
pub use machine::{Exit, LineMachine, a_run_may_end_without_memory, run};
pub use text_output::{StopReason, stop, write_made, write_text};
pub use window::{MAX_LINE, WINDOW};
