//! The script and the report of a line of nodes: what each line of a script says, and the text of each line of a report.
//!
//! - [`read_line`] reads a line, without its line feed, into an event (`line_events`), or says that it is empty or bad ([`Reading`]).
//! - [`push_happened`] appends the lines of an event, `push_node` those of a node that is shown, [`push_fly`] that of a flight; [`bad_text`] and
//!   [`end_text`] give the last line ([`Reason`], [`Totals`]).
//! - [`EventKind`] has the 28 first words; [`short_word`], [`hex_octets`] and [`number_within`] are for who reads or writes words beside.
//!
//! What its calls promise, most of them in one clause without a name:
//!
//! - A line is read exactly where it is in the language, as the event that `specs/LineReader.antt` says (`value`), whose fields are in their
//!   ranges (`in_range`).
//! - Each event in its ranges has a line, which is read back as it ([`lines_are_read_back`]).
//! - Each text is that of `specs/Texts.antt`, appended to what was there; AllocError comes only where there is no memory.
//!
//! Texts take memory by the allocator that is passed; reading takes none, and octets are decoded into a buffer of [`LINE_OCTETS`] that the caller
//! lends. `unsafe` stands in `digits.rt` alone, where digits become text. It knows no world: whether a node or a flight that a line names is
//! there is not its question. A line of a script is ASCII: `docs/SCRIPT-AND-REPORT.md` has the language.
#![tactic(auto)]

mod answer;
mod digit_values;
mod digits;
mod event_line;
mod kind;
mod laws;
mod node_report;
mod reading;
mod report;
mod word;

pub use answer::{answer_word, spaced_verdict};
pub use event_line::push_line;
pub use kind::EventKind;
pub use laws::lines_are_read_back;
pub use node_report::short_word;
pub use reading::{Reading, read_line};
pub use report::{Reason, Totals, bad_text, end_text, push_fly, push_happened};
pub use word::{LINE_OCTETS, hex_octets, keeps_new, number_within};
