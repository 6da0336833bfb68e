//! Laws of the language of scripts and of reports, over the definitions of `line_script`: each is the clause of a function that does nothing.
//!
//! Of scripts (`script_laws`):
//!
//! - [`only_lines_are_read`]: a line is read as an event exactly where it is the event's line, but for the case of hexadecimal digits.
//! - [`case_is_not_read`], [`one_line_for_an_event`]: no line is read otherwise for the case of its digits, and two lines that are read as one
//!   event differ in nothing else.
//!
//! They speak of `reading`, which `read_line` answers (its clause `value`), and of `line_of`, which `push_line` writes.
//!
//! Of reports (`laws`):
//!
//! - [`reports_are_lines`], [`lines_are_in_range`]: the texts that a report is made of are those of lines.
//! - [`one_line_for_a_text`], [`one_report_for_a_text`]: no two different lines have the same text, and no two different lists of lines.
//! - [`one_outcome_for_a_report`], [`one_run_for_a_report`]: so an event with another outcome is reported otherwise, and a run that went another way
//!   has another report.
//!
//! They speak of the texts that `push_happened`, `push_fly`, `bad_text` and `end_text` of `line_script` write.
#![tactic(auto)]

mod laws;
mod script_laws;

pub use laws::{
    lines_are_in_range, one_line_for_a_text, one_outcome_for_a_report, one_report_for_a_text,
    one_run_for_a_report, reports_are_lines,
};
pub use script_laws::{case_is_not_read, one_line_for_an_event, only_lines_are_read};
