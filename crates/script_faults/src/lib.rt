//! What is wrong with a script, and how that is written: the fault of a line that has no reading, that of an event that a run does not take, the
//! place of each, and the word that was meant; for people, with the line and a mark under what can't be right, or as an object of JSON.
//!
//! ```text
//! let fault = fault_of(b"deliver 3 0", &mut space);
//! // Missing { kind: WordKind::Cost }, from 11 to 11
//! let meant = nearest_kind(alloc, "sned")?;
//! // EventKind::Send
//! let bad = BadEvent { line, event: &event, made: &made, events: &events, flights, sender, other_row, other_text };
//! let found = bad.finding(alloc, Reason::Flight)?;
//! push_finding(&mut text, alloc, "flight", 31, b"deliver 3 0 1", &found)?;
//! // error[flight]: there is no flight 3
//! //   --> script:31:9
//! //    |
//! // 31 | deliver 3 0 1
//! //    |         ^ flights are 1 to 2 here
//! ```
//!
//! `line_finding` says in words what is wrong with a line, and `word_of_reason` why a line ends a run. `specs/Forms.antt` has the words of each kind
//! of line and the fault of a line, `specs/Places.antt` says where a fault stands, `specs/Nearest.antt` which word is meant. `specs/Findings.antt` says
//! what a finding is, `specs/Texts.antt` how it is written, `specs/EventFindings.antt` what one says of each event, and `specs/Runs.antt` what that takes
//! of the run.
#![tactic(auto)]

mod bad_event;
mod fault;
mod finding;
mod form;
mod line_words;
mod nearest;
mod object;
mod reason;
mod run;
mod wording;
mod wrong_lines;
mod wrong_words;

pub use bad_event::BadEvent;
pub use fault::{Cause, Fault, fault_of};
pub use finding::{Finding, push_finding, push_unseen};
pub use form::{Form, WordKind, form_of};
pub use line_words::{rest_at, space_at, spaces_at, word_at, word_length};
pub use nearest::nearest_kind;
pub use object::push_object;
pub use reason::word_of_reason;
pub use run::{FirstOther, Made};
pub use wrong_lines::line_finding;
