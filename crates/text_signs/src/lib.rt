//! Texts that others wrote, as a page or a message shows them: nothing in them is hidden, turns a text round, ends a line or acts on a terminal.
//!
//! - [`shown`] is a text of any octets for a page, with U+FFFD for control characters and for what is no character (`specs/Signs.antt`).
//! - [`quoted`] is a short one for a message, in printable ASCII, with `\x0a` for a line feed (`specs/Quotes.antt`).
//! - [`is_control`] says which are control characters, those among them that end a line or turn a text round.
//!
//! What a reader relies on: the law [`quotes_are_plain`], and the clause `plain` of [`shown`].
#![tactic(auto)]

mod quotes;
mod shown_texts;
mod signs;

pub use quotes::{MOST_QUOTED, is_printable, push_quoted, quoted, quotes_are_plain};
pub use shown_texts::shown;
pub use signs::is_control;
