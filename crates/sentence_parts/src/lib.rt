//! Sentences in plain English, put together from parts: words, numbers, nodes, addresses, octets.
//!
//! ```text
//! let text = sentence(alloc, &[node(3), words(" is made in line "), number(12)])?;
//! // "meter 3 is made in line 12"
//! ```
//!
//! `specs/Parts.antt` says what the text of each part is, and that of a sentence: the texts of its parts, one after the other. Where the words of a
//! sentence stand as a constant, with a `%` for each fact, [`push_woven`] puts it together (`specs/Woven.antt`), and a definition cites the constant.
#![tactic(auto)]

mod part;
mod weaving;
mod who;

pub use part::{
    Part, Who, WordsRef, count_of, decimal_width, node, number, octets, place, push_parts,
    sentence, words,
};
pub use weaving::{push_woven, woven};
pub use who::{device_of, node_with, who_at, who_of, who_with};
