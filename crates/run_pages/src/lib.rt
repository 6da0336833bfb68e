//! A run as one page of HTML: its name and its counts, why and what failed, a map of who hears whom, the nodes, each node over the run, and all other
//! stories, each with its chart. And what the comments of its script say.
//!
//! ```text
//! let sheet = Sheet { account: &account, events, flights, forged, title: remarks.title(), bad: "" };
//! sheet.push_page(&mut out, &chart_run)?;
//! ```
//!
//! `specs/Pages.antt` says what a page has, in its order, `specs/Remarks.antt` what the comments say, and `specs/Laws.antt` what holds of a page.
#![tactic(auto)]

mod counting;
pub mod laws;
mod node_counts;
mod node_table;
mod page_text;
mod reasons;
mod remarks;

pub use page_text::Sheet;
pub use remarks::Remarks;
