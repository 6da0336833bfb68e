//! What became of the stories of a run, in words: the verdict of each, section by section, and what was refused.
//!
//! ```text
//! account.push_account(&mut text, Chosen::Failed)?;
//! // Datagrams: 5, 2 came
//! //
//! //   Send 3: meter 3 to the coordinator, 68 octets
//! //     Did not come: meter 2 has no route to the coordinator any more (it ended at event 22): ..
//! ```
//!
//! The text is a function of the run, its stories and the sentences of its events: `specs/Sections.antt` has the whole of it, over
//! `specs/Outcomes.antt` (what became of a story), `specs/Fates.antt` (what became of a flight), `specs/Titles.antt` (what a story is about) and
//! `specs/Groups.antt` (how often what is said, the most first). `specs/Indexes.antt` says what is looked up of a run again and again.
#![tactic(auto)]

mod account;
mod fates;
mod groups;
mod index;
mod marks;
mod numbers;
mod outcomes;
mod reasons;
mod searches;
mod section;
mod stories;
mod titles;
mod waiting;
mod whole;

pub use account::Account;
pub use groups::Group;
pub use index::Index;
pub use marks::Marks;
pub use numbers::numbered;
pub use section::{Chosen, SECTIONS, Section, section_title};
