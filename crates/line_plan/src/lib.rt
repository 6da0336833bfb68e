//! The description of a simulated line: TOML with a default for every key, read from a source, with options that change it.
//!
//! [`Plan::read`] reads a text. What its clauses promise (`specs/Descriptions.antt`):
//!
//! - `plan`: the text is TOML, each table has known keys alone (`plan_tables/specs/Keys.antt`), and the plan is that of `specs/Plans.antt`, with the
//!   defaults and the limits of each key.
//! - `fault`: the first thing that is wrong, with its line and its column: that the text is no TOML, a key that its table may not have, with a known
//!   one that is near, if any, or a value that does not fit its key, with what fits.
//!
//! [`read_plan`] reads a text, and gives its plan with the values that options such as `--set place.loss=5` and `--seed 7` give, and the place of its table
//! `[place]` ([`Description`]). What is wrong is one line of text ([`NoPlan`]): with its place in the text where the text is wrong by itself, else without one.
//!
//! Times are whole seconds in a plan, chances ten-thousandths. `plan_tables` has the tables, the values of keys and the faults.
//! `docs/LINE-DESCRIPTION.md` has the language.
#![tactic(auto)]

mod input;
mod option_reading;
mod options;
mod plan;
mod reading;
mod unknown;

pub use input::{InputFault, MAX_DESCRIPTION, read_text};
pub use option_reading::{Description, NoPlan, read_plan};
pub use options::{OptionFault, are_options, with_options};
pub use plan::{IncidentList, OwnerPlan, Plan, PlanTitle};
