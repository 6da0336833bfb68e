//! A node over a store on flash is a node of the rules, whatever power is lost within its puts: laws over `node_rules` and `flash_keeper`.
//!
//! By the rules a loss of power decides at once whether the record that it struck is the old one or the new one. Flash decides it at the next opening,
//! which may come days later, and after more losses of power. Of a node that makes no difference: whatever an opening finds, there is a loss of power of
//! the rules under which the node's call leaves just these records, answers the same, and gives out the same; and what the node is after the opening is
//! what the rules' restart makes of them ([`openings_decide_cuts`]). So it is over a whole life of calls, failed puts and openings
//! ([`lives_are_by_rules`]): all that is proved of nodes whose writes fail, by a line's `cut` and `restart`, holds of such nodes too.
//!
//! The laws are of any [`Keeper`](plc_base::Keeper), by what is pending in its store: the records that an opening may find in place of those that it holds.
//! Of a keeper over flash these are the ones that its calls name, and an opening or a reopening leaves nothing pending ([`flash_openings_are_found`]).
#![tactic(auto)]

mod laws;

pub use laws::{flash_openings_are_found, lives_are_by_rules, openings_decide_cuts};
