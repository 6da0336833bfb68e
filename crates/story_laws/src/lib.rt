//! What the stories of a run say of what its nodes keep, of what became of its flights, and of when they are done, is so: laws over the definitions of
//! `line_record` and of the rules.
#![tactic(auto)]

mod laws;

pub use laws::{
    drops_are_ends, ends_are_recorded, fates_are_so, hearings_are_so, joinings_are_done,
    kept_are_since, orders_are_done, others_are_never_done, recorded_ends_are_so, runs_keep_it,
    waits_are_kept, walks_are_done,
};
