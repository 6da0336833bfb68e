//! A map of a run: who hears whom, and each node's next hop to the coordinator, as a drawing in SVG.
//!
//! ```text
//! push_map(&mut out, alloc, &record, &pasts, &homes)?;
//! ```
//!
//! A line joins two nodes where one of them heard a frame of the other one, or where the script gave them the route to each other. It is the
//! thicker the more frames came, and dashed where only one of them hears the other one. An arrow leads from each node that showed a valid route
//! to the coordinator last to its next hop. The coordinator is at the left, and each column is one hop further; more than 24 nodes stand in a
//! grid, in the order of their hops.
//!
//! `specs/Links.antt` says which nodes a run joins, `specs/Searches.antt` how many hops each is from the coordinator, `specs/Layouts.antt` where
//! it is on the map, `specs/Ties.antt` what is drawn of a link, `specs/Routes.antt` what is drawn of a route, and `specs/Maps.antt` has the whole
//! map.
#![tactic(auto)]

mod drawing;
mod grid;
pub mod laws;
mod layout;
mod links;
mod map;
mod route;
mod search;
mod seats;
mod tie;

pub use links::{Heard, Link, Links, links_of};
pub use map::push_map;
pub use search::{Found, Search, search_of};
