//! What a node knows of ways to other nodes: the ranks of addresses, which only rise, the valid routes, and the number of
//! the route messages that it begins.
//!
//! - [`RoutingSet`] holds for up to 64 addresses the best rank (number and cost) that was offered, and a route where one is valid: the
//!   neighbour to send to. `offer` takes a rank that is better than the one held, `route` answers the next hop, `invalidate`,
//!   `invalidate_next` and `expire` end routes. Ranks lie at the slots 0200 to 023F, floors at slot 5.
//! - [`OwnNumber`] gives the number of a new route message, each once: `next`. Its limit lies at slot 3.
//!
//! What their calls promise, by the names of their clauses:
//!
//! - An offer is taken exactly where its rank is better than the one held, or than the floor of the address's class where none is held;
//!   else the answer is the first refusal (`answer`, `routing`).
//! - Where a new address needs a place, a rank without a route is forgotten, and the floor of its class is raised first: so what was
//!   forgotten is never taken again. A class is an address modulo 16.
//! - A rank is stored before its route is used, and ending a route stores nothing (`kept`). No route is stored: after `open` none is
//!   valid (`unrouted`).
//! - `open` gives what the records say; BadStore names one that has no reading (`bad`).
//!
//! A set takes its memory when it is opened, and none after that. There is no `unsafe`. Times are the caller's, in seconds: a route that
//! is not offered anew ends after [`ROUTE_VALID_TIME`]. Nothing is said of whether a next hop still hears the node; that no loops form is a law of whole
//! lines (`line_laws`).
//!
//! For example, `routing.offer(&mut keeper, dest, number, cost, next, now)?` takes a route reply, and `routing.route(dest)` is then
//! `Some(next)`.
#![tactic(auto)]

mod ending;
mod entry;
mod fault;
mod floors;
pub mod laws;
mod own_number;
mod rank;
mod routing_set;

pub use entry::{ROUTE_FRESH_TIME, ROUTE_VALID_TIME, Route, RoutingEntry};
pub use fault::{NumberFault, OfferFault, Offered};
pub use own_number::{OWN_NUMBERS_AHEAD, OwnNumber};
pub use rank::Rank;
pub use routing_set::RoutingSet;
