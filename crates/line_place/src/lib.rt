//! The place of a line: who hears whom, how badly, and at what cost.
//!
//! A [`Layout`] says how far apart two nodes are; [`Losses`] and [`Costs`] make of that the loss and the cost of a link. A [`Place`]
//! holds, for each node, the links that its frames take. Links are directed: a measured place ([`MeasuredLink`]) may hear one way
//! better than the other. Losses are chances in ten-thousandths.
//!
//! Nodes are numbered as on the line: 0 is the coordinator, 1 and on are the meters.
//!
//! - [`Place::on`] makes the place of a layout, [`Place::measured`] that of links that were measured, and [`Field::scatter`] draws spots
//!   until a path leads to every meter, at most 1,000 times.
//! - `hearers` gives the links of a node, `loss` that of one link, `nodes` how many nodes there are.
//! - `hops` gives the hops of each node from the coordinator, `is_connected` whether a path leads to every node.
//!
//! What its calls promise, by the names of their clauses where they have one:
//!
//! - The links of a place are those of `specs/Rows.antt`, over the distances of `specs/Distances.antt`, for every kind of layout.
//! - `hops` gives the links of a shortest path for each node, and None exactly where no path leads there (`AreHops` of
//!   `specs/Hops.antt`); `is_connected` is true exactly where a path leads to every node.
//! - A scattered place is the first draw in which a path leads to every meter, and the draws that are left are those after it; `Apart` comes
//!   exactly after 1,000 draws of which none is connected (`IsScattering` of `specs/ScatteredSpots.antt`).
//! - Where memory runs out, nothing is said of what was drawn.
//!
//! No propagation is modelled: a loss is what the description says it is.
#![tactic(auto)]

mod hops;
mod layout;
mod link;
mod matrix;
mod place;
mod plane;
mod scattering;
mod street;
mod tower;

pub use layout::Layout;
pub use link::{Costs, Link, Losses};
pub use matrix::MeasuredLink;
pub use place::Place;
pub use plane::{Grid, Scatter, Spot};
pub use scattering::{Field, Scattering};
pub use street::Street;
pub use tower::Tower;
