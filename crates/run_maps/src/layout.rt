//! Where each node is. All numbers are pixels but seats, which are numbers within a layout.
ghost use Rattle.std.specs.Prelude.{◌≡◌, ◌≤◌, IfOk};
ghost use Rattle.run_maps.specs.Layouts as layouts;

use crate::grid::{ordered_seats, side_of};
use crate::search::{Found, Search};
use crate::seats::{band_at, flat, leaves_of, tree_seats};
use std::alloc::{AllocError, Global};
use std::marker::Model;

/// A place, by its distances from the left and from the top.
#[derive(Clone, Copy, Debug, PartialEq, Eq)]
pub struct Spot {
    pub x: usize,
    pub y: usize,
}

/// Where the nodes of a run are.
#[derive(Drop)]
pub struct Layout {
    /// How many there are.
    pub nodes: u32,
    /// How each was found.
    pub found: Vec<Option<Found>>,
    /// The seat of each.
    pub seats: Vec<usize>,
    /// The hops of the last column.
    pub columns: usize,
    /// How many rows there are.
    pub rows: usize,
    /// How many nodes a row of the grid has.
    pub side: usize,
}

impl Model for Layout {
    ghost use Rattle.run_maps.specs.Layouts as layouts;

    ghost Value = { layouts.Layout };

    ghost view = { λ l. record {
      nodes = l.nodes;
      found = l.found.items;
      seats = l.seats.items;
      columns = l.columns;
      rows = l.rows;
      side = l.side;
    } };
}

/// Up to 24 nodes there is a column for each number of hops.
pub fn is_tree(nodes: u32) -> bool
    ensures { result ≡ layouts.is_tree nodes }
{
    nodes <= 24
}

fn tree_layout(alloc: Global, nodes: u32, search: Search) -> Result<Layout, AllocError>
    ensures { IfOk result (λ l. l ≡ layouts.tree_layout nodes search (layouts.leaves_of nodes search)) }
{
    let leaves = leaves_of(alloc, nodes as usize, &search)?;
    let seats = tree_seats(alloc, nodes as usize, &search, leaves.as_slice())?;
    Ok(Layout {
        nodes,
        seats,
        columns: search.most,
        rows: band_at(leaves.as_slice(), 0),
        side: 1,
        found: search.found,
    })
}

fn grid_layout(alloc: Global, nodes: u32, search: Search) -> Result<Layout, AllocError>
    ensures { IfOk result (λ l. l ≡ layouts.grid_layout nodes search) }
{
    let seats = ordered_seats(alloc, nodes as usize, &search)?;
    Ok(Layout {
        nodes,
        seats,
        columns: 0,
        rows: 0,
        side: side_of(nodes as usize),
        found: search.found,
    })
}

/// Where this many nodes are that were searched. It fails only where memory runs out.
#[tactic(auto, unfolding(crate::specs::Layouts::layout_of))]
pub fn layout_of(alloc: Global, nodes: u32, search: Search) -> Result<Layout, AllocError>
    ensures { IfOk result (λ l. l ≡ layouts.layout_of nodes search) }
{
    if is_tree(nodes) {
        return tree_layout(alloc, nodes, search);
    }
    grid_layout(alloc, nodes, search)
}

// Of two columns beside each other one is a little lower, so that links over it are seen.
fn tree_spot(hops: usize, seat: usize) -> Spot
    ensures { result ≡ layouts.tree_spot hops seat }
{
    Spot {
        x: 50 + 150 * hops.min(1000),
        y: 40 + 37 * seat.min(3000) + 18 * (hops % 2),
    }
}

// Rows and columns of the grid are bent, so that no three nodes of one are in a line.
fn bend(step: usize, side: usize, place: usize) -> usize
    requires { (step ≤ 620) × ((1 ≤ side) × (side ≤ 1000)) }
    ensures value { result ≡ layouts.bend step side place }
    ensures bound { result ≤ 10000 }
{
    let near = place.min(1000);
    (2 * step * (near * near) / side / side).min(10_000)
}

fn grid_spot(step: usize, side: usize, seat: usize) -> Spot
    requires { (step ≤ 620) × ((1 ≤ side) × (side ≤ 1000)) }
    ensures { result ≡ layouts.grid_spot step side seat }
{
    let row = seat.min(1000) / side;
    let column = seat % side;
    Spot {
        x: step / 2 + step * column + bend(step, side, row),
        y: step / 2 + step * row + bend(step, side, column),
    }
}

fn hops_of(found: Option<Found>) -> usize
    ensures { result ≡ layouts.hops_of found }
{
    match found {
        None => 0,
        Some(found) => found.hops,
    }
}

impl Layout {
    #[tactic(auto, unfolding(crate::specs::Layouts::across))]
    fn across(&self) -> usize
        ensures value { result ≡ layouts.across self.now }
        ensures bound { (1 ≤ result) × (result ≤ 1000) }
    {
        self.side.min(1000).max(1)
    }

    // Between two nodes of the grid.
    #[tactic(auto, unfolding(crate::specs::Layouts::step_of))]
    fn step(&self) -> usize
        ensures value { result ≡ layouts.step_of self.now }
        ensures bound { result ≤ 620 }
    {
        620 / (self.across() + 2)
    }

    fn spot_at(&self, hops: usize, seat: usize) -> Spot
        ensures { result ≡ layouts.spot_at self.now hops seat }
    {
        if is_tree(self.nodes) {
            return tree_spot(hops, seat);
        }
        grid_spot(self.step(), self.across(), seat)
    }

    /// Where a node is, if there is such a node.
    #[tactic(auto, unfolding(crate::specs::Layouts::spot))]
    pub fn spot(&self, node: u32) -> Option<Spot>
        ensures { result ≡ layouts.spot self.now node }
    {
        let Some(seat) = self.seats.get(node as usize).copied() else {
            return None;
        };
        let hops = hops_of(flat(self.found.get(node as usize).copied()));
        Some(self.spot_at(hops, seat))
    }

    /// How wide the map is.
    #[tactic(auto, unfolding(crate::specs::Layouts::width_of))]
    pub fn width(&self) -> usize
        ensures { result ≡ layouts.width_of self.now }
    {
        if is_tree(self.nodes) {
            return 100 + 150 * self.columns.min(1000);
        }
        self.step() * (self.across() + 2)
    }

    /// How high the map is.
    #[tactic(auto, unfolding(crate::specs::Layouts::height_of))]
    pub fn height(&self) -> usize
        ensures { result ≡ layouts.height_of self.now }
    {
        if is_tree(self.nodes) {
            return 24 + 74 * self.rows.min(1000);
        }
        self.step() * (self.across() + 2)
    }

    /// The radius of the circle of a node.
    #[tactic(auto, unfolding(crate::specs::Layouts::radius_of))]
    pub fn radius(&self) -> usize
        ensures { result ≡ layouts.radius_of self.now }
    {
        if is_tree(self.nodes) {
            return 15;
        }
        (self.step() / 3).min(15)
    }
}
