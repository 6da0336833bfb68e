//! Seats of a tree: each node is in the middle of the rows of its leaves.
ghost use Rattle.std.specs.Prelude.{◌≡◌, ◌≤◌, IfOk};
ghost use Rattle.run_maps.specs.Layouts as layouts;

use crate::search::{Found, Search};
use std::alloc::{AllocError, Global};
use std::marker::Model;

// The number of a node, 0 where there is no such node.
pub fn number_at(list: &[usize], node: u32) -> usize
    ensures { result ≡ layouts.number_at list.now node }
{
    match list.get(node as usize) {
        None => 0,
        Some(number) => *number,
    }
}

// Another number for a node that the list has.
#[tactic(auto, unfolding(crate::specs::Layouts::put))]
pub fn put(list: &mut Vec<usize>, node: u32, number: usize)
    ensures { list.new.items ≡ layouts.put list.old.items node number }
{
    let at = node as usize;
    let Some(_) = list.get(at).copied() else {
        return;
    };
    list[at] = number;
}

// A list of numbers, one for each of this many nodes, all 0.
pub fn zeros(alloc: Global, nodes: usize) -> Result<Vec<usize>, AllocError>
    ensures { IfOk result (λ list. list.items ≡ layouts.zeros nodes) }
{
    let mut list = Vec::new(alloc);
    list.resize(nodes, 0)?;
    Ok(list)
}

pub fn flat(found: Option<Option<Found>>) -> Option<Found>
    ensures { result ≡ layouts.flat found }
{
    match found {
        None => None,
        Some(found) => found,
    }
}

fn parent_of(found: Option<Found>, node: u32) -> Option<u32>
    ensures { result ≡ layouts.parent_of found node }
{
    let Some(found) = found else {
        return None;
    };
    if found.parent == node {
        return None;
    }
    Some(found.parent)
}

// How many rows a node takes: those of its leaves, at least one.
#[tactic(auto, unfolding(crate::specs::Layouts::band_at))]
pub fn band_at(leaves: &[usize], node: u32) -> usize
    ensures { result ≡ layouts.band_at leaves.now node }
{
    number_at(leaves, node).max(1)
}

impl Search {
    // The node before another one on the way from the coordinator, which has none.
    #[tactic(auto, unfolding(crate::specs::Layouts::parent_at))]
    fn parent(&self, node: u32) -> Option<u32>
        ensures { result ≡ layouts.parent_at self.now node }
    {
        parent_of(flat(self.found.get(node as usize).copied()), node)
    }
}

// With the rows of a node among those of its parent.
fn add_band_of(parent: Option<u32>, band: usize, leaves: &mut Vec<usize>)
    ensures { leaves.new.items ≡ layouts.with_band_of parent band leaves.old.items }
{
    let Some(parent) = parent else {
        return;
    };
    let sum = number_at(leaves.as_slice(), parent).min(1000) + band.min(1000);
    put(leaves, parent, sum);
}

#[tactic(auto, unfolding(crate::specs::Layouts::with_band))]
fn add_band(search: &Search, node: u32, leaves: &mut Vec<usize>)
    ensures { leaves.new.items ≡ layouts.with_band search.now node leaves.old.items }
{
    let band = band_at(leaves.as_slice(), node);
    add_band_of(search.parent(node), band, leaves);
}

fn add_bands(search: &Search, nodes: &[u32], leaves: &mut Vec<usize>)
    ensures { leaves.new.items ≡ layouts.leaves_from search.now nodes.now leaves.old.items }
{
    for node in nodes {
        add_band(search, *node, leaves);
    }
}

/// The leaves below each node, 0 where nothing is below it.
#[tactic(auto, unfolding(crate::specs::Layouts::leaves_of))]
pub fn leaves_of(alloc: Global, nodes: usize, search: &Search) -> Result<Vec<usize>, AllocError>
    ensures { IfOk result (λ leaves. leaves.items ≡ layouts.leaves_of nodes search.now) }
{
    let mut leaves = zeros(alloc, nodes)?;
    let mut order = Vec::new(alloc);
    order.extend_from_slice(search.order.as_slice())?;
    order.reverse();
    add_bands(search, order.as_slice(), &mut leaves);
    Ok(leaves)
}

// Who has which rows.
#[derive(Drop)]
struct Seating {
    // For each node the first of its rows that nothing below it has.
    free: Vec<usize>,
    // For each node twice the middle of its rows.
    seats: Vec<usize>,
}

impl Model for Seating {
    ghost use Rattle.run_maps.specs.Layouts as layouts;

    ghost Value = { layouts.Seating };

    ghost view = { λ s. record { free = s.free.items; seats = s.seats.items } };
}

// The first free row of a parent.
fn row_of(parent: Option<u32>, free: &[usize]) -> usize
    ensures value { result ≡ layouts.row_of parent free.now }
    ensures bound { result ≤ 1000 }
{
    match parent {
        None => 0,
        Some(parent) => number_at(free, parent).min(1000),
    }
}

fn take_from(parent: Option<u32>, row: usize, free: &mut Vec<usize>)
    ensures { free.new.items ≡ layouts.taken_from parent row free.old.items }
{
    let Some(parent) = parent else {
        return;
    };
    put(free, parent, row);
}

impl Seating {
    fn new(alloc: Global, nodes: usize) -> Result<Seating, AllocError>
        ensures { IfOk result (λ seating. seating ≡ layouts.no_seats nodes) }
    {
        let free = zeros(alloc, nodes)?;
        let seats = zeros(alloc, nodes)?;
        Ok(Seating { free, seats })
    }

    // A seat for a node, from a row on.
    fn seat_at(&mut self, parent: Option<u32>, row: usize, band: usize, node: u32)
        requires { (row ≤ 1000) × (band ≤ 1000) }
        ensures { self.new ≡ layouts.seated_at parent row band node self.old }
    {
        take_from(parent, row + band, &mut self.free);
        put(&mut self.free, node, row);
        put(&mut self.seats, node, (2 * row + band).saturating_sub(1));
    }

    // A seat for a node, in the first free rows of its parent.
    #[tactic(auto, unfolding(crate::specs::Layouts::seated))]
    fn seat(&mut self, search: &Search, leaves: &[usize], node: u32)
        ensures { self.new ≡ layouts.seated search.now leaves.now node self.old }
    {
        let parent = search.parent(node);
        let row = row_of(parent, self.free.as_slice());
        let band = band_at(leaves, node).min(1000);
        self.seat_at(parent, row, band, node);
    }

    fn seat_all(&mut self, search: &Search, leaves: &[usize], nodes: &[u32])
        ensures { self.new ≡ layouts.seated_all search.now leaves.now nodes.now self.old }
    {
        for node in nodes {
            self.seat(search, leaves, *node);
        }
    }
}

/// For each node twice the middle of its rows.
#[tactic(auto, unfolding(crate::specs::Layouts::tree_seats))]
pub fn tree_seats(
    alloc: Global,
    nodes: usize,
    search: &Search,
    leaves: &[usize],
) -> Result<Vec<usize>, AllocError>
    ensures { IfOk result (λ seats. seats.items ≡ layouts.tree_seats nodes search.now leaves.now) }
{
    let mut seating = Seating::new(alloc, nodes)?;
    seating.seat_all(search, leaves, search.order.as_slice());
    Ok(seating.seats)
}
