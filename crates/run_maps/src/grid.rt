//! Seats of a grid: the nodes in the order of the search.
ghost use Rattle.std.specs.Prelude.{◌≡◌, IfOk};
ghost use Rattle.run_maps.specs.Layouts as layouts;

use crate::search::Search;
use crate::seats::{put, zeros};
use std::alloc::{AllocError, Global};

fn seat_all(nodes: &[u32], seats: &mut Vec<usize>)
    ensures { seats.new.items ≡ layouts.ordered_from 0 nodes.now seats.old.items }
{
    for (place, node) in nodes.iter().enumerate() {
        put(seats, *node, place);
    }
}

/// The place of each node in the order of the search.
#[tactic(auto, unfolding(crate::specs::Layouts::ordered_seats))]
pub fn ordered_seats(alloc: Global, nodes: usize, search: &Search) -> Result<Vec<usize>, AllocError>
    ensures { IfOk result (λ seats. seats.items ≡ layouts.ordered_seats nodes search.now) }
{
    let mut seats = zeros(alloc, nodes)?;
    seat_all(search.order.as_slice(), &mut seats);
    Ok(seats)
}

// The next number, while the square of this one is less.
#[tactic(auto, unfolding(crate::specs::Layouts::wider))]
fn wider(nodes: usize, side: usize) -> usize
    ensures { result ≡ layouts.wider nodes side }
{
    let least = side.min(1000);
    if least * least < nodes {
        return least + 1;
    }
    side
}

fn widened(nodes: usize, times: usize) -> usize
    ensures { result ≡ layouts.widened nodes times }
{
    let mut side = 1;
    for _time in 0..times {
        side = wider(nodes, side);
    }
    side
}

/// The least number whose square is as much, of at most 1,000 nodes.
#[tactic(auto, unfolding(crate::specs::Layouts::side_of))]
pub fn side_of(nodes: usize) -> usize
    ensures { result ≡ layouts.side_of nodes }
{
    widened(nodes, 32)
}
