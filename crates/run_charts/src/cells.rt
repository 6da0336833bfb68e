//! What happened in each cell of the lanes: a cell is two pixels of a node.
ghost use Rattle.std.specs.Prelude.{◌≡◌, ◌≤◌, IfOk};
ghost use Rattle.run_charts.specs.Cells as spec_cells;

use crate::outcome::{Outcome, outcome_of};
use line_record::{Act, RecordedEvent, actor_of};
use std::alloc::{AllocError, Global};

/// A lane has this many cells.
pub const CELLS: usize = 590;

/// This many nodes have a lane.
pub const LANES: usize = 1000;

/// How much an outcome matters, from 1; 0 is nothing.
pub fn rank_of(outcome: Outcome) -> u8
    ensures { result ≡ spec_cells.rank_of outcome }
{
    match outcome {
        Outcome::Overheard => 1,
        Outcome::Fine => 2,
        Outcome::Good => 3,
        Outcome::Refused => 4,
        Outcome::Forged => 5,
    }
}

// Whether an event is one of its node.
fn is_marked(act: &Act) -> bool
    ensures { result ≡ spec_cells.is_marked act.now }
{
    match act {
        Act::Show { .. } => false,
        Act::RandomOctets { .. } => false,
        Act::Tick { .. } => false,
        Act::Lose { .. } => false,
        _ => true,
    }
}

/// The cell of an event, by its place from 0 among this many. A run has at most 50,000.
#[tactic(auto, unfolding(crate::specs::Cells::cell_of))]
pub fn cell_of(place: usize, events: usize) -> usize
    ensures value { result ≡ spec_cells.cell_of place events }
    ensures bound { result ≤ 590 }
{
    if events == 0 {
        return 0;
    }
    (place.min(100_000) * CELLS / events).min(CELLS)
}

// The worse of what a cell has and this.
#[tactic(auto, unfolding(crate::specs::Cells::raised))]
fn raise(ranks: &mut Vec<u8>, at: usize, rank: u8)
    ensures { ranks.new.items ≡ spec_cells.raised at rank ranks.old.items }
{
    let Some(old) = ranks.get(at).copied() else {
        return;
    };
    if rank <= old {
        return;
    }
    ranks[at] = rank;
}

// With the event at a place from 0 among this many.
#[tactic(auto, unfolding(crate::specs::Cells::marked))]
fn mark(ranks: &mut Vec<u8>, place: usize, events: usize, recorded: &RecordedEvent)
    ensures { ranks.new.items ≡ spec_cells.marked place events recorded.now ranks.old.items }
{
    if !is_marked(&recorded.act) {
        return;
    }
    let lane = actor_of(&recorded.act) as usize * CELLS;
    raise(
        ranks,
        lane + cell_of(place, events),
        rank_of(outcome_of(recorded)),
    );
}

// With this many events, by their places.
fn mark_all(ranks: &mut Vec<u8>, events: &[RecordedEvent])
    ensures { ranks.new.items ≡ spec_cells.marked_from 0 events.now events.now ranks.old.items }
{
    for (place, recorded) in events.iter().enumerate() {
        mark(ranks, place, events.len(), recorded);
    }
}

/// The ranks of the cells of this many nodes, node by node.
#[tactic(auto, unfolding(crate::specs::Cells::ranks_of))]
pub fn ranks_of(
    alloc: Global,
    nodes: usize,
    events: &[RecordedEvent],
) -> Result<Vec<u8>, AllocError>
    ensures { IfOk result (λ ranks. ranks.items ≡ spec_cells.ranks_of nodes events.now) }
{
    let mut ranks = Vec::new(alloc);
    ranks.resize(nodes.min(LANES) * CELLS, 0)?;
    mark_all(&mut ranks, events);
    Ok(ranks)
}
