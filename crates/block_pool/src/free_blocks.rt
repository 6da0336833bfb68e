//! The blocks that are free.
ghost use Rattle.std.specs.Prelude.{◌≡◌, ◌+◌, ◌≤◌};
ghost use Rattle.block_pool.specs.Region.{spot_of, IsFresh};
ghost use Rattle.block_pool.specs.Table.{Grows};

use crate::cells::Place;
use crate::region::{Block, Blocks};

/// The free blocks: a string of those that were used before, and how many were never used. These lie first in the region, and nothing of them was written,
/// so that a pool touches no more memory than it has held at a time.
#[derive(Clone, Copy)]
pub struct FreeBlocks {
    pub(crate) first: Place<Block>,
    pub(crate) linked: u16,
    pub(crate) fresh: u16,
}

/// Puts blocks that were never used before the string, until it has `needed` blocks.
pub(crate) fn link_fresh(blocks: &mut Blocks, free: FreeBlocks, needed: u16) -> FreeBlocks
    requires enough { needed ≤ free.linked + free.fresh }
    requires small { free.linked + free.fresh ≤ 1024 }
    requires fresh { IsFresh blocks.old free.fresh }
    ensures enough { needed ≤ result.linked }
    ensures all { result.linked + result.fresh ≡ free.linked + free.fresh }
    ensures fresh { IsFresh blocks.new result.fresh }
    ensures grows { Grows blocks.old blocks.new (spot_of free.first) free.linked (spot_of result.first) result.linked }
{
    let mut first = free.first;
    let mut linked = free.linked;
    let mut fresh = free.fresh;
    while linked < needed {
        fresh -= 1;
        first = blocks.add(fresh, first);
        linked += 1;
    }
    FreeBlocks {
        first,
        linked,
        fresh,
    }
}
