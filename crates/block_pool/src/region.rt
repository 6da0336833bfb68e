//! The region: all blocks, side by side in one block of memory, and the right to free it.
ghost use Rattle.std.specs.Prelude.{◌≡◌, length, replicate};

use crate::cells::{Cells, Deed, Place};
use crate::pointers::deallocate;
use std::alloc::Global;

/// Octets, and the pointer to the block that comes next.
#[derive(Drop)]
pub struct Block {
    pub(crate) next: *mut Block,
    pub(crate) octets: [u8; 64],
    ghost full: { length octets ≡ 64 },
}

pub struct Blocks {
    pub(crate) cells: Cells<Block>,
    pub(crate) deed: Deed<Block, Global>,
    pub(crate) alloc: Global,
    ghost owed: { (deed.base ≡ cells.base) × (deed.count ≡ cells.count) × (deed.alloc ≡ alloc) },
}

// The region goes back whole, whatever its blocks hold.
impl Drop for Blocks {
    fn drop(self) {
        let Blocks { cells, deed, alloc } = self;
        deallocate(&alloc, cells, deed);
    }
}

impl Block {
    pub(crate) fn empty(next: Place<Block>) -> Block
        ensures { (result.next ≡ next.ptr) × (result.octets ≡ replicate 64 0) }
    {
        Block {
            next: next.ptr,
            octets: [0; 64],
        }
    }
}
