ghost use Rattle.std.specs.Prelude.{◌≡◌, ℕ, ◌+◌, ◌<◌, ◌≤◌, ◌↔◌, length, replicate, IfOk, OnErr, IsErr, slice_range};
ghost use Rattle.std.specs.Int.{div_ceil};
ghost use Rattle.std.specs.FinMap as map;
ghost use Rattle.block_pool.specs.Pool.{IsChain, HasBlocks, HasChain, OthersStay, SameBlocks, chain_octets, overwrite};

use crate::blocks::BLOCK;
use crate::cells::Place;
use crate::free_blocks::{FreeBlocks, link_fresh};
use crate::numbers::{set_slot, slot_of, unused_number};
use crate::region::{Block, Blocks};
use std::alloc::{AllocError, Global};
use std::marker::Model;
use thiserror::Error;

/// Fewer blocks are free than the octets need.
#[derive(Clone, Copy, Debug, PartialEq, Eq, Error)]
#[error("fewer blocks are free than the octets need")]
pub struct PoolFull;

/// The number of a chain of a pool. The chain ends by `Pool::give_back`, or with its pool. A number that is let go leaves its
/// blocks taken until the pool ends.
#[derive(Drop)]
pub struct Chain {
    number: u16,
}

impl Model for Chain {
    ghost use Rattle.std.specs.Prelude.{ℕ};

    ghost Value = { ℕ };

    ghost view = { λ c. c.number };
}

/// Where a chain begins, and its length: 0 for a number that is not used.
#[derive(Clone, Copy)]
pub struct Slot {
    pub(crate) first: Place<Block>,
    pub(crate) octets: u16,
}

/// Blocks of 64 octets, free or in chains.
///
/// A contract sees the number of free blocks, and the octets of each chain by its number.
#[derive(Drop)]
pub struct Pool {
    blocks: Blocks,
    count: u16,
    // A slot is written first when a chain has its number. The memory for one slot a block was reserved.
    table: Vec<Slot>,
    free: FreeBlocks,
}

impl Model for Pool {
    ghost use Rattle.block_pool.specs.Pool.{PoolState, pool_code};

    ghost Value = { PoolState };

    ghost coded = { pool_code };

    ghost use Rattle.block_pool.specs.Table.{state_of, IsPool};

    ghost view = { state_of };

    ghost invariant = { IsPool };
}

impl Pool {
    /// A pool of this many free blocks, 1 to 1,024, and no chains. It takes all memory that the pool ever has.
    pub fn new(alloc: Global, blocks: u16) -> Result<Pool, AllocError>
        requires { (1 ≤ blocks) × (blocks ≤ 1024) }
        ensures empty { IfOk result (λ p. (p.free ≡ blocks) × (p.chains ≡ map.empty)) }
        ensures blocks { IfOk result (λ p. HasBlocks p blocks) }
    {
        let region = Blocks::new(alloc, blocks)?;
        let table = Vec::with_capacity(alloc, blocks as usize)?;
        Ok(Pool {
            blocks: region,
            count: blocks,
            table,
            free: FreeBlocks {
                first: Place::none(),
                linked: 0,
                fresh: blocks,
            },
        })
    }

    /// How many blocks are free.
    pub fn free_blocks(&self) -> u16
        ensures { result ≡ self.now.free }
    {
        self.free.linked + self.free.fresh
    }

    /// How many blocks there are: the free ones, and those that the lengths of the chains take, together.
    pub fn blocks(&self) -> u16
        ensures { HasBlocks self.now result }
    {
        self.count
    }

    /// A new chain of this many zeros, 1 to 1,280.
    ///
    /// PoolFull exactly where fewer blocks are free than `octets / 64`, rounded up. The pool is then as it was.
    pub fn reserve(&mut self, octets: u16) -> Result<Chain, PoolFull>
        requires { (1 ≤ octets) × (octets ≤ 1280) }
        ensures full { IsErr result ↔ (self.old.free < div_ceil octets 64) }
        ensures new_number { IfOk result (λ c. IsChain self.old c → ⊥) }
        ensures free { IfOk result (λ _. self.new.free + div_ceil octets 64 ≡ self.old.free) }
        ensures chains { IfOk result (λ c. self.new.chains ≡ map.insert self.old.chains c (replicate octets 0)) }
        ensures there { IfOk result (λ c. HasChain self.new c (replicate octets 0)) }
        ensures others { IfOk result (λ c. OthersStay self.old self.new c) }
        ensures err { OnErr result (self.new ≡ self.old) }
        ensures blocks { SameBlocks self.old self.new }
    {
        let needed = octets.div_ceil(BLOCK);
        if self.free.linked + self.free.fresh < needed {
            return Err(PoolFull);
        }
        let number = unused_number(&self.table);
        let free = link_fresh(&mut self.blocks, self.free, needed);
        let first = free.first;
        let next = self.blocks.clear_run(first, needed);
        self.free = FreeBlocks {
            first: next,
            linked: free.linked - needed,
            fresh: free.fresh,
        };
        set_slot(&mut self.table, number, Slot { first, octets });
        Ok(Chain { number })
    }

    /// Writes the piece into the chain, its first octet at `at` (from 0). The chain keeps its length.
    pub fn write_at(&mut self, chain: &Chain, at: u16, piece: &[u8])
        requires ours { IsChain self.old chain.now }
        requires room { at + length piece.now ≤ length (chain_octets self.old chain.now) }
        ensures free { self.new.free ≡ self.old.free }
        ensures chains { self.new.chains
            ≡ map.insert self.old.chains chain.now (overwrite (chain_octets self.old chain.now) at piece.now) }
        ensures there { HasChain self.new chain.now (overwrite (chain_octets self.old chain.now) at piece.now) }
        ensures others { OthersStay self.old self.new chain.now }
        ensures blocks { SameBlocks self.old self.new }
    {
        let slot = slot_of(&self.table, chain.number);
        self.blocks.write_run(slot.first, at, piece);
    }

    /// Fills `out` with the chain's octets from `at` on.
    pub fn read_at(&self, chain: &Chain, at: u16, out: &mut [u8])
        requires ours { IsChain self.now chain.now }
        requires room { at + length out.old ≤ length (chain_octets self.now chain.now) }
        ensures { out.new ≡ slice_range (chain_octets self.now chain.now) at (at + length out.old) }
    {
        let slot = slot_of(&self.table, chain.number);
        self.blocks.read_run(slot.first, at, out);
    }

    /// Ends the chain. Its blocks are free again.
    pub fn give_back(&mut self, chain: Chain)
        requires { IsChain self.old chain }
        ensures free { self.new.free ≡ self.old.free + div_ceil (length (chain_octets self.old chain)) 64 }
        ensures chains { self.new.chains ≡ map.remove self.old.chains chain }
        ensures ended { IsChain self.new chain → ⊥ }
        ensures others { OthersStay self.old self.new chain }
        ensures blocks { SameBlocks self.old self.new }
    {
        let Chain { number } = chain;
        let slot = slot_of(&self.table, number);
        let freed = slot.octets.div_ceil(BLOCK);
        let last = self.blocks.walk(slot.first, freed - 1);
        self.blocks.link(last, self.free.first);
        self.free = FreeBlocks {
            first: slot.first,
            linked: self.free.linked + freed,
            fresh: self.free.fresh,
        };
        self.table[number as usize] = Slot {
            first: slot.first,
            octets: 0,
        };
    }
}
