//! A pool of blocks of 64 octets, and the chains that are made of them: octet strings of different lengths in memory that is taken once.
//!
//! - [`Pool`]: `new` takes all its memory, 1 to 1,024 blocks. `free_blocks` and `blocks` count.
//! - [`Chain`] is the number of a chain: `reserve` makes one of up to 1,280 zeros, `write_at` and `read_at` write and read a part of it, and
//!   `give_back` ends it.
//!
//! What its calls promise, by the names of their clauses:
//!
//! - A chain is its list of octets, and a call on one leaves all others as they are (`chains`, `others`).
//! - [`PoolFull`] comes exactly where fewer blocks are free than the octets need, and changes nothing (`full`, `err`).
//! - What is given back is free again (`free`), and free blocks and those of the chains are always all that there are (`blocks`).
//!
//! In memory each block leads to the next one of its chain, or of the free blocks, by a pointer. A block is written first when a chain takes it.
//! All that follows a pointer stands in `pointers.rt`; no contract says how blocks are
//! linked. A chain whose number is let go keeps its blocks until the pool ends. A number of a chain that has ended is refused by the
//! compiler, since `give_back` takes it; a number of another pool is not (`ours` is what a call asks).
#![tactic(auto)]

mod blocks;
mod cells;
mod free_blocks;
mod numbers;
mod pointers;
mod pool;
mod region;
mod runs;

pub use pool::{Chain, Pool, PoolFull};
