//! The reassemblies of a node.
ghost use Rattle.std.specs.Prelude.{◌≡◌, ◌+◌, ◌<◌, ◌≤◌, ◌↔◌, ◌⊎◌, [], ◌∷◌, ◌++◌, length, IsErr, OnErr, IfOk, slice_set};
ghost use Rattle.std.specs.List.{remove};
ghost use Rattle.block_pool.specs.Pool.{PoolState};
ghost use Rattle.mesh_header.specs.Pieces.{IsPiece};
ghost use Rattle.fragment_buffers.specs.Reassembly.{begun, placed};
ghost use Rattle.fragment_buffers.specs.PieceIntake.{taken, unexpired, blocks, grown};
ghost use Rattle.fragment_buffers.specs.FirstEnd.{first_end, IsStill};
ghost use Rattle.fragment_buffers.specs.Entries.{entry_at, blocks_used, reassembly_in, reassemblies_in, Keeps, Moves, IsBounded};
ghost use Rattle.fragment_buffers.specs.Answers.{answer_of, taken_of, octets_of, joined_at, settled_at, NoneIsNamed};

use crate::buffers::{Buffers, REASSEMBLIES};
use block_pool::Pool;
use mesh_header::Piece;
use plc_base::{DatagramBuf, Short};
use std::alloc::{AllocError, Global};
use std::marker::Model;
use thiserror::Error;

/// The most blocks that they hold.
const BLOCKS: u16 = 80;

/// What came of a piece that was taken in.
#[derive(Clone, Copy, Debug, PartialEq, Eq)]
pub enum Taken {
    /// It is held, or one of its place and length was before.
    Held,
    /// The datagram is whole, and was handed up.
    Whole {
        /// The note of the first piece of its reassembly.
        note: u32,
    },
}

/// There is no room for another reassembly.
#[derive(Clone, Copy, Debug, PartialEq, Eq, Error)]
#[error("there is no room for another reassembly")]
pub struct BufferFull;

/// The datagrams that a node gathers from pieces: at most 8 at a time, whose octets stand in chains of a pool, in at most 80
/// blocks of it.
///
/// A contract sees a list of entries: each has the name (origin, size, tag), the note and the time of the first piece, the chain's
/// number, and the places and lengths of the pieces. The octets are those that the chains hold, so the entries and their pool
/// together give the reassemblies (`reassemblies_in`).
///
/// Each call takes the pool that the chains are in. What it needs of the pool, and keeps, is `Keeps`: each chain is one of this
/// pool's and as long as its datagram, their numbers differ, and the pool has the blocks that are left of 80.
#[derive(Drop)]
pub struct Reassembly {
    buffers: Buffers,
    blocks: u16,
}

impl Model for Reassembly {
    ghost use Rattle.std.specs.Prelude.{List};
    ghost use Rattle.fragment_buffers.specs.Entries.{Entry, entries_code};

    ghost Value = { List Entry };

    ghost coded = { entries_code };

    ghost use Rattle.fragment_buffers.specs.HeldEntries.{entries_of, IsHolding};

    ghost view = { entries_of };

    ghost invariant = { IsHolding };
}

impl Reassembly {
    /// No reassemblies. It takes the memory for the places of all pieces that may come, and fails only where there is none.
    pub fn empty(alloc: Global) -> Result<Reassembly, AllocError>
        ensures { IfOk result (λ r. r ≡ []) }
    {
        let buffers = Buffers::new(alloc)?;
        Ok(Reassembly { buffers, blocks: 0 })
    }

    /// Takes a piece in that came from an origin, under a note, at a time in seconds (RFC 4944, 5.3).
    ///
    /// The piece joins the reassembly of its origin, size and tag, or begins one. A piece that is held already, by place and length,
    /// is ignored. One that overlaps another piece discards all that was gathered: the reassembly begins anew with it, its note and
    /// its time. Where every octet of the datagram is there, the answer is `Taken::Whole` with the note of the reassembly, `out` is
    /// the datagram, and the reassembly ends. Else the answer is `Taken::Held`, and `out` is empty.
    ///
    /// BufferFull exactly where no reassembly of its name is there, and 8 are there or the blocks in use and those of the datagram,
    /// `size / 64` rounded up, pass 80. Nothing has changed then, and `out` is empty.
    pub fn take(
        &mut self,
        pool: &mut Pool,
        origin: Short,
        piece: &Piece<'_>,
        note: u32,
        now: u64,
        out: &mut DatagramBuf,
    ) -> Result<Taken, BufferFull>
        requires keeps { Keeps pool.old self.old }
        ensures answer { result ≡ answer_of (taken (reassemblies_in pool.old self.old) origin piece.now note now).outcome }
        ensures datagram { out.new ≡ octets_of (taken (reassemblies_in pool.old self.old) origin piece.now note now).outcome }
        ensures gathered { reassemblies_in pool.new self.new ≡ (taken (reassemblies_in pool.old self.old) origin piece.now note now).held }
        ensures full { IsErr result ↔ (NoneIsNamed self.old origin piece.now
            × ((8 ≤ length self.old) ⊎ (80 < blocks_used self.old + blocks piece.now.size))) }
        ensures err { OnErr result ((self.new ≡ self.old) × (pool.new ≡ pool.old)) }
        ensures keeps { Keeps pool.new self.new }
        ensures moves { Moves pool.old pool.new self.old self.new }
        ensures bounded { IsBounded self.new }
    {
        out.clear();
        match self.buffers.place_of(origin, piece.size(), piece.tag()) {
            Some(index) => Ok(self.join(pool, index, piece, note, now, out)),
            None => self.begin(pool, origin, piece, note, now, out),
        }
    }

    /// Drops the reassemblies that began at least `REASSEMBLY_TIME` before `now`, and gives their chains back.
    pub fn expire(&mut self, pool: &mut Pool, now: u64)
        requires keeps { Keeps pool.old self.old }
        ensures gathered { reassemblies_in pool.new self.new ≡ unexpired (reassemblies_in pool.old self.old) now }
        ensures keeps { Keeps pool.new self.new }
        ensures moves { Moves pool.old pool.new self.old self.new }
        ensures bounded { IsBounded self.new }
    {
        let mut index = 0;
        while index < self.buffers.len() {
            if self.buffers.has_expired(index, now) {
                self.end(pool, index);
            } else {
                index += 1;
            }
        }
    }

    /// When the first reassembly expires, in seconds: before that, none does. It is 2^64 - 1 where none is there.
    pub fn next_end(&self) -> u64
        ensures value { result ≡ first_end self.now }
        ensures still { (pool : PoolState) → IsStill result (reassemblies_in pool self.now) }
    {
        self.buffers.first_end()
    }

    /// Drops all reassemblies, and gives their chains back.
    pub fn clear(&mut self, pool: &mut Pool)
        requires keeps { Keeps pool.old self.old }
        ensures empty { self.new ≡ [] }
        ensures keeps { Keeps pool.new self.new }
        ensures moves { Moves pool.old pool.new self.old self.new }
    {
        while self.buffers.len() > 0 {
            self.end(pool, 0);
        }
    }

    /// Begins a reassembly with a piece of a name that is not there.
    fn begin(
        &mut self,
        pool: &mut Pool,
        origin: Short,
        piece: &Piece<'_>,
        note: u32,
        now: u64,
        out: &mut DatagramBuf,
    ) -> Result<Taken, BufferFull>
        requires keeps { Keeps pool.old self.old }
        requires rule { IsPiece piece.now }
        requires empty { out.old ≡ [] }
        requires none { NoneIsNamed self.old origin piece.now }
        ensures answer { result ≡ answer_of (taken (reassemblies_in pool.old self.old) origin piece.now note now).outcome }
        ensures datagram { out.new ≡ octets_of (taken (reassemblies_in pool.old self.old) origin piece.now note now).outcome }
        ensures gathered { reassemblies_in pool.new self.new ≡ (taken (reassemblies_in pool.old self.old) origin piece.now note now).held }
        ensures full { IsErr result ↔ ((8 ≤ length self.old) ⊎ (80 < blocks_used self.old + blocks piece.now.size)) }
        ensures err { OnErr result ((self.new ≡ self.old) × (pool.new ≡ pool.old)) }
        ensures keeps { Keeps pool.new self.new }
        ensures moves { Moves pool.old pool.new self.old self.new }
        ensures bounded { IsBounded self.new }
    {
        let index = self.buffers.len();
        if index >= REASSEMBLIES || self.blocks + piece.size().div_ceil(64) > BLOCKS {
            return Err(BufferFull);
        }
        self.push(pool, origin, piece, note, now);
        Ok(self.settle(pool, index, out))
    }

    /// Begins a reassembly after all others.
    fn push(&mut self, pool: &mut Pool, origin: Short, piece: &Piece<'_>, note: u32, now: u64)
        requires keeps { Keeps pool.old self.old }
        requires rule { IsPiece piece.now }
        requires room { (length self.old < 8) × (blocks_used self.old + blocks piece.now.size ≤ 80) }
        ensures gathered { reassemblies_in pool.new self.new ≡ reassemblies_in pool.old self.old ++ begun origin piece.now note now ∷ [] }
        ensures longer { length self.new ≡ length self.old + 1 }
        ensures keeps { Keeps pool.new self.new }
        ensures moves { Moves pool.old pool.new self.old self.new }
    {
        self.blocks += piece.size().div_ceil(64);
        self.buffers.begin(pool, origin, piece, note, now);
    }

    /// Takes a piece into the reassembly of its name.
    fn join(
        &mut self,
        pool: &mut Pool,
        index: usize,
        piece: &Piece<'_>,
        note: u32,
        now: u64,
        out: &mut DatagramBuf,
    ) -> Taken
        requires keeps { Keeps pool.old self.old }
        requires rule { IsPiece piece.now }
        requires empty { out.old ≡ [] }
        requires there { index < length self.old }
        requires size { (entry_at self.old index).size ≡ piece.now.size }
        requires tag { (entry_at self.old index).tag ≡ piece.now.tag }
        ensures answer { result ≡ taken_of (joined_at (reassemblies_in pool.old self.old) index piece.now note now).outcome }
        ensures datagram { out.new ≡ octets_of (joined_at (reassemblies_in pool.old self.old) index piece.now note now).outcome }
        ensures gathered { reassemblies_in pool.new self.new ≡ (joined_at (reassemblies_in pool.old self.old) index piece.now note now).held }
        ensures keeps { Keeps pool.new self.new }
        ensures moves { Moves pool.old pool.new self.old self.new }
        ensures bounded { IsBounded self.new }
    {
        if self.buffers.repeats(index, piece) {
            return Taken::Held;
        }
        self.grow(pool, index, piece, note, now);
        self.settle(pool, index, out)
    }

    /// Adds a piece to a reassembly, or begins it anew with the piece where that overlaps another one.
    fn grow(&mut self, pool: &mut Pool, index: usize, piece: &Piece<'_>, note: u32, now: u64)
        requires keeps { Keeps pool.old self.old }
        requires rule { IsPiece piece.now }
        requires there { index < length self.old }
        requires size { (entry_at self.old index).size ≡ piece.now.size }
        requires tag { (entry_at self.old index).tag ≡ piece.now.tag }
        ensures gathered { reassemblies_in pool.new self.new ≡ slice_set (reassemblies_in pool.old self.old) index
            (grown (reassembly_in pool.old (entry_at self.old index))
            (begun (entry_at self.old index).origin piece.now note now) (placed piece.now)) }
        ensures as_many { length self.new ≡ length self.old }
        ensures keeps { Keeps pool.new self.new }
        ensures moves { Moves pool.old pool.new self.old self.new }
    {
        self.buffers.grow(index, pool, piece, note, now);
    }

    /// Hands a reassembly up, if it is whole.
    fn settle(&mut self, pool: &mut Pool, index: usize, out: &mut DatagramBuf) -> Taken
        requires keeps { Keeps pool.old self.old }
        requires empty { out.old ≡ [] }
        requires there { index < length self.old }
        ensures answer { result ≡ taken_of (settled_at (reassemblies_in pool.old self.old) index).outcome }
        ensures datagram { out.new ≡ octets_of (settled_at (reassemblies_in pool.old self.old) index).outcome }
        ensures gathered { reassemblies_in pool.new self.new ≡ (settled_at (reassemblies_in pool.old self.old) index).held }
        ensures keeps { Keeps pool.new self.new }
        ensures moves { Moves pool.old pool.new self.old self.new }
        ensures bounded { IsBounded self.new }
    {
        if !self.buffers.is_whole(index) {
            return Taken::Held;
        }
        let note = self.buffers.note(index);
        self.buffers.read(index, pool, out);
        self.end(pool, index);
        Taken::Whole { note }
    }

    /// Ends a reassembly: its chain is given back.
    fn end(&mut self, pool: &mut Pool, index: usize)
        requires keeps { Keeps pool.old self.old }
        requires there { index < length self.old }
        ensures entries { self.new ≡ remove self.old index }
        ensures gathered { reassemblies_in pool.new self.new ≡ remove (reassemblies_in pool.old self.old) index }
        ensures keeps { Keeps pool.new self.new }
        ensures moves { Moves pool.old pool.new self.old self.new }
        ensures bounded { IsBounded self.new }
    {
        self.blocks -= self.buffers.size(index).div_ceil(64);
        self.buffers.end(index, pool);
    }
}
