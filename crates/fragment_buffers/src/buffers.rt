//! The reassemblies in chains of a pool, and the places of their pieces.
ghost use Rattle.std.specs.Prelude.{◌≡◌, ℕ, ◌+◌, ◌*◌, ◌<◌, ◌≤◌, ◌↔◌, [], ◌∷◌, ◌++◌, length, set, take, drop, false, IsTrue, IfOk, IfSome, IfNone, fold};
ghost use Rattle.std.specs.Int.{div_ceil};
ghost use Rattle.std.specs.List.{list_any, remove};
ghost use Rattle.std.specs.FinMap as map;
ghost use Rattle.std.specs.Bool.{MatchBool};
ghost use Rattle.block_pool.specs.Pool.{IsChain, chain_octets, overwrite};
ghost use Rattle.mesh_header.specs.Pieces.{IsPiece};
ghost use Rattle.fragment_buffers.specs.declared.times.TheConstants.{REASSEMBLY_TIME};
ghost use Rattle.fragment_buffers.specs.Answers.{has_name};
ghost use Rattle.fragment_buffers.specs.Buffers.{entry_of, pieces_in, buffer_at, is_named, end_before};
ghost use Rattle.fragment_buffers.specs.Entries.{Entry, IsEntry, IsPlace, reassembly_in, place_of, same_place, meet, IsCovered, HasGap, entry_at, blocks_used};
ghost use Rattle.fragment_buffers.specs.FirstEnd.{first_end};
ghost use Rattle.fragment_buffers.specs.Reassembly.{begun, placed};
ghost use Rattle.fragment_buffers.specs.Steps.{Begins, Changes};
ghost use Rattle.fragment_buffers.specs.PieceIntake.{blocks, grown};

use crate::REASSEMBLY_TIME;
use crate::piece_span::{PieceSpan, cover_all, has_place, overlap};
use block_pool::{Chain, Pool};
use mesh_header::Piece;
use plc_base::{DatagramBuf, LONGEST_DATAGRAM, Short, earlier_end, is_within};
use std::alloc::{AllocError, Global};
use std::marker::Model;
use store_tables::ReservedList;

/// The most reassemblies at a time.
pub(crate) const REASSEMBLIES: usize = 8;

/// The most pieces of all reassemblies: each begins at a unit of 8 octets of its own, of which 80 blocks of 64 octets have 640.
const PIECES: usize = 640;

/// Blanks, as many as a datagram may have octets. A buffer gets its length by them, before the datagram is read into it.
static BLANKS: [u8; LONGEST_DATAGRAM] = [0; LONGEST_DATAGRAM];

/// A reassembly: its name, the note and the time of its first piece, the chain with its octets, and how many pieces it has.
#[derive(Drop)]
pub struct Buffer {
    origin: Short,
    size: u16,
    tag: u16,
    note: u32,
    since: u64,
    chain: Chain,
    pieces: u16,
}

/// At most 8 reassemblies, in the order in which they began. `new` takes all memory for them, and no other call takes any.
///
/// A contract sees the list of their entries.
#[derive(Drop)]
pub struct Buffers {
    buffers: Vec<Buffer>,
    // The places of all pieces, those of the first reassembly first.
    places: ReservedList<PieceSpan, PIECES>,
}

impl Model for Buffers {
    ghost use Rattle.std.specs.Prelude.{List};
    ghost use Rattle.fragment_buffers.specs.Entries.{Entry, entries_code};

    ghost Value = { List Entry };

    ghost coded = { entries_code };

    ghost use Rattle.fragment_buffers.specs.Buffers.{entries_in, AreBuffers};

    ghost view = { entries_in };

    ghost invariant = { AreBuffers };
}

impl Buffer {
    // Whether it has this name.
    fn is_named(&self, origin: Short, size: u16, tag: u16) -> bool
        ensures { IsTrue result ↔ ((origin ≡ self.now.origin) × (size ≡ self.now.size) × (tag ≡ self.now.tag)) }
    {
        origin == self.origin && size == self.size && tag == self.tag
    }

    // Whether it began at least `REASSEMBLY_TIME` ago.
    fn has_expired(&self, now: u64) -> bool
        ensures { IsTrue result ↔ (self.now.since + REASSEMBLY_TIME ≤ now) }
    {
        !is_within(REASSEMBLY_TIME, now, self.since)
    }

    // The earlier of a time and of when it expires.
    fn end_by(&self, time: u64) -> u64
        ensures { result ≡ end_before time self.now }
    {
        earlier_end(REASSEMBLY_TIME, time, self.since)
    }

    // Reads the datagram's octets, as they stand in the chain, into an empty buffer.
    fn read(&self, pool: &Pool, out: &mut DatagramBuf)
        requires empty { out.old ≡ [] }
        requires short { self.now.size ≤ 1280 }
        requires some { 0 < self.now.size }
        requires chain { length (chain_octets pool.now self.now.chain) ≡ self.now.size }
        ensures { out.new ≡ chain_octets pool.now self.now.chain }
    {
        out.append(&BLANKS[..self.size as usize]);
        pool.read_at(&self.chain, 0, out.octets_mut());
    }
}

// The first reassembly of this name.
fn find(buffers: &[Buffer], origin: Short, size: u16, tag: u16) -> Option<usize>
    ensures none { IfNone result ((k : ℕ) → k < length buffers.now
        → is_named origin size tag (buffer_at buffers.now k) ≡ false) }
    ensures there { IfSome result (λ i. i < length buffers.now) }
    ensures named { IfSome result (λ i. (origin ≡ (buffer_at buffers.now i).origin)
        × (size ≡ (buffer_at buffers.now i).size) × (tag ≡ (buffer_at buffers.now i).tag)) }
    ensures first { IfSome result (λ i. (k : ℕ) → k < i → is_named origin size tag (buffer_at buffers.now k) ≡ false) }
{
    for (index, buffer) in buffers.iter().enumerate() {
        if buffer.is_named(origin, size, tag) {
            return Some(index);
        }
    }
    None
}

// When the first of some reassemblies expires, 2^64 - 1 where there is none.
fn first_end(buffers: &[Buffer]) -> u64
    ensures { result ≡ fold end_before 18446744073709551615 buffers.now }
{
    let mut end = u64::MAX;
    for buffer in buffers.iter() {
        end = buffer.end_by(end);
    }
    end
}

// The reassemblies before a place.
fn front(buffers: &[Buffer], place: usize) -> &[Buffer]
    requires { place ≤ length buffers.now }
    ensures { result.now ≡ take place buffers.now }
{
    &buffers[..place]
}

// How many pieces some reassemblies have.
fn count(buffers: &[Buffer]) -> usize
    requires { pieces_in buffers.now ≤ 640 }
    ensures { result ≡ pieces_in buffers.now }
{
    let mut sum = 0;
    for buffer in buffers.iter() {
        sum += buffer.pieces as usize;
    }
    sum
}

// This many places from one on.
fn part(places: &[PieceSpan], start: usize, count: usize) -> &[PieceSpan]
    requires { start + count ≤ length places.now }
    ensures { result.now ≡ take count (drop start places.now) }
{
    &places[start..start + count]
}

// Removes this many places from one on.
fn cut(places: &mut ReservedList<PieceSpan, PIECES>, start: usize, count: usize)
    requires { start + count ≤ length places.old }
    ensures { places.new ≡ take start places.old ++ drop (start + count) places.old }
{
    for _ in 0..count {
        places.remove(start);
    }
}

impl Buffers {
    /// No reassembly, and memory for all that may come. It fails only where there is none.
    pub(crate) fn new(alloc: Global) -> Result<Buffers, AllocError>
        ensures { IfOk result (λ b. b ≡ []) }
    {
        let buffers = Vec::with_capacity(alloc, REASSEMBLIES)?;
        let places = ReservedList::new(alloc)?;
        Ok(Buffers { buffers, places })
    }

    /// The number of reassemblies.
    pub(crate) fn len(&self) -> usize
        ensures { result ≡ length self.now }
    {
        self.buffers.len()
    }

    /// The first reassembly of this name.
    pub(crate) fn place_of(&self, origin: Short, size: u16, tag: u16) -> Option<usize>
        ensures none { IfNone result ((k : ℕ) → k < length self.now
            → has_name origin size tag (entry_at self.now k) ≡ false) }
        ensures there { IfSome result (λ i. i < length self.now) }
        ensures named { IfSome result (λ i. (origin ≡ (entry_at self.now i).origin)
            × (size ≡ (entry_at self.now i).size) × (tag ≡ (entry_at self.now i).tag)) }
        ensures first { IfSome result (λ i. (k : ℕ) → k < i → has_name origin size tag (entry_at self.now k) ≡ false) }
    {
        find(&self.buffers, origin, size, tag)
    }

    /// When the first of them expires, 2^64 - 1 where none is there.
    pub(crate) fn first_end(&self) -> u64
        ensures { result ≡ first_end self.now }
    {
        first_end(&self.buffers)
    }

    /// Whether one began at least `REASSEMBLY_TIME` ago.
    pub(crate) fn has_expired(&self, index: usize, now: u64) -> bool
        requires { index < length self.now }
        ensures { IsTrue result ↔ ((entry_at self.now index).since + REASSEMBLY_TIME ≤ now) }
    {
        self.buffers[index].has_expired(now)
    }

    /// The note of its first piece.
    pub(crate) fn note(&self, index: usize) -> u32
        requires { index < length self.now }
        ensures { result ≡ (entry_at self.now index).note }
    {
        self.buffers[index].note
    }

    /// How many octets its datagram has.
    pub(crate) fn size(&self, index: usize) -> u16
        requires { index < length self.now }
        ensures value { result ≡ (entry_at self.now index).size }
        ensures rule { IsEntry (entry_at self.now index) }
    {
        self.buffers[index].size
    }

    // The places of its pieces.
    fn places_of(&self, index: usize) -> &[PieceSpan]
        requires { index < length self.now }
        ensures value { result.now ≡ (entry_at self.now index).places }
        ensures rule { IsEntry (entry_at self.now index) }
    {
        let start = count(front(&self.buffers, index));
        let pieces = self.buffers[index].pieces as usize;
        part(self.places.as_slice(), start, pieces)
    }

    /// Whether a held piece has the place and the length of this one.
    pub(crate) fn repeats(&self, index: usize, piece: &Piece<'_>) -> bool
        requires { index < length self.now }
        ensures value { result ≡ list_any (same_place (place_of piece.now)) (entry_at self.now index).places }
        ensures rule { IsEntry (entry_at self.now index) }
    {
        has_place(self.places_of(index), piece)
    }

    /// Whether every position below the size lies in a held piece.
    pub(crate) fn is_whole(&self, index: usize) -> bool
        requires { index < length self.now }
        ensures value { MatchBool result (IsCovered (entry_at self.now index)) (HasGap (entry_at self.now index)) }
        ensures rule { IsEntry (entry_at self.now index) }
    {
        cover_all(self.places_of(index), self.buffers[index].size)
    }

    /// Reads its datagram's octets, as they stand in the chain, into an empty buffer.
    pub(crate) fn read(&self, index: usize, pool: &Pool, out: &mut DatagramBuf)
        requires there { index < length self.now }
        requires empty { out.old ≡ [] }
        requires some { 0 < (entry_at self.now index).size }
        requires chain { length (chain_octets pool.now (entry_at self.now index).chain) ≡ (entry_at self.now index).size }
        ensures { out.new ≡ chain_octets pool.now (entry_at self.now index).chain }
    {
        self.buffers[index].read(pool, out);
    }

    // Lists a further reassembly, which has no piece yet.
    fn push(&mut self, buffer: Buffer)
        requires few { length self.old < 8 }
        requires size { buffer.size ≤ 1280 }
        requires none { buffer.pieces ≡ 0 }
        ensures { self.new ≡ self.old ++ entry_of buffer [] ∷ [] }
    {
        // The memory was reserved.
        self.buffers.push(buffer).unwrap();
    }

    // Lists a further piece of a reassembly.
    fn push_place(&mut self, index: usize, place: PieceSpan)
        requires there { index < length self.old }
        requires place { IsPlace (entry_at self.old index).size place }
        requires apart { list_any (meet place) (entry_at self.old index).places ≡ false }
        requires room { blocks_used self.old ≤ 80 }
        ensures { self.new
            ≡ set self.old index (record (entry_at self.old index) { places = (entry_at self.old index).places ++ place ∷ [] }) }
    {
        let start = count(front(&self.buffers, index));
        let end = start + self.buffers[index].pieces as usize;
        self.places.insert(end, place);
        self.buffers[index].pieces += 1;
    }

    // Discards what a reassembly has gathered: it is as if it began now, with this note.
    fn discard(&mut self, index: usize, note: u32, now: u64)
        requires { index < length self.old }
        ensures { self.new ≡ set self.old index (record (entry_at self.old index) { note = note; since = now; places = [] }) }
    {
        let start = count(front(&self.buffers, index));
        let pieces = self.buffers[index].pieces as usize;
        cut(&mut self.places, start, pieces);
        let buffer = &mut self.buffers[index];
        buffer.note = note;
        buffer.since = now;
        buffer.pieces = 0;
    }

    // Writes the piece's octets to their place in the chain, and lists the place.
    fn write(&mut self, index: usize, pool: &mut Pool, piece: &Piece<'_>)
        requires there { index < length self.old }
        requires rule { IsPiece piece.now }
        requires size { (entry_at self.old index).size ≡ piece.now.size }
        requires chain { length (chain_octets pool.old (entry_at self.old index).chain) ≡ (entry_at self.old index).size }
        requires apart { list_any (meet (place_of piece.now)) (entry_at self.old index).places ≡ false }
        requires room { blocks_used self.old ≤ 80 }
        ensures places { self.new ≡ set self.old index
            (record (entry_at self.old index) { places = (entry_at self.old index).places ++ place_of piece.now ∷ [] }) }
        ensures free { pool.new.free ≡ pool.old.free }
        ensures chains { pool.new.chains ≡ map.insert pool.old.chains (entry_at self.old index).chain
            (overwrite (chain_octets pool.old (entry_at self.old index).chain) (piece.now.offset * 8) piece.now.octets) }
    {
        let place = PieceSpan::of(piece);
        pool.write_at(&self.buffers[index].chain, place.start(), piece.octets());
        self.push_place(index, place);
    }

    /// Begins a reassembly with a piece, after all others. The pool must have room for its datagram.
    pub(crate) fn begin(
        &mut self,
        pool: &mut Pool,
        origin: Short,
        piece: &Piece<'_>,
        note: u32,
        now: u64,
    )
        requires few { length self.old < 8 }
        requires room { blocks_used self.old + blocks piece.now.size ≤ 80 }
        requires free { div_ceil piece.now.size 64 ≤ pool.old.free }
        ensures items { self.new ≡ self.old ++ entry_at self.new (length self.old) ∷ [] }
        ensures begins { Begins pool.old pool.new (entry_at self.new (length self.old)) }
        ensures gathered { reassembly_in pool.new (entry_at self.new (length self.old)) ≡ begun origin piece.now note now }
        ensures some { 0 < piece.now.size }
    {
        let size = piece.size();
        let Ok(chain) = pool.reserve(size) else {
            unreachable!()
        };
        let index = self.len();
        self.push(Buffer {
            origin,
            size,
            tag: piece.tag(),
            note,
            since: now,
            chain,
            pieces: 0,
        });
        self.write(index, pool, piece);
    }

    /// Takes a piece of its name in. Where the piece overlaps another one, all is discarded, and it begins anew with this piece.
    pub(crate) fn grow(
        &mut self,
        index: usize,
        pool: &mut Pool,
        piece: &Piece<'_>,
        note: u32,
        now: u64,
    )
        requires there { index < length self.old }
        requires rule { IsPiece piece.now }
        requires size { (entry_at self.old index).size ≡ piece.now.size }
        requires tag { (entry_at self.old index).tag ≡ piece.now.tag }
        requires chain { length (chain_octets pool.old (entry_at self.old index).chain) ≡ (entry_at self.old index).size }
        requires room { blocks_used self.old ≤ 80 }
        ensures items { self.new ≡ set self.old index (entry_at self.new index) }
        ensures changes { Changes pool.old pool.new self.old index (entry_at self.new index) }
        ensures gathered { reassembly_in pool.new (entry_at self.new index) ≡ grown (reassembly_in pool.old (entry_at self.old index))
            (begun (entry_at self.old index).origin piece.now note now) (placed piece.now) }
    {
        if overlap(self.places_of(index), piece) {
            self.discard(index, note, now);
        }
        self.write(index, pool, piece);
    }

    /// Ends a reassembly: its chain is given back.
    pub(crate) fn end(&mut self, index: usize, pool: &mut Pool)
        requires there { index < length self.old }
        requires ours { IsChain pool.old (entry_at self.old index).chain }
        ensures items { self.new ≡ remove self.old index }
        ensures free { pool.new.free ≡ pool.old.free + div_ceil (length (chain_octets pool.old (entry_at self.old index).chain)) 64 }
        ensures chains { pool.new.chains ≡ map.remove pool.old.chains (entry_at self.old index).chain }
    {
        let start = count(front(&self.buffers, index));
        let Buffer { chain, pieces, .. } = self.buffers.remove(index);
        cut(&mut self.places, start, pieces as usize);
        pool.give_back(chain);
    }
}
