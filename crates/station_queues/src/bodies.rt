//! The bodies that a node holds: datagrams that it gathers, and what waits for a route.
ghost use Rattle.std.specs.Prelude.{◌≡◌, ◌==◌, ◌+◌, ◌<◌, ◌≤◌, [], ◌∷◌, ◌++◌, length, false, None, not, ℕ, IfOk, fold};
ghost use Rattle.std.specs.Int.{div_ceil};
ghost use Rattle.std.specs.List.{remove, list_any, filter};
ghost use Rattle.std.specs.FinMap as map;
ghost use Rattle.block_pool.specs.Pool.{IsChain, chain_octets};
ghost use Rattle.fragment_buffers.specs.Answers.{answer_of, octets_of};
ghost use Rattle.fragment_buffers.specs.PieceIntake.{blocks, taken};
ghost use Rattle.fragment_buffers.specs.PieceIntake.{unexpired};
ghost use Rattle.fragment_buffers.specs.declared.times.TheConstants.{WAITING_TIME};
ghost use Rattle.plc_base.specs.Times.{is_within};
ghost use Rattle.fragment_buffers.specs.Loads.{load_of, units_in};
ghost use Rattle.fragment_buffers.specs.WaitingBodies.{waits_for, is_awaited_in, waiting_blocks, no_room_in, still_waiting, units_by, leaving};
ghost use Rattle.station_queues.specs.Sizes.{AreSized};
ghost use Rattle.station_queues.specs.FirstEnd.{end_by, IsStill};
ghost use Rattle.station_queues.specs.FirstEnd as ends;
ghost use Rattle.station_queues.specs.Expiring.{notes_of_expiring, notes_of_old};
ghost use Rattle.station_queues.specs.Frames.{body_at, frames_of, with_frames};
ghost use Rattle.plc_base.specs.declared.limits.TheConstants.{GREATEST_COUNTER, LONGEST_DATAGRAM, MOST_FRAMES};

use crate::sealing::seal_load;
use aes_modes::Aes;
use arrayvec::ArrayVec;
use block_pool::{Chain, Pool};
use fragment_buffers::{BufferFull, REASSEMBLY_TIME, Reassembly, Taken, WAITING_TIME, pieces};
use mesh_header::Piece;
use plc_base::{DatagramBuf, Grant, Key, LONGEST_DATAGRAM, Out, Short, earlier_end, is_within};
use std::alloc::{AllocError, Global};
use std::marker::Model;

/// A body that waits for a route to an address. A chain of a pool holds its octets; a blank one has no chain.
#[derive(Drop, Default)]
pub struct Waiting {
    to: Short,
    note: u32,
    since: u64,
    tag: Option<u16>,
    chain: Option<Chain>,
    size: u16,
}

impl Model for Waiting {
    ghost use Rattle.station_queues.specs.Bodies.{Slot, slot_code};

    ghost Value = { Slot };

    ghost coded = { slot_code };

    ghost use Rattle.station_queues.specs.BodiesInPool.{slot_of, IsWaiting};

    ghost view = { slot_of };

    ghost invariant = { IsWaiting };
}

impl Waiting {
    // The earlier of a time and of when it has waited for too long.
    fn end_by(&self, time: u64) -> u64
        ensures { result ≡ end_by time self.now }
    {
        earlier_end(WAITING_TIME, time, self.since)
    }

    // Gives the chain back.
    fn give_back(self, pool: &mut Pool)
        requires some { 0 < self.size }
        requires ours { IsChain pool.old self.chain }
        ensures free { pool.new.free ≡ pool.old.free + div_ceil (length (chain_octets pool.old self.chain)) 64 }
        ensures chains { pool.new.chains ≡ map.remove pool.old.chains self.chain }
    {
        let Some(chain) = self.chain else {
            unreachable!()
        };
        pool.give_back(chain);
    }
}

/// The datagrams that a node gathers from pieces, and the bodies that wait for a route, in blocks of one pool.
///
/// A contract sees the two lists, with their octets.
#[derive(Drop)]
pub struct Bodies {
    pool: Pool,
    reassembly: Reassembly,
    waiting: ArrayVec<Waiting, 8>,
    blocks: u16,
    // Nothing ends before this time, in seconds.
    next_end: u64,
}

impl Model for Bodies {
    ghost use Rattle.station_queues.specs.Bodies.{Held, held_code};

    ghost Value = { Held };

    ghost coded = { held_code };

    ghost use Rattle.station_queues.specs.BodiesInPool.{held_in, AreSound};

    ghost view = { held_in };

    ghost invariant = { AreSound };
}

/// The most octets of a command that waits, its code among them.
pub const LONGEST_COMMAND: usize = 374;

/// Where the octets of one body stand one after another while it is sealed.
pub type BodyBuffer = [u8; LONGEST_DATAGRAM];

/// How many blocks the pool has.
const BLOCKS: u16 = 160;

// Whether one of the bodies is for an address.
fn any_for(waiting: &ArrayVec<Waiting, 8>, to: Short) -> bool
    ensures { result ≡ list_any (λ w. w.to == to) waiting.now.items }
{
    waiting
        .iter()
        .any(|waiting| waiting.to.number() == to.number())
}

// The earlier of a time and of when the first of the bodies has waited for too long.
fn first_end(waiting: &ArrayVec<Waiting, 8>, time: u64) -> u64
    ensures { result ≡ fold end_by time waiting.now.items }
{
    let mut end = time;
    for body in waiting.iter() {
        end = body.end_by(end);
    }
    end
}

// The notes of those of the bodies that have waited for the whole time.
fn notes_of_ended(waiting: &ArrayVec<Waiting, 8>, now: u64) -> ArrayVec<u32, 8>
    ensures { result.items ≡ notes_of_old now waiting.now.items }
{
    let mut notes = ArrayVec::new();
    for body in waiting.iter() {
        if !is_within(WAITING_TIME, now, body.since) {
            notes.push(body.note);
        }
    }
    notes
}

impl Bodies {
    /// No datagram and no body, over a pool of 160 blocks. It takes all the memory that they ever take.
    ///
    /// AllocError only where there is none.
    pub fn new(alloc: Global) -> Result<Bodies, AllocError>
        ensures { IfOk result (λ b. b ≡ record { reassemblies = []; waiting = [] }) }
    {
        let pool = Pool::new(alloc, BLOCKS)?;
        let reassembly = Reassembly::empty(alloc)?;
        Ok(Bodies {
            pool,
            reassembly,
            waiting: ArrayVec::new(),
            blocks: 0,
            next_end: u64::MAX,
        })
    }

    /// Takes a piece in, by the rule of reassembly: `out` has the datagram that it completes, and is empty where it completes none.
    ///
    /// BufferFull exactly where the piece needs another reassembly, and 8 are held or their blocks would pass 80.
    pub fn gather(
        &mut self,
        origin: Short,
        piece: &Piece<'_>,
        note: u32,
        now: u64,
        out: &mut DatagramBuf,
    ) -> Result<Taken, BufferFull>
        ensures answer { result ≡ answer_of (taken self.old.reassemblies origin piece.now note now).outcome }
        ensures datagram { out.new ≡ octets_of (taken self.old.reassemblies origin piece.now note now).outcome }
        ensures held { self.new
            ≡ record self.old { reassemblies = (taken self.old.reassemblies origin piece.now note now).held } }
    {
        self.next_end = earlier_end(REASSEMBLY_TIME, self.next_end, now);
        self.reassembly
            .take(&mut self.pool, origin, piece, note, now, out)
    }

    /// Whether something waits for an address.
    pub fn is_awaited(&self, to: Short) -> bool
        ensures { result ≡ is_awaited_in self.now.waiting to }
    {
        any_for(&self.waiting, to)
    }

    /// How many bodies wait. What is held keeps its sizes, as this type makes sure: 8 reassemblies in 80 blocks, 8 bodies in 80 blocks.
    pub fn count(&self) -> usize
        ensures value { result ≡ length self.now.waiting }
        ensures sized { AreSized self.now }
    {
        self.waiting.len()
    }

    // How many blocks the waiting bodies fill.
    fn blocks(&self) -> u16
        ensures value { result ≡ waiting_blocks self.now.waiting }
        ensures few { result ≤ 80 }
    {
        self.blocks
    }

    /// Whether a body of this many octets more can't wait: 8 bodies wait, or their blocks would pass 80.
    pub fn no_room(&self, octets: usize) -> bool
        requires { octets ≤ LONGEST_DATAGRAM }
        ensures { result ≡ no_room_in self.now.waiting octets }
    {
        if self.waiting.len() >= 8 {
            return true;
        }
        self.blocks() + (octets as u16).div_ceil(64) > 80
    }

    /// A body waits from now on, at a time in seconds: a datagram of 1 to 1,280 octets with its tag, or a command of at most 374.
    pub fn push(&mut self, to: Short, note: u32, since: u64, tag: Option<u16>, octets: &[u8])
        requires some { 1 ≤ length octets.now }
        requires fits { length octets.now ≤ LONGEST_DATAGRAM }
        requires command { tag ≡ None → length octets.now ≤ LONGEST_COMMAND }
        requires room { no_room_in self.old.waiting (length octets.now) ≡ false }
        ensures { self.new ≡ record self.old {
          waiting = self.old.waiting
              ++ record { to = to; note = note; since = since; load = load_of tag octets.now } ∷ [];
        } }
    {
        let size = octets.len() as u16;
        let Ok(chain) = self.pool.reserve(size) else {
            unreachable!()
        };
        self.pool.write_at(&chain, 0, octets);
        self.blocks += size.div_ceil(64);
        self.next_end = earlier_end(WAITING_TIME, self.next_end, since);
        self.waiting.push(Waiting {
            to,
            note,
            since,
            tag,
            chain: Some(chain),
            size,
        });
    }

    // Ends the waiting of the body at a place.
    fn drop_at(&mut self, index: usize)
        requires { index < length self.old.waiting }
        ensures { self.new ≡ record self.old { waiting = remove self.old.waiting index } }
    {
        let waiting = self.waiting.remove(index);
        self.blocks -= waiting.size.div_ceil(64);
        waiting.give_back(&mut self.pool);
    }

    // Drops all that is gathered.
    fn clear_gathered(&mut self)
        ensures { self.new ≡ record self.old { reassemblies = [] } }
    {
        self.reassembly.clear(&mut self.pool);
    }

    /// Drops all that is gathered and all that waits.
    pub fn clear(&mut self)
        ensures { self.new ≡ record { reassemblies = []; waiting = [] } }
    {
        self.clear_gathered();
        while !self.waiting.is_empty() {
            self.drop_at(0);
        }
    }

    // Seals the body at a place for a next hop, after the other frames.
    fn seal_at(
        &self,
        index: usize,
        grant: &Grant,
        key: &Key,
        aes: &Aes,
        first: u32,
        hop: Short,
        buffer: &mut BodyBuffer,
        out: &mut Out,
    )
        requires there { index < length self.now.waiting }
        requires aes { aes.now ≡ key.now.0 }
        requires left { first + units_in (body_at self.now.waiting index).load ≤ GREATEST_COUNTER }
        requires room { length out.old.frames + units_in (body_at self.now.waiting index).load ≤ MOST_FRAMES }
        ensures { out.new ≡ with_frames (out.old.frames ++ frames_of grant.now key.now first
            (units_by grant.now.address hop (body_at self.now.waiting index))) out.old }
    {
        let waiting = &self.waiting[index];
        let octets = &mut buffer[..waiting.size as usize];
        let Some(chain) = &waiting.chain else {
            unreachable!()
        };
        self.pool.read_at(chain, 0, octets);
        seal_load(
            grant,
            key,
            aes,
            first,
            hop,
            waiting.to,
            waiting.note,
            waiting.tag,
            octets,
            out,
        );
    }

    // The same, if the body waits for an address.
    fn seal_if(
        &self,
        index: usize,
        dest: Short,
        grant: &Grant,
        key: &Key,
        aes: &Aes,
        first: u32,
        hop: Short,
        buffer: &mut BodyBuffer,
        out: &mut Out,
    )
        requires there { index < length self.now.waiting }
        requires aes { aes.now ≡ key.now.0 }
        requires left { first + length (leaving grant.now.address dest hop
            (body_at self.now.waiting index ∷ [])) ≤ GREATEST_COUNTER }
        requires room { length out.old.frames + length
            (leaving grant.now.address dest hop (body_at self.now.waiting index ∷ [])) ≤ MOST_FRAMES }
        ensures { out.new ≡ with_frames (out.old.frames ++ frames_of grant.now key.now first
            (leaving grant.now.address dest hop (body_at self.now.waiting index ∷ []))) out.old }
    {
        if !self.waits_at(index, dest) {
            return;
        }
        self.seal_at(index, grant, key, aes, first, hop, buffer, out);
    }

    // Whether the body at a place waits for an address.
    fn waits_at(&self, index: usize, dest: Short) -> bool
        requires { index < length self.now.waiting }
        ensures { result ≡ waits_for dest (body_at self.now.waiting index) }
    {
        let waiting = &self.waiting[index];
        waiting.to.number() == dest.number()
    }

    /// Seals the bodies that wait for an address for a next hop, in the order of their arrival, with counters from `first` on. Their
    /// frames come after those that `out` has. They wait on until `drop_for`. Each is read into `buffer`, whose octets mean nothing
    /// before and after.
    pub fn seal_leaving(
        &self,
        dest: Short,
        grant: &Grant,
        key: &Key,
        aes: &Aes,
        first: u32,
        hop: Short,
        buffer: &mut BodyBuffer,
        out: &mut Out,
    )
        requires aes { aes.now ≡ key.now.0 }
        requires left { first + length (leaving grant.now.address dest hop self.now.waiting) ≤ GREATEST_COUNTER }
        requires room { length out.old.frames + length (leaving grant.now.address dest hop self.now.waiting) ≤ MOST_FRAMES }
        ensures { out.new ≡ with_frames (out.old.frames ++ frames_of grant.now key.now first
            (leaving grant.now.address dest hop self.now.waiting)) out.old }
    {
        let before = out.frames.frames().len();
        for index in 0..self.waiting.len() {
            let sealed = (out.frames.frames().len() - before) as u32;
            self.seal_if(
                index,
                dest,
                grant,
                key,
                aes,
                first + sealed,
                hop,
                buffer,
                out,
            );
        }
    }

    // How many units the body at a place is, if it waits for an address.
    fn units_if(&self, index: usize, dest: Short) -> u32
        requires there { index < length self.now.waiting }
        ensures units { (own hop : ℕ) → result ≡ length (leaving own dest hop (body_at self.now.waiting index ∷ [])) }
        ensures few { result ≤ 4 }
    {
        if !self.waits_at(index, dest) {
            return 0;
        }
        self.units_at(index)
    }

    // How many units the body at a place is.
    fn units_at(&self, index: usize) -> u32
        requires { index < length self.now.waiting }
        ensures units { result ≡ units_in (body_at self.now.waiting index).load }
        ensures few { result ≤ 4 }
    {
        let waiting = &self.waiting[index];
        match waiting.tag {
            None => 1,
            Some(_) => u32::from(pieces(waiting.size)),
        }
    }

    /// How many units the bodies that wait for an address are.
    pub fn units_for(&self, dest: Short) -> u32
        ensures units { (own hop : ℕ) → result ≡ length (leaving own dest hop self.now.waiting) }
        ensures few { result ≤ 21 }
    {
        let mut units = 0;
        for index in 0..self.waiting.len() {
            units += self.units_if(index, dest);
        }
        units
    }

    /// Ends the waiting of the bodies for an address.
    pub fn drop_for(&mut self, dest: Short)
        ensures { self.new ≡ record self.old { waiting = filter (λ b. not (waits_for dest b)) self.old.waiting } }
    {
        let mut index = 0;
        while index < self.waiting.len() {
            if self.waits_at(index, dest) {
                self.drop_at(index);
            } else {
                index += 1;
            }
        }
    }

    // Drops what was gathered for too long.
    fn expire_gathered(&mut self, now: u64)
        ensures { self.new ≡ record self.old { reassemblies = unexpired self.old.reassemblies now } }
    {
        self.reassembly.expire(&mut self.pool, now);
    }

    // Whether the body at a place has not waited for the whole time.
    fn stays_at(&self, index: usize, now: u64) -> bool
        requires { index < length self.now.waiting }
        ensures { result ≡ is_within WAITING_TIME now (body_at self.now.waiting index).since }
    {
        let body = &self.waiting[index];
        is_within(WAITING_TIME, now, body.since)
    }

    // Ends the waiting of the bodies that have waited for the whole time.
    fn expire_waiting(&mut self, now: u64)
        ensures { self.new ≡ record self.old { waiting = still_waiting now self.old.waiting } }
    {
        let mut index = 0;
        while index < self.waiting.len() {
            if self.stays_at(index, now) {
                index += 1;
            } else {
                self.drop_at(index);
            }
        }
    }

    /// When the first of all ends, in seconds: [`expire`](Bodies::expire) changes nothing before that, and something from then on. It is
    /// 2^64 - 1 where nothing is held.
    pub fn next_end(&self) -> u64
        ensures value { result ≡ ends.first_end self.now }
        ensures still { IsStill result self.now }
        ensures waits { (time : ℕ) → time < result → self.now ≡ record {
          reassemblies = unexpired self.now.reassemblies time;
          waiting = still_waiting time self.now.waiting;
        } }
        ensures ends { (time : ℕ) → time < 18446744073709551615 → self.now ≡ record {
          reassemblies = unexpired self.now.reassemblies time;
          waiting = still_waiting time self.now.waiting;
        } → time < result }
    {
        first_end(&self.waiting, self.reassembly.next_end())
    }

    /// The notes of the bodies that came `WAITING_TIME` ago or before, which [`expire`](Bodies::expire) drops: in the order in which they came.
    pub fn expiring(&self, now: u64) -> ArrayVec<u32, 8>
        ensures { result.items ≡ notes_of_expiring now self.now.waiting }
    {
        notes_of_ended(&self.waiting, now)
    }

    /// Drops the reassemblies that began `REASSEMBLY_TIME` ago or before, and the bodies that came `WAITING_TIME` ago or before.
    pub fn expire(&mut self, now: u64)
        ensures { self.new ≡ record {
          reassemblies = unexpired self.old.reassemblies now;
          waiting = still_waiting now self.old.waiting;
        } }
    {
        if now < self.next_end {
            return;
        }
        self.expire_gathered(now);
        self.expire_waiting(now);
        self.next_end = self.next_end();
    }
}
