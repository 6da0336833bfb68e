//! The order of a table's entries by their keys.
ghost use Rattle.std.specs.Prelude.{◌≡◌, ◌<◌, [], length, slice_index, IfOk};
ghost use Rattle.store_tables.specs.SlotOrders.{IsRising, IsOrder, LacksOne, IsRank};
ghost use Rattle.store_tables.specs.SlotTables.{IsTable, keys_of, place_of};

use crate::{ReservedList, SlotEntry};
use std::alloc::{AllocError, Global};
use std::marker::Model;

/// The places of at most `N` entries in the order of their keys, so that an entry is found by a binary search. The entries themselves
/// stand elsewhere, and each call is given them.
///
/// A contract sees the list of the places.
#[derive(Drop, Debug)]
pub struct SlotOrder<const N: usize> {
    places: ReservedList<u16, N>,
}

impl<const N: usize> Model for SlotOrder<N> {
    ghost use Rattle.std.specs.Prelude.{List, ℕ};

    ghost Value = { List ℕ };

    ghost view = { λ o. o.places };
}

impl<const N: usize> SlotOrder<N> {
    /// The order of no entries, and memory for `N` places of 2 octets. It fails only where there is none.
    pub fn new(alloc: Global) -> Result<SlotOrder<N>, AllocError>
        ensures { IfOk result (λ o. o ≡ []) }
    {
        let places = ReservedList::new(alloc)?;
        Ok(SlotOrder { places })
    }

    /// Forgets all places.
    pub fn clear(&mut self)
        ensures { self.new ≡ [] }
    {
        self.places.clear();
    }

    /// The place of the entry with a key.
    pub fn find<E: SlotEntry>(&self, entries: &[E], key: u64) -> Option<usize>
        requires table { IsTable E.layout entries.now }
        requires order { IsOrder (keys_of E.layout entries.now) self.now }
        ensures { result ≡ place_of E.layout entries.now key }
    {
        let rank = self.rank(entries, key);
        if rank >= self.places.len() {
            return None;
        }
        let place = self.places.as_slice()[rank];
        if key_of(entries, place) != key {
            return None;
        }
        Some(place as usize)
    }

    /// Puts in the one place that is missing.
    pub fn insert<E: SlotEntry>(&mut self, entries: &[E], place: u16)
        requires table { IsTable E.layout entries.now }
        requires within { place < length entries.now }
        requires lacks { LacksOne (keys_of E.layout entries.now) self.old place }
        requires room { length self.old < N }
        ensures { IsOrder (keys_of E.layout entries.now) self.new }
    {
        let rank = self.rank(entries, key_of(entries, place));
        self.places.insert(rank, place);
    }

    /// Takes a place out.
    pub fn remove<E: SlotEntry>(&mut self, entries: &[E], place: usize) -> u16
        requires within { place < length entries.now }
        requires order { IsOrder (keys_of E.layout entries.now) self.old }
        ensures place { result ≡ place }
        ensures lacks { LacksOne (keys_of E.layout entries.now) self.new place }
    {
        let rank = self.rank(entries, entries[place].key());
        self.places.remove(rank)
    }

    // How many places have a lower key.
    fn rank<E: SlotEntry>(&self, entries: &[E], key: u64) -> usize
        requires { IsRising (keys_of E.layout entries.now) self.now }
        ensures { IsRank (keys_of E.layout entries.now) self.now key result }
    {
        self.places
            .as_slice()
            .partition_point(|place| key_of(entries, *place) < key)
    }
}

// The key of the entry at a place, 0 if there is none.
fn key_of<E: SlotEntry>(entries: &[E], place: u16) -> u64
    ensures { result ≡ slice_index (keys_of E.layout entries.now) place }
{
    match entries.get(place as usize) {
        Some(entry) => entry.key(),
        None => 0,
    }
}
