//! A table whose entries stand in a row of slots of a keeper.
ghost use Rattle.std.specs.Prelude.{◌≡◌, ◌==◌, ◌<◌, ◌≤◌, ◌+◌, ◌-◌, ◌∷◌, ◌++◌, [], List, length, set, is_ok, is_some, slice_get, IsTrue, IfSome, MatchOption};
ghost use Rattle.std.specs.Prelude.{IfOk, IfErr, OnOk, OnErr, Some, Ok};
ghost use Rattle.std.specs.Prelude.{ℕ};
ghost use Rattle.plc_base.specs.Keeper.{IsSlot, Records, Puts, Stores, OutsideStays, IsOldOrNew};
ghost use Rattle.store_tables.specs.SlotTables.{Layout, slot_of, IsTable, IsFree, IsStored, IsReading, IsBad, Reopens, ReopensInto, place_of};
ghost use Rattle.store_tables.specs.SlotTables.{entry_of, entry_write, is_empty_from, last_of, opened, read_into};
ghost use Rattle.store_tables.specs.OpenFaults.{IsOpened, IsFault};

use crate::slot_order::SlotOrder;
use crate::{OpenFault, ReservedList};
use plc_base::{BadStore, Failed, Keeper, Record};
use std::alloc::{AllocError, Global};
use std::marker::Model;

/// An entry of a table that stands in a row of slots.
pub trait SlotEntry: Copy + Default {
    /// How such entries are stored.
    ghost layout: { Layout Self };

    /// The number that names the entry.
    fn key(&self) -> u64
        ensures { result ≡ layout.key self.now };

    /// The slot of a place.
    fn slot(place: usize) -> u32
        requires { place < layout.slots }
        ensures value { result ≡ layout.first + place }
        ensures valid { IsSlot result };

    /// The entry that the record at a place gives. None exactly where the record has no reading.
    fn read(place: usize, octets: &[u8]) -> Option<Self>
        requires { place < layout.slots }
        ensures { result ≡ layout.read place octets.now };

    /// The record of the entry at a place.
    fn record(&self, place: usize) -> Record
        requires place { place < layout.slots }
        requires storable { IsTrue (layout.storable self.now) }
        ensures octets { result ≡ layout.octets place self.now }
        ensures reads_back { layout.read place (layout.octets place self.now) ≡ Some (layout.rest self.now) };

    /// What a record gives is as a new start finds it.
    ghost rests: { (place : ℕ) (octets : List ℕ) (entry : Self) → layout.read place octets ≡ Some entry
        → layout.rest entry ≡ entry };

    /// A new start changes no key.
    ghost keeps_key: { (entry : Self) → layout.key (layout.rest entry) ≡ layout.key entry };
}

/// At most `N` entries in the order of their slots, no two of them with one key. `new` and `open` reserve the memory for `N` entries and
/// 2 octets more for each, and no other call takes any.
///
/// A contract sees the list of the entries.
#[derive(Drop, Debug)]
pub struct SlotTable<E: SlotEntry, const N: usize> {
    entries: ReservedList<E, N>,
    // The places by their keys.
    order: SlotOrder<N>,
}

impl<E: SlotEntry, const N: usize> Model for SlotTable<E, N> {
    ghost use Rattle.std.specs.Prelude.{List, ◌≡◌};
    ghost use Rattle.store_tables.specs.SlotTables.{IsTableOf};

    ghost Value = { List E };

    ghost view = { λ t. t.entries };

    ghost invariant = { λ t. IsTableOf E.layout N t.entries t.order };
}

impl<E: SlotEntry, const N: usize> SlotTable<E, N> {
    /// No entry, and memory for `N` of them. It fails only where there is none.
    pub fn new(alloc: Global) -> Result<SlotTable<E, N>, AllocError>
        requires { N ≡ E.layout.slots }
        ensures { IfOk result (λ table. table ≡ []) }
    {
        let entries = ReservedList::new(alloc)?;
        let order = SlotOrder::new(alloc)?;
        Ok(SlotTable { entries, order })
    }

    /// The table that the keeper's records give, from the first slot to the first empty one. All `N` slots are read.
    ///
    /// Memory where there is none for `N` entries. BadStore exactly where one of these records has no reading or is a second one of a key,
    /// or a record stands behind the first empty slot, which then is the slot of the fault: its record was lost. After either no memory is
    /// held.
    pub fn open<K: Keeper>(alloc: Global, keeper: &K) -> Result<SlotTable<E, N>, OpenFault>
        requires { N ≡ E.layout.slots }
        ensures table { IsOpened result (opened E.layout (K.store keeper.now).records) }
        ensures reading { IfOk result (λ table. IsReading E.layout table (K.store keeper.now).records) }
        ensures bad { IfErr result (IsFault (IsBad E.layout (K.store keeper.now).records)) }
        ensures kept { IfOk result (λ table. IsStored E.layout table (K.store keeper.now).records) }
        // A table that was stored is opened again, each entry at rest.
        ensures reopened { Reopens E.layout (K.store keeper.now).records result }
    {
        let mut table = SlotTable::new(alloc)?;
        table.reload(keeper)?;
        Ok(table)
    }

    /// The same, into a table that there is already: it takes no memory. After an error the table holds no entry.
    pub fn reload<K: Keeper>(&mut self, keeper: &K) -> Result<(), BadStore>
        ensures table { read_into result self.new ≡ opened E.layout (K.store keeper.now).records }
        ensures reading { OnOk result (IsReading E.layout self.new (K.store keeper.now).records) }
        ensures bad { IfErr result (λ bad. IsBad E.layout (K.store keeper.now).records bad.slot) }
        ensures none { OnErr result (self.new ≡ []) }
        ensures kept { OnOk result (IsStored E.layout self.new (K.store keeper.now).records) }
        ensures reopened { ReopensInto E.layout (K.store keeper.now).records result self.new }
    {
        // Shows the check what the table holds.
        let _ = &self.entries;
        self.clear();
        match self.read_all(keeper) {
            Ok(()) => Ok(()),
            Err(bad) => {
                self.clear();
                Err(bad)
            }
        }
    }

    /// Forgets all entries. The memory stays.
    pub fn clear(&mut self)
        ensures { self.new ≡ [] }
    {
        self.entries.clear();
        self.order.clear();
    }

    /// The entries in the order of their slots.
    pub fn as_slice(&self) -> &[E]
        ensures value { result.now ≡ self.now }
        ensures table { IsTable E.layout self.now }
    {
        self.entries.as_slice()
    }

    /// How many entries there are.
    pub fn len(&self) -> usize
        ensures value { result ≡ length self.now }
        ensures fits { result ≤ N }
    {
        self.entries.len()
    }

    /// Whether there is no entry.
    pub fn is_empty(&self) -> bool
        ensures { result ≡ (length self.now == 0) }
    {
        self.entries.len() == 0
    }

    /// Whether each slot has an entry.
    pub fn is_full(&self) -> bool
        ensures { result ≡ (length self.now == E.layout.slots) }
    {
        self.entries.len() == N
    }

    /// The place of the entry with a key, by a binary search.
    pub fn place_of(&self, key: u64) -> Option<usize>
        ensures place { result ≡ place_of E.layout self.now key }
        ensures within { IfSome result (λ place. place < length self.now) }
        ensures short { length self.now ≤ E.layout.slots }
        ensures free { MatchOption result (IsFree E.layout self.now (length self.now) key)
            (λ place. IsFree E.layout self.now place key) }
    {
        self.order.find(self.entries.as_slice(), key)
    }

    /// The entry at a place.
    pub fn get(&self, place: usize) -> E
        requires { place < length self.now }
        ensures { slice_get self.now place ≡ Some result }
    {
        self.entries.as_slice()[place]
    }

    /// The entry with a key, by a binary search.
    pub fn find(&self, key: u64) -> Option<E>
        ensures { result ≡ entry_of E.layout self.now key }
    {
        let place = self.place_of(key)?;
        Some(self.get(place))
    }

    /// Stores an entry at the place of another one, and then holds it there. Its key stands at no other place.
    ///
    /// Only a failed put is an error. The table is then as it was, but the slot may have either record, so the table
    /// may not be used until it is opened again.
    pub fn set_stored<K: Keeper>(
        &mut self,
        keeper: &mut K,
        place: usize,
        entry: E,
    ) -> Result<(), Failed>
        requires within { place < length self.old }
        requires free { IsFree E.layout self.old place (E.layout.key entry) }
        requires storable { IsTrue (E.layout.storable entry) }
        requires kept { IsStored E.layout self.old (K.store keeper.old).records }
        ensures table { OnOk result (self.new ≡ set self.old place entry) }
        ensures same { OnErr result (self.new ≡ self.old) }
        ensures store { Stores (K.store keeper.old) (Some (entry_write E.layout place entry)) (is_ok result)
            (K.store keeper.new) }
        ensures kept { OnOk result (IsStored E.layout self.new (K.store keeper.new).records) }
        // Whatever became of the put, the records are those of the table before or of the one after.
        ensures either { IsOldOrNew (IsStored E.layout) self.old (set self.old place entry)
            (K.store keeper.new).records }
        ensures elsewhere { OutsideStays E.layout.first (last_of E.layout) (K.store keeper.old) (K.store keeper.new) }
    {
        // Shows the check what the table holds.
        let _ = &self.entries;
        store_entry(keeper, place, &entry)?;
        self.replace(place, entry);
        Ok(())
    }

    /// Stores an entry of a new key at the first empty slot, and then holds it there.
    ///
    /// Only a failed put is an error. The table is then as it was, but the slot may have either record, so the table
    /// may not be used until it is opened again.
    pub fn push_stored<K: Keeper>(&mut self, keeper: &mut K, entry: E) -> Result<(), Failed>
        requires room { length self.old < E.layout.slots }
        requires free { IsFree E.layout self.old (length self.old) (E.layout.key entry) }
        requires storable { IsTrue (E.layout.storable entry) }
        requires kept { IsStored E.layout self.old (K.store keeper.old).records }
        ensures table { OnOk result (self.new ≡ self.old ++ entry ∷ []) }
        ensures same { OnErr result (self.new ≡ self.old) }
        ensures store { Stores (K.store keeper.old) (Some (entry_write E.layout (length self.old) entry))
            (is_ok result) (K.store keeper.new) }
        ensures kept { OnOk result (IsStored E.layout self.new (K.store keeper.new).records) }
        ensures either { IsOldOrNew (IsStored E.layout) self.old (self.old ++ entry ∷ []) (K.store keeper.new).records }
        ensures elsewhere { OutsideStays E.layout.first (last_of E.layout) (K.store keeper.old) (K.store keeper.new) }
    {
        store_entry(keeper, self.len(), &entry)?;
        self.push(entry);
        Ok(())
    }

    /// Changes what is not stored of the entry at a place.
    pub fn set_unstored(&mut self, place: usize, entry: E)
        requires within { place < length self.old }
        requires same { IfSome (slice_get self.old place) (λ before. E.layout.rest entry ≡ E.layout.rest before) }
        ensures table { self.new ≡ set self.old place entry }
        ensures kept { (records : Records) → IsStored E.layout self.old records → IsStored E.layout self.new records }
    {
        self.entries.set(place, entry);
    }

    // Reads the entries that the keeper's records give, where none is held yet.
    fn read_all<K: Keeper>(&mut self, keeper: &K) -> Result<(), BadStore>
        requires slots { N ≡ E.layout.slots }
        requires none { self.old ≡ [] }
        ensures { read_into result self.new ≡ opened E.layout (K.store keeper.now).records }
    {
        for place in 0..N {
            let slot = E::slot(place);
            let Some(octets) = keeper.get(slot) else {
                if Self::is_empty_behind(keeper, place) {
                    break;
                }
                // The record of this slot was lost.
                return Err(BadStore { slot });
            };
            let Some(entry) = E::read(place, octets.octets()) else {
                return Err(BadStore { slot });
            };
            if self.place_of(entry.key()).is_some() {
                return Err(BadStore { slot });
            }
            self.push(entry);
        }
        Ok(())
    }

    // Whether no record stands behind a place.
    fn is_empty_behind<K: Keeper>(keeper: &K, place: usize) -> bool
        requires slots { N ≡ E.layout.slots }
        requires within { place < E.layout.slots }
        ensures { result ≡ is_empty_from E.layout (E.layout.slots - (place + 1)) (place + 1) (K.store keeper.now).records }
    {
        for later in place + 1..N {
            if keeper.get(E::slot(later)).is_some() {
                return false;
            }
        }
        true
    }

    // Holds an entry of a new key after the others.
    fn push(&mut self, entry: E)
        requires room { length self.old < E.layout.slots }
        requires fits { length self.old < 65536 }
        requires free { IsFree E.layout self.old (length self.old) (E.layout.key entry) }
        ensures { self.new ≡ self.old ++ entry ∷ [] }
    {
        let place = self.entries.len() as u16;
        self.entries.push(entry);
        self.order.insert(self.entries.as_slice(), place);
    }

    // Replaces an entry by one that may have its key.
    fn replace(&mut self, place: usize, entry: E)
        requires within { place < length self.old }
        requires free { IsFree E.layout self.old place (E.layout.key entry) }
        ensures { self.new ≡ set self.old place entry }
    {
        if self.get(place).key() == entry.key() {
            self.entries.set(place, entry);
            return;
        }
        let taken = self.order.remove(self.entries.as_slice(), place);
        self.entries.set(place, entry);
        self.order.insert(self.entries.as_slice(), taken);
    }
}

// Stores an entry at a place.
fn store_entry<E: SlotEntry, K: Keeper>(
    keeper: &mut K,
    place: usize,
    entry: &E,
) -> Result<(), Failed>
    requires place { place < E.layout.slots }
    requires storable { IsTrue (E.layout.storable entry.now) }
    ensures store { Puts (K.store keeper.old) (slot_of E.layout place) (E.layout.octets place entry.now)
        (is_ok result) (K.store keeper.new) }
    ensures reads_back { E.layout.read place (E.layout.octets place entry.now) ≡ Some (E.layout.rest entry.now) }
    ensures elsewhere { OutsideStays E.layout.first (last_of E.layout) (K.store keeper.old) (K.store keeper.new) }
    ensures fits { place < 65536 }
{
    keeper.put(E::slot(place), &entry.record(place))
}
