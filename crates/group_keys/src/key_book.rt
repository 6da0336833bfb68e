//! The coordinator's book of meters.
ghost use Rattle.std.specs.Prelude.{◌≡◌, [], ◌+◌, ◌<◌, true, Ok, Some, is_ok, map, IfOk, IfErr, OnOk, OnErr, OnSome};
ghost use Rattle.std.specs.Bool.{OnTrue};
ghost use Rattle.std.specs.Option.{option_map, option_and_then};
ghost use Rattle.plc_base.specs.Keeper.{Stores, OutsideStays, IsOldOrNew};
ghost use Rattle.store_tables.specs.OpenFaults.{IsOpened, IsFault};
ghost use Rattle.store_tables.specs.SlotTables.{IsTable, IsReading, IsBad, Reopens, ReopensInto, opened, read_into};
ghost use Rattle.plc_base.specs.declared.address.Eui.{Eui};
ghost use Rattle.group_keys.specs.KeyBook.{Book, entries, AgreesWith, AddressesStay, entry_for, holds, address_of, is_allowed, issued_at, has_room, place_for};
ghost use Rattle.group_keys.specs.KeyBook.{with_entry, change_write, allowed_one, allow_result, allow_after, allow_write, kick_result, kick_after, kick_write};
ghost use Rattle.group_keys.specs.KeyBook.{issue_result, issue_after, issue_write, is_stored};

use crate::BookFault;
use crate::fields::{HELD, flag_in, held_in, key_in, push_held};
use byteorder::{BigEndian, ByteOrder};
use plc_base::{BadStore, Eui, Failed, Grant, Keeper, Key, KeyIndex, Record, Short};
use std::alloc::Global;
use std::marker::Model;
use store_tables::{OpenFault, SlotEntry, SlotTable};

/// What the book has of one meter.
#[derive(Clone, Copy, Debug, PartialEq, Eq)]
pub struct BookEntry {
    /// The meter's identity.
    pub eui: Eui,
    /// Its pair key, the PSK of EAP-PSK (RFC 4764).
    pub psk: Key,
    /// Whether it may join.
    pub allowed: bool,
    /// The group key that was issued to it at index 0.
    pub issued0: Option<Key>,
    /// The group key that was issued to it at index 1.
    pub issued1: Option<Key>,
}

impl Default for BookEntry {
    /// The entry of no meter.
    fn default() -> BookEntry {
        BookEntry {
            eui: Eui([0; 8]),
            psk: Key([0; 16]),
            allowed: false,
            issued0: None,
            issued1: None,
        }
    }
}

/// The first slot of the entries.
const FIRST_SLOT: u32 = 0x1000;

/// How many octets a record has.
const ENTRY_LEN: usize = 61;

impl SlotEntry for BookEntry {
    ghost use Rattle.std.specs.Prelude.{refl};
    ghost use Rattle.group_keys.specs.KeyBook.{entries};

    ghost layout = { entries };

    ghost rests = { λ _ _ _ _. refl };

    ghost keeps_key = { λ _. refl };

    fn key(&self) -> u64 {
        self.eui.number()
    }

    fn slot(place: usize) -> u32 {
        FIRST_SLOT + place as u32
    }

    fn read(place: usize, octets: &[u8]) -> Option<BookEntry> {
        if octets.len() != ENTRY_LEN {
            return None;
        }
        let (eui, rest) = octets.split_at(8);
        let (psk, rest) = rest.split_at(16);
        if usize::from(BigEndian::read_u16(rest)) != place + 1 {
            return None;
        }
        let allowed = flag_in(rest[2])?;
        let (issued0, issued1) = rest.split_at(3).1.split_at(HELD);
        let issued0 = held_in(issued0)?;
        let issued1 = held_in(issued1)?;
        let mut number = [0; 8];
        number.copy_from_slice(eui);
        Some(BookEntry {
            eui: Eui(number),
            psk: key_in(psk),
            allowed,
            issued0,
            issued1,
        })
    }

    fn record(&self, place: usize) -> Record {
        let mut octets = Record::new();
        octets.append(&self.eui.0);
        octets.append(&self.psk.0);
        octets.push_be_u16(place as u16 + 1);
        octets.push(u8::from(self.allowed));
        push_held(&mut octets, &self.issued0);
        push_held(&mut octets, &self.issued1);
        octets
    }
}

/// The coordinator's book: one entry for each meter, the k-th with the address k for good. It is always stored. `open` takes the memory
/// for 999 meters, 61 octets for each, and no other call takes any.
///
/// A contract sees the list of the entries in the order of their slots. A look-up is a binary search.
#[derive(Drop, Debug)]
pub struct KeyBook {
    table: SlotTable<BookEntry, 999>,
}

impl Model for KeyBook {
    ghost use Rattle.plc_base.specs.declared.address.Eui.{Eui};
    ghost use Rattle.group_keys.specs.KeyBook.{Book, book_code};

    ghost Value = { Book };

    ghost coded = { book_code };

    ghost view = { λ b. b.table };
}

// The address of the entry at a place.
fn address_at(place: usize) -> Short
    requires { place < 999 }
    ensures { result ≡ place + 1 }
{
    Short::new(place as u16 + 1).unwrap()
}

impl KeyBook {
    /// The book that the records from slot 1000 (hexadecimal) on give, up to the first empty slot.
    ///
    /// Memory where there is none for 999 meters. BadStore exactly where one of these records has not 61 octets, a flag above 1, other
    /// octets than zeros where no key is held, another address than its place in the book plus 1, or is a second one of an EUI, or a record
    /// stands behind the first empty slot. After either no memory is held.
    pub fn open<K: Keeper>(alloc: Global, keeper: &K) -> Result<KeyBook, OpenFault>
        ensures book { IsOpened result (opened entries (K.store keeper.now).records) }
        ensures reading { IfOk result (λ book. IsReading entries book (K.store keeper.now).records) }
        ensures bad { IfErr result (IsFault (IsBad entries (K.store keeper.now).records)) }
        ensures kept { IfOk result (λ book. AgreesWith book (K.store keeper.now).records) }
        // A book that was kept is opened again as it was.
        ensures reopened { Reopens entries (K.store keeper.now).records result }
    {
        let table = SlotTable::open(alloc, keeper)?;
        Ok(KeyBook { table })
    }

    /// The same, into a book that there is already: it takes no memory. After an error it holds no meter.
    pub fn reload<K: Keeper>(&mut self, keeper: &K) -> Result<(), BadStore>
        ensures book { read_into result self.new ≡ opened entries (K.store keeper.now).records }
        ensures reading { OnOk result (IsReading entries self.new (K.store keeper.now).records) }
        ensures bad { IfErr result (λ bad. IsBad entries (K.store keeper.now).records bad.slot) }
        ensures none { OnErr result (self.new ≡ []) }
        ensures kept { OnOk result (AgreesWith self.new (K.store keeper.now).records) }
        ensures reopened { ReopensInto entries (K.store keeper.now).records result self.new }
    {
        self.table.reload(keeper)
    }

    /// The entry of a meter, None exactly where it is not known.
    pub fn entry(&self, eui: Eui) -> Option<BookEntry>
        ensures { result ≡ entry_for self.now eui }
    {
        self.table.find(eui.number())
    }

    /// The address of a meter, None exactly where it is not known.
    pub fn address(&self, eui: Eui) -> Option<Short>
        ensures { result ≡ address_of self.now eui }
    {
        let place = self.table.place_of(eui.number())?;
        Some(address_at(place))
    }

    /// Whether a meter is known and may join.
    pub fn allowed(&self, eui: Eui) -> bool
        ensures { result ≡ is_allowed self.now eui }
    {
        match self.entry(eui) {
            Some(entry) => entry.allowed,
            None => false,
        }
    }

    /// The pair key of a meter, None exactly where it is not known.
    pub fn psk(&self, eui: Eui) -> Option<Key>
        ensures { result ≡ option_map (λ entry. entry.psk) (entry_for self.now eui) }
    {
        self.entry(eui).map(|entry| entry.psk)
    }

    /// The group key that was issued to a meter at an index, 0 or 1. None exactly where none is.
    pub fn issued(&self, eui: Eui, index: KeyIndex) -> Option<Key>
        ensures { result ≡ option_and_then (λ entry. issued_at entry index) (entry_for self.now eui) }
    {
        let entry = self.entry(eui)?;
        if index.number() == 0 {
            entry.issued0
        } else {
            entry.issued1
        }
    }

    /// The entries in the order of their slots: no two of one meter, and at most 999.
    pub fn entries(&self) -> &[BookEntry]
        ensures value { result.now ≡ self.now }
        ensures table { IsTable entries self.now }
    {
        self.table.as_slice()
    }

    /// Whether the book has this very entry.
    pub fn holds(&self, entry: &BookEntry) -> bool
        ensures { result ≡ holds self.now entry.now }
    {
        match self.entry(entry.eui) {
            Some(held) => held == *entry,
            None => false,
        }
    }

    /// Whether there is a place for the entry of a meter: it is known, or fewer than 999 are.
    pub fn has_room(&self, eui: Eui) -> bool
        ensures { result ≡ has_room self.now eui }
    {
        self.table.place_of(eui.number()).is_some() || !self.table.is_full()
    }

    /// Makes an entry the one of its meter, and answers the meter's address. It is stored first, where the book has not this
    /// very entry.
    ///
    /// Only a failed put is an error. The book is then as it was, but may not be used until it is opened again.
    pub fn change<K: Keeper>(&mut self, keeper: &mut K, entry: BookEntry) -> Result<Short, Failed>
        requires room { has_room self.old entry.eui ≡ true }
        requires kept { AgreesWith self.old (K.store keeper.old).records }
        ensures address { IfOk result (λ address. address ≡ place_for self.old entry.eui + 1) }
        ensures book { OnOk result (self.new ≡ with_entry self.old entry) }
        ensures same { OnErr result (self.new ≡ self.old) }
        // The address of a meter never changes.
        ensures addresses { AddressesStay self.old self.new }
        ensures store { Stores (K.store keeper.old) (change_write self.old entry) (is_ok result) (K.store keeper.new) }
        ensures kept { OnOk result (AgreesWith self.new (K.store keeper.new).records) }
        // Whatever became of the put, the records are those of the book before or of the one after.
        ensures either { IsOldOrNew AgreesWith self.old (with_entry self.old entry) (K.store keeper.new).records }
        ensures elsewhere { OutsideStays 0x1000 0x13E6 (K.store keeper.old) (K.store keeper.new) }
    {
        match self.table.place_of(entry.eui.number()) {
            Some(place) => {
                if self.table.get(place) == entry {
                    return Ok(address_at(place));
                }
                self.table.set_stored(keeper, place, entry)?;
                Ok(address_at(place))
            }
            None => {
                let place = self.table.len();
                self.table.push_stored(keeper, entry)?;
                Ok(address_at(place))
            }
        }
    }

    /// Allows a meter with a pair key, and answers its address. One that is known keeps its address and the keys that were
    /// issued to it; a new one gets the number of entries plus 1. Nothing is put where the entry would not change.
    ///
    /// MetersFull exactly for a new EUI with 999 entries. Store where the put failed, and then the book may not be used until
    /// it is opened again. After each error the book is as it was.
    pub fn allow<K: Keeper>(
        &mut self,
        keeper: &mut K,
        eui: Eui,
        psk: &Key,
    ) -> Result<Short, BookFault>
        requires { AgreesWith self.old (K.store keeper.old).records }
        ensures answer { result ≡ allow_result self.old eui psk.now (is_stored result) }
        ensures book { self.new ≡ allow_after self.old eui psk.now (is_stored result) }
        ensures addresses { AddressesStay self.old self.new }
        ensures store { Stores (K.store keeper.old) (allow_write self.old eui psk.now) (is_stored result)
            (K.store keeper.new) }
        ensures kept { OnTrue (is_stored result) (AgreesWith self.new (K.store keeper.new).records) }
        ensures either { IsOldOrNew AgreesWith self.old (allow_after self.old eui psk.now true)
            (K.store keeper.new).records }
        ensures elsewhere { OutsideStays 0x1000 0x13E6 (K.store keeper.old) (K.store keeper.new) }
    {
        if !self.has_room(eui) {
            return Err(BookFault::MetersFull);
        }
        let (issued0, issued1) = match self.entry(eui) {
            Some(entry) => (entry.issued0, entry.issued1),
            None => (None, None),
        };
        let entry = BookEntry {
            eui,
            psk: *psk,
            allowed: true,
            issued0,
            issued1,
        };
        self.change(keeper, entry).map_err(|_| BookFault::Store)
    }

    /// Ends the allowance of a meter and clears the keys that were issued to it, and answers its address.
    ///
    /// NotAllowed exactly where no allowed entry of the EUI is there. Store where the put failed, and then the book may not be
    /// used until it is opened again. After each error the book is as it was.
    pub fn kick<K: Keeper>(&mut self, keeper: &mut K, eui: Eui) -> Result<Short, BookFault>
        requires { AgreesWith self.old (K.store keeper.old).records }
        ensures answer { result ≡ kick_result self.old eui (is_stored result) }
        ensures book { self.new ≡ kick_after self.old eui (is_stored result) }
        ensures addresses { AddressesStay self.old self.new }
        ensures store { Stores (K.store keeper.old) (kick_write self.old eui) (is_stored result) (K.store keeper.new) }
        ensures kept { OnTrue (is_stored result) (AgreesWith self.new (K.store keeper.new).records) }
        ensures either { IsOldOrNew AgreesWith self.old (kick_after self.old eui true) (K.store keeper.new).records }
        ensures elsewhere { OutsideStays 0x1000 0x13E6 (K.store keeper.old) (K.store keeper.new) }
    {
        let Some(entry) = self.allowed_one(eui) else {
            return Err(BookFault::NotAllowed);
        };
        let kicked = BookEntry {
            eui,
            psk: entry.psk,
            allowed: false,
            issued0: None,
            issued1: None,
        };
        self.change(keeper, kicked).map_err(|_| BookFault::Store)
    }

    /// Makes the keys that were issued to a meter those of a grant, at both indexes. Nothing is put where the entry would not
    /// change.
    ///
    /// NotAllowed exactly where no allowed entry of the EUI is there. Store where the put failed, and then the book may not be
    /// used until it is opened again. After each error the book is as it was.
    pub fn issue<K: Keeper>(
        &mut self,
        keeper: &mut K,
        eui: Eui,
        grant: &Grant,
    ) -> Result<(), BookFault>
        requires { AgreesWith self.old (K.store keeper.old).records }
        ensures answer { result ≡ issue_result self.old eui grant.now (is_stored result) }
        ensures book { self.new ≡ issue_after self.old eui grant.now (is_stored result) }
        ensures addresses { AddressesStay self.old self.new }
        ensures store { Stores (K.store keeper.old) (issue_write self.old eui grant.now) (is_stored result)
            (K.store keeper.new) }
        ensures kept { OnTrue (is_stored result) (AgreesWith self.new (K.store keeper.new).records) }
        ensures either { IsOldOrNew AgreesWith self.old (issue_after self.old eui grant.now true)
            (K.store keeper.new).records }
        ensures elsewhere { OutsideStays 0x1000 0x13E6 (K.store keeper.old) (K.store keeper.new) }
    {
        let Some(entry) = self.allowed_one(eui) else {
            return Err(BookFault::NotAllowed);
        };
        let issued = BookEntry {
            eui,
            psk: entry.psk,
            allowed: entry.allowed,
            issued0: grant.keys[0],
            issued1: grant.keys[1],
        };
        match self.change(keeper, issued) {
            Ok(_) => Ok(()),
            Err(_) => Err(BookFault::Store),
        }
    }

    // The entry of a meter that is allowed. There is a place for it.
    fn allowed_one(&self, eui: Eui) -> Option<BookEntry>
        ensures entry { result ≡ allowed_one self.now eui }
        ensures room { OnSome result (has_room self.now eui ≡ true) }
    {
        let entry = self.entry(eui)?;
        if entry.allowed { Some(entry) } else { None }
    }
}
