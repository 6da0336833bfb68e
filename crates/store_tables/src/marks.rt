//! A table of marks by address: the number that was last admitted of each.
ghost use Rattle.std.specs.Prelude.{◌≡◌, [], true, is_ok, IfOk, IfErr, OnOk, OnErr};
ghost use Rattle.plc_base.specs.Keeper.{Stores, OutsideStays, IsOldOrNew};
ghost use Rattle.store_tables.specs.SlotTables.{IsTable, IsReading, IsBad, Reopens, ReopensInto, last_of, opened, read_into};
ghost use Rattle.store_tables.specs.OpenFaults.{IsOpened, IsFault};
ghost use Rattle.store_tables.specs.Marks.{layout, slots_of, AgreesWith, IsCovered, mark_ahead, mark_of, has_room, room_for, keep_write, kept_after};

use crate::{OpenFault, SlotEntry, SlotTable};
use byteorder::{BigEndian, ByteOrder};
use plc_base::{BadStore, Failed, Keeper, Record, Short};
use std::alloc::{AllocError, Global};
use std::marker::Model;

/// One address: the number that was last admitted of it, and the mark that is stored, which is no lower.
///
/// The slots of its table are `FIRST` and the following, `SLOTS` of them.
#[derive(Clone, Copy, Debug, Default)]
pub struct Mark<const FIRST: u32, const SLOTS: usize> {
    /// The short address.
    pub address: Short,
    /// The number that was last admitted.
    pub mark: u32,
    /// The mark that is stored.
    pub stored: u32,
}

/// How far a mark is stored ahead of the number that was admitted (a rule of this network).
pub const MARKS_AHEAD: u32 = 63;

impl<const FIRST: u32, const SLOTS: usize> SlotEntry for Mark<FIRST, SLOTS> {
    ghost use Rattle.std.specs.Prelude.{refl};
    ghost use Rattle.store_tables.specs.Marks.{layout, mark_in-rests};

    ghost layout = { layout FIRST SLOTS };

    ghost rests = { λ _ octets entry h. mark_in-rests FIRST SLOTS octets entry h };

    ghost keeps_key = { λ _. refl };

    fn key(&self) -> u64 {
        self.address.key()
    }

    fn slot(place: usize) -> u32 {
        FIRST + place as u32
    }

    fn read(_place: usize, octets: &[u8]) -> Option<Mark<FIRST, SLOTS>> {
        if octets.len() != 6 {
            return None;
        }
        let address = Short::new(BigEndian::read_u16(octets))?;
        let stored = BigEndian::read_u32(&octets[2..]);
        Some(Mark {
            address,
            mark: stored,
            stored,
        })
    }

    fn record(&self, _place: usize) -> Record {
        let Mark {
            address,
            stored,
            ..
        } = *self;
        let mut octets = [0; 6];
        BigEndian::write_u16(&mut octets, address.number());
        BigEndian::write_u32(&mut octets[2..], stored);
        Record::from_octets(&octets)
    }
}

/// The number that was last admitted of each address. The stored marks are ahead of it, so that no number is admitted
/// twice, even over losses of power, and most numbers cost no put. Its memory is that of a [`SlotTable`] of `SLOTS` entries of 12 octets.
///
/// A contract sees the list of the entries in the order of their slots.
#[derive(Drop, Debug)]
pub struct MarkTable<const FIRST: u32, const SLOTS: usize> {
    table: SlotTable<Mark<FIRST, SLOTS>, SLOTS>,
}

impl<const FIRST: u32, const SLOTS: usize> Model for MarkTable<FIRST, SLOTS> {
    ghost use Rattle.store_tables.specs.Marks.{Table, table_code, IsCovered};

    ghost Value = { Table FIRST SLOTS };

    ghost coded = { table_code FIRST SLOTS };

    ghost view = { λ m. m.table };

    ghost invariant = { λ m. IsCovered FIRST SLOTS m.table };
}

impl<const FIRST: u32, const SLOTS: usize> MarkTable<FIRST, SLOTS> {
    /// No address is held, and there is memory for `SLOTS` of them. It fails only where there is none.
    ///
    /// It may be called where `SLOTS` slots for marks follow one another from `FIRST` on: those of the peers are 0100 to 013F
    /// and those of the broadcasts 0300 to 031F (hexadecimal).
    pub fn new(alloc: Global) -> Result<MarkTable<FIRST, SLOTS>, AllocError>
        requires { SLOTS ≡ slots_of FIRST SLOTS }
        ensures { IfOk result (λ marks. marks ≡ []) }
    {
        let table = SlotTable::new(alloc)?;
        Ok(MarkTable { table })
    }

    /// Forgets all addresses. The memory stays.
    pub fn clear(&mut self)
        ensures { self.new ≡ [] }
    {
        self.table.clear();
    }

    /// The marks that the records from the first slot on give, up to the first empty slot. Each mark is the stored one. It may be
    /// called where `new` may be.
    ///
    /// Memory where there is none for `SLOTS` marks. BadStore exactly where one of these records has not 6 octets, has an address above
    /// FFFD, or is a second one of an address, or a record stands behind the first empty slot. After either no memory is held.
    pub fn open<K: Keeper>(alloc: Global, keeper: &K) -> Result<MarkTable<FIRST, SLOTS>, OpenFault>
        requires { SLOTS ≡ slots_of FIRST SLOTS }
        ensures table { IsOpened result (opened (layout FIRST SLOTS) (K.store keeper.now).records) }
        ensures reading { IfOk result (λ table. IsReading (layout FIRST SLOTS) table (K.store keeper.now).records) }
        ensures bad { IfErr result (IsFault (IsBad (layout FIRST SLOTS) (K.store keeper.now).records)) }
        ensures kept { IfOk result (λ table. AgreesWith FIRST SLOTS table (K.store keeper.now).records) }
        // Marks that were kept are opened again, each at its stored mark.
        ensures reopened { Reopens (layout FIRST SLOTS) (K.store keeper.now).records result }
    {
        let table = SlotTable::open(alloc, keeper)?;
        Ok(MarkTable { table })
    }

    /// The same, into a table that there is already: it takes no memory. After an error it holds no address.
    pub fn reload<K: Keeper>(&mut self, keeper: &K) -> Result<(), BadStore>
        ensures table { read_into result self.new ≡ opened (layout FIRST SLOTS) (K.store keeper.now).records }
        ensures reading { OnOk result (IsReading (layout FIRST SLOTS) self.new (K.store keeper.now).records) }
        ensures bad { IfErr result (λ bad. IsBad (layout FIRST SLOTS) (K.store keeper.now).records bad.slot) }
        ensures none { OnErr result (self.new ≡ []) }
        ensures kept { OnOk result (AgreesWith FIRST SLOTS self.new (K.store keeper.now).records) }
        // Marks that were kept are opened again, each at its stored mark.
        ensures reopened { ReopensInto (layout FIRST SLOTS) (K.store keeper.now).records result self.new }
    {
        self.table.reload(keeper)
    }

    /// The mark of an address, None exactly where it is not held.
    pub fn mark(&self, address: Short) -> Option<u32>
        ensures { result ≡ mark_of FIRST SLOTS self.now address }
    {
        let place = self.table.place_of(address.key())?;
        Some(self.table.get(place).mark)
    }

    /// The entries in the order of their slots: no two of one address, at most `SLOTS`, and no mark above the stored one.
    pub fn entries(&self) -> &[Mark<FIRST, SLOTS>]
        ensures value { result.now ≡ self.now }
        ensures table { IsTable (layout FIRST SLOTS) self.now }
        ensures covered { IsCovered FIRST SLOTS self.now }
    {
        self.table.as_slice()
    }

    /// Whether a number would be admitted.
    ///
    /// The fault `low` exactly where the address is held and `number` is not above its mark. The fault `full` exactly for an
    /// address that is not held where each slot has a mark.
    pub fn room<F: Copy>(&self, address: Short, number: u32, low: F, full: F) -> Result<(), F>
        ensures { result ≡ room_for FIRST SLOTS low full self.now address number }
    {
        match self.table.place_of(address.key()) {
            Some(place) if number <= self.table.get(place).mark => Err(low),
            None if self.table.is_full() => Err(full),
            _ => Ok(()),
        }
    }

    /// Makes `number` the mark of an address, where there is room for it. Where the address is new or `number` is above its
    /// stored mark, the smaller of number + `MARKS_AHEAD` and 4,294,967,295 is stored first.
    ///
    /// Only a failed put is an error. The marks are then as they were, but may not be used until they are opened again.
    pub fn keep<K: Keeper>(
        &mut self,
        keeper: &mut K,
        address: Short,
        number: u32,
    ) -> Result<(), Failed>
        requires room { has_room FIRST SLOTS self.old address number ≡ true }
        requires kept { AgreesWith FIRST SLOTS self.old (K.store keeper.old).records }
        ensures table { OnOk result (self.new ≡ kept_after FIRST SLOTS self.old address number) }
        ensures same { OnErr result (self.new ≡ self.old) }
        ensures store { Stores (K.store keeper.old) (keep_write FIRST SLOTS self.old address number) (is_ok result)
            (K.store keeper.new) }
        ensures kept { OnOk result (AgreesWith FIRST SLOTS self.new (K.store keeper.new).records) }
        // Whatever became of the put, the records are those of the marks before or of those after.
        ensures either { IsOldOrNew (AgreesWith FIRST SLOTS) self.old (kept_after FIRST SLOTS self.old address number)
            (K.store keeper.new).records }
        ensures elsewhere { OutsideStays FIRST (last_of (layout FIRST SLOTS)) (K.store keeper.old)
            (K.store keeper.new) }
    {
        match self.table.place_of(address.key()) {
            Some(place) => {
                let entry = self.table.get(place);
                if number <= entry.stored {
                    let advanced = Mark {
                        mark: number,
                        ..entry
                    };
                    self.table.set_unstored(place, advanced);
                    Ok(())
                } else {
                    self.table
                        .set_stored(keeper, place, ahead_of(address, number))
                }
            }
            None => self.table.push_stored(keeper, ahead_of(address, number)),
        }
    }
}

// An entry whose stored mark is ahead of its number.
fn ahead_of<const FIRST: u32, const SLOTS: usize>(address: Short, number: u32) -> Mark<FIRST, SLOTS>
    ensures { result ≡ mark_ahead FIRST SLOTS address number }
{
    Mark {
        address,
        mark: number,
        stored: number.saturating_add(MARKS_AHEAD),
    }
}
