//! The marks of the senders: the counter that was last admitted of each.
ghost use Rattle.std.specs.Prelude.{◌≡◌, [], Ok, Some, List, is_ok, IfOk, IfErr, OnOk, OnErr, map, IsSorted, IsPermutation};
ghost use Rattle.std.specs.Bool.{OnTrue};
ghost use Rattle.std.specs.Ordering.{nat_cmp};
ghost use Rattle.plc_base.specs.Keeper.{Stores, OutsideStays, IsOldOrNew};
ghost use Rattle.store_tables.specs.SlotTables.{IsTable, IsReading, IsBad, Reopens, ReopensInto, opened, read_into};
ghost use Rattle.store_tables.specs.OpenFaults.{IsOpened, IsFault};
ghost use Rattle.store_tables.specs.AdmittedNumbers.{Admitted, AllEarlier};
ghost use Rattle.frame_counters.specs.Admitted.{Admits};
ghost use Rattle.frame_counters.specs.PeerMarks.{Table, peers, AgreesWith, IsCovered, mark_of, room_for, keep_write, kept_after, admit_result, admit_write};
ghost use Rattle.frame_counters.specs.PeerMarks.{admit_after, is_stored};

use crate::PeerFault;
use arrayvec::ArrayVec;
use plc_base::{BadStore, Failed, Keeper, Short};
use std::alloc::Global;
use std::marker::Model;
use store_tables::{Mark, MarkTable, OpenFault};

/// One sender: the counter that was last admitted of it, and the mark that is stored, which is no lower.
pub type PeerMark = Mark<0x0100, 64>;

/// The counter that was last admitted of each sender. The stored marks are ahead of it, so that no counter is admitted
/// twice, also over losses of power, and most frames cost no put (IEEE 802.15.4-2006, 7.5.8.2.3).
///
/// `open` takes the memory for 64 senders, some 900 octets, and no other call takes any.
///
/// A contract sees the list of the senders in the order of their slots.
#[derive(Drop, Debug)]
pub struct PeerMarks {
    marks: MarkTable<0x0100, 64>,
}

impl Model for PeerMarks {
    ghost use Rattle.frame_counters.specs.PeerMarks.{Table, table_code, IsCovered};

    ghost Value = { Table };

    ghost coded = { table_code };

    ghost view = { λ m. m.marks };

    ghost invariant = { λ m. IsCovered m.marks };
}

impl PeerMarks {
    /// The marks that the records from slot 0100 on give, up to the first empty slot. Each mark is the stored one.
    ///
    /// Memory where there is none for 64 marks. BadStore exactly where one of these records has not 6 octets, has an address above FFFD,
    /// or is a second one of an address, or a record stands behind the first empty slot. After either no memory is held.
    pub fn open<K: Keeper>(alloc: Global, keeper: &K) -> Result<PeerMarks, OpenFault>
        ensures table { IsOpened result (opened peers (K.store keeper.now).records) }
        ensures reading { IfOk result (λ table. IsReading peers table (K.store keeper.now).records) }
        ensures bad { IfErr result (IsFault (IsBad peers (K.store keeper.now).records)) }
        ensures kept { IfOk result (λ table. AgreesWith table (K.store keeper.now).records) }
        // Marks that were kept are opened again, each at its stored mark.
        ensures reopened { Reopens peers (K.store keeper.now).records result }
    {
        let marks = MarkTable::open(alloc, keeper)?;
        Ok(PeerMarks { marks })
    }

    /// The same, into marks that there are already: it takes no memory. After an error no sender is held.
    pub fn reload<K: Keeper>(&mut self, keeper: &K) -> Result<(), BadStore>
        ensures table { read_into result self.new ≡ opened peers (K.store keeper.now).records }
        ensures reading { OnOk result (IsReading peers self.new (K.store keeper.now).records) }
        ensures bad { IfErr result (λ bad. IsBad peers (K.store keeper.now).records bad.slot) }
        ensures none { OnErr result (self.new ≡ []) }
        ensures kept { OnOk result (AgreesWith self.new (K.store keeper.now).records) }
        ensures reopened { ReopensInto peers (K.store keeper.now).records result self.new }
    {
        self.marks.reload(keeper)
    }

    /// The mark of a sender, None exactly where it is not held.
    pub fn mark(&self, from: Short) -> Option<u32>
        ensures { result ≡ mark_of self.now from }
    {
        self.marks.mark(from)
    }

    /// The senders in the order of their slots: no two of one address, at most 64, and no mark above the stored one.
    pub fn entries(&self) -> &[PeerMark]
        ensures value { result.now ≡ self.now }
        ensures table { IsTable peers self.now }
        ensures covered { IsCovered self.now }
    {
        self.marks.entries()
    }

    /// The senders that are held, in ascending order: no two of one address.
    pub fn senders(&self) -> ArrayVec<Short, 64>
        ensures sorted { IsSorted nat_cmp result.items }
        ensures same { IsPermutation (map (λ peer. peer.address) self.now) result.items }
        ensures table { IsTable peers self.now }
    {
        let mut senders = ArrayVec::new();
        for peer in self.marks.entries() {
            senders.push(peer.address);
        }
        senders.sort_unstable();
        senders
    }

    /// Whether a counter would be admitted.
    ///
    /// Replayed exactly where the sender is held and `counter` is not above its mark. PeersFull exactly for a sender that is
    /// not held with 64 held.
    pub fn room(&self, from: Short, counter: u32) -> Result<(), PeerFault>
        ensures { result ≡ room_for self.now from counter }
    {
        self.marks
            .room(from, counter, PeerFault::Replayed, PeerFault::PeersFull)
    }

    /// Makes `counter` the mark of a sender, where there is room for it. Where the sender is new or `counter` is above its
    /// stored mark, the smaller of counter + `MARKS_AHEAD` and 4,294,967,295 is stored first.
    ///
    /// Only a failed put is an error. The marks are then as they were, but may not be used until they are opened again.
    pub fn keep<K: Keeper>(
        &mut self,
        keeper: &mut K,
        from: Short,
        counter: u32,
    ) -> Result<(), Failed>
        requires room { room_for self.old from counter ≡ Ok tt }
        requires kept { AgreesWith self.old (K.store keeper.old).records }
        ensures table { OnOk result (self.new ≡ kept_after self.old from counter) }
        ensures same { OnErr result (self.new ≡ self.old) }
        ensures store { Stores (K.store keeper.old) (keep_write self.old from counter) (is_ok result)
            (K.store keeper.new) }
        ensures kept { OnOk result (AgreesWith self.new (K.store keeper.new).records) }
        // Whatever became of the put, the records are those of the marks before or of those after.
        ensures either { IsOldOrNew AgreesWith self.old (kept_after self.old from counter) (K.store keeper.new).records }
        ensures elsewhere { OutsideStays 0x0100 0x013F (K.store keeper.old) (K.store keeper.new) }
    {
        self.marks.keep(keeper, from, counter)
    }

    /// Admits a counter of a sender: its mark is then `counter`. Where the sender is new or `counter` is above its stored
    /// mark, the smaller of counter + `MARKS_AHEAD` and 4,294,967,295 is stored first.
    ///
    /// Replayed exactly where the sender is held and `counter` is not above its mark. PeersFull exactly for a sender that is
    /// not held with 64 held. Store where that put failed, and then the marks may not be used until they are opened again.
    /// After each error the marks are as they were.
    pub fn admit<K: Keeper>(
        &mut self,
        keeper: &mut K,
        from: Short,
        counter: u32,
    ) -> Result<(), PeerFault>
        requires { AgreesWith self.old (K.store keeper.old).records }
        ensures answer { result ≡ admit_result self.old from counter (is_stored result) }
        // It is above all that was admitted of the sender before, over any frames, failed puts and new starts.
        ensures fresh { (before : List Admitted) → Admits before (Some self.old) (K.store keeper.old).records
            → OnOk result (AllEarlier from counter before) }
        ensures table { self.new ≡ admit_after self.old from counter (is_stored result) }
        ensures store { Stores (K.store keeper.old) (admit_write self.old from counter) (is_stored result)
            (K.store keeper.new) }
        ensures kept { OnTrue (is_stored result) (AgreesWith self.new (K.store keeper.new).records) }
        ensures either { IsOldOrNew AgreesWith self.old (kept_after self.old from counter) (K.store keeper.new).records }
        ensures elsewhere { OutsideStays 0x0100 0x013F (K.store keeper.old) (K.store keeper.new) }
    {
        match self.room(from, counter) {
            Ok(()) => self
                .keep(keeper, from, counter)
                .map_err(|_| PeerFault::Store),
            Err(fault) => Err(fault),
        }
    }
}
