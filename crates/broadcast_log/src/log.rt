//! What a node keeps of broadcasts.
ghost use Rattle.std.specs.Prelude.{◌≡◌, ◌+◌, Ok, Some, List, ℕ, IfOk, IfErr, OnOk, OnErr};
ghost use Rattle.std.specs.Bool.{OnTrue};
ghost use Rattle.plc_base.specs.Keeper.{Stores, OutsideStays, IsOldOrNew};
ghost use Rattle.store_tables.specs.SlotTables.{IsTable, read_into};
ghost use Rattle.store_tables.specs.OpenFaults.{IsOpened, IsFault};
ghost use Rattle.store_tables.specs.Numberings.{AllBelow};
ghost use Rattle.store_tables.specs.AdmittedNumbers.{Admitted, AllEarlier};
ghost use Rattle.broadcast_log.specs.OriginMarks.{marks, IsCovered, mark_of, room_for};
ghost use Rattle.broadcast_log.specs.Log.{Log, empty_log, AgreesWith, IsBad, Reopens, opened, next_result, next_write, next_after, numbered_log, admit_result};
ghost use Rattle.broadcast_log.specs.Log.{admit_write, admit_after, admitted_log, is_stored};
ghost use Rattle.broadcast_log.specs.Runs.{Runs};
ghost use Rattle.plc_base.specs.declared.limits.TheConstants.{GREATEST_COUNTER};

use crate::LogFault;
use plc_base::{BadStore, Keeper, Short};
use std::alloc::{AllocError, Global};
use std::marker::Model;
use store_tables::{Mark, MarkTable, Numbering, OpenFault};

/// How far the limit that is stored is raised ahead of the numbers of broadcasts that are given out (a rule of this network).
pub const BROADCASTS_AHEAD: u32 = 32;

/// One origin: the number that was last admitted of it, and the mark that is stored, which is no lower.
pub type OriginMark = Mark<0x0300, 32>;

/// Numbers the broadcasts that a node sends, and hands each broadcast of another node up at most once, over restarts and
/// losses of power: what it has given out and admitted is stored ahead, at the slots 6 and 0300 to 031F (hexadecimal).
///
/// `new` and `open` take the memory for 32 origins, some 450 octets, and no other call takes any.
///
/// A contract sees the limit and the next number, and the list of the origins in the order of their slots. After `Store` the
/// log may not be used until it is opened again.
#[derive(Drop, Debug)]
pub struct BroadcastLog {
    numbering: Numbering<6, 4, 0, BROADCASTS_AHEAD>,
    marks: MarkTable<0x0300, 32>,
}

impl Model for BroadcastLog {
    ghost use Rattle.broadcast_log.specs.Log.{Log, log_code};

    ghost Value = { Log };

    ghost coded = { log_code };

    ghost view = { λ l. record { numbering = l.numbering; marks = l.marks } };
}

impl BroadcastLog {
    /// The log of an empty store: the first number is 0, and no origin is held. It fails only where there is no memory for 32 origins.
    pub fn new(alloc: Global) -> Result<BroadcastLog, AllocError>
        ensures { IfOk result (λ log. log ≡ empty_log) }
    {
        let marks = MarkTable::new(alloc)?;
        Ok(BroadcastLog {
            numbering: Numbering::new(),
            marks,
        })
    }

    /// Makes it the log of an empty store. Its memory stays.
    pub fn clear(&mut self)
        ensures { self.new ≡ empty_log }
    {
        self.numbering = Numbering::new();
        self.marks.clear();
    }

    /// The log that the keeper's records give: the next number is the stored limit, 0 where none is stored, and the origins
    /// are those from slot 0300 on, up to the first empty slot, each mark the stored one.
    ///
    /// Memory where there is none for 32 origins. BadStore exactly where the record at slot 6 has another length than 4 octets, or, after
    /// that, where one of the marks has not 6 octets, has an address above FFFD, or is a second one of an address, or stands behind the
    /// first empty slot. After either no memory is held.
    pub fn open<K: Keeper>(alloc: Global, keeper: &K) -> Result<BroadcastLog, OpenFault>
        ensures log { IsOpened result (opened (K.store keeper.now).records) }
        ensures bad { IfErr result (IsFault (IsBad (K.store keeper.now).records)) }
        ensures kept { IfOk result (λ log. AgreesWith log (K.store keeper.now).records) }
        // A log that was kept is opened again, at its limit and with each mark the stored one.
        ensures reopened { Reopens (K.store keeper.now).records result }
    {
        let numbering = Numbering::open(keeper)?;
        let marks = MarkTable::open(alloc, keeper)?;
        Ok(BroadcastLog { numbering, marks })
    }

    /// The same, into a log that there is already: it takes no memory. After an error it is the log of an empty store.
    pub fn reload<K: Keeper>(&mut self, keeper: &K) -> Result<(), BadStore>
        ensures log { read_into result self.new ≡ opened (K.store keeper.now).records }
        ensures bad { IfErr result (λ bad. IsBad (K.store keeper.now).records bad.slot) }
        ensures none { OnErr result (self.new ≡ empty_log) }
        ensures kept { OnOk result (AgreesWith self.new (K.store keeper.now).records) }
    {
        self.clear();
        let numbering = Numbering::open(keeper)?;
        self.marks.reload(keeper)?;
        self.numbering = numbering;
        Ok(())
    }

    /// How many numbers are left: 4,294,967,295 minus the next one.
    pub fn number_left(&self) -> u32
        ensures { result + self.now.numbering.next ≡ GREATEST_COUNTER }
    {
        self.numbering.left()
    }

    /// The mark of an origin, None exactly where it is not held.
    pub fn mark(&self, origin: Short) -> Option<u32>
        ensures { result ≡ mark_of self.now.marks origin }
    {
        self.marks.mark(origin)
    }

    /// The origins in the order of their slots: no two of one address, at most 32, and no mark above the stored one.
    pub fn origins(&self) -> &[OriginMark]
        ensures value { result.now ≡ self.now.marks }
        ensures table { IsTable marks self.now.marks }
        ensures covered { IsCovered self.now.marks }
    {
        self.marks.entries()
    }

    /// Gives out the number of the next broadcast. Where it equals the limit, the smaller of limit + `BROADCASTS_AHEAD` and 4,294,967,295 is
    /// stored first.
    ///
    /// NumberSpent exactly where none is left. Store where that put failed. After each error the log is as it was.
    pub fn next<K: Keeper>(&mut self, keeper: &mut K) -> Result<u32, LogFault>
        requires { AgreesWith self.old (K.store keeper.old).records }
        ensures answer { result ≡ next_result self.old (is_stored result) }
        // It is above all that was given out before, over any calls, failed puts and new starts.
        ensures fresh { (given : List ℕ) → (before : List Admitted)
            → Runs given before (Some self.old) (K.store keeper.old).records
            → IfOk result (λ number. AllBelow number given) }
        ensures log { self.new ≡ next_after self.old (is_stored result) }
        ensures store { Stores (K.store keeper.old) (next_write self.old) (is_stored result) (K.store keeper.new) }
        ensures kept { OnTrue (is_stored result) (AgreesWith self.new (K.store keeper.new).records) }
        // Whatever became of the put, the records are those of the log before or of the log after.
        ensures either { IsOldOrNew AgreesWith self.old (numbered_log self.old) (K.store keeper.new).records }
        ensures elsewhere { OutsideStays 6 6 (K.store keeper.old) (K.store keeper.new) }
    {
        if self.numbering.left() == 0 {
            return Err(LogFault::NumberSpent);
        }
        let Ok(number) = self.numbering.reserve(keeper, 1) else {
            return Err(LogFault::Store);
        };
        Ok(number)
    }

    /// Whether a broadcast would be admitted.
    ///
    /// Old exactly where the origin is held and `number` is not above its mark. OriginsFull exactly for an origin that is not
    /// held with 32 held.
    pub fn room(&self, origin: Short, number: u32) -> Result<(), LogFault>
        ensures { result ≡ room_for self.now.marks origin number }
    {
        self.marks
            .room(origin, number, LogFault::Old, LogFault::OriginsFull)
    }

    /// Admits a broadcast: `number` is then the mark of its origin. Where the origin is new or `number` is above its stored
    /// mark, the smaller of number + `MARKS_AHEAD` and 4,294,967,295 is stored first.
    ///
    /// Old and OriginsFull exactly as `room` answers them, and Store where that put failed. After each error the log is as it
    /// was.
    pub fn admit<K: Keeper>(
        &mut self,
        keeper: &mut K,
        origin: Short,
        number: u32,
    ) -> Result<(), LogFault>
        requires { AgreesWith self.old (K.store keeper.old).records }
        ensures answer { result ≡ admit_result self.old origin number (is_stored result) }
        // It is above all that was admitted of the origin before, over any calls, failed puts and new starts.
        ensures fresh { (given : List ℕ) → (before : List Admitted)
            → Runs given before (Some self.old) (K.store keeper.old).records
            → OnOk result (AllEarlier origin number before) }
        ensures log { self.new ≡ admit_after self.old origin number (is_stored result) }
        ensures store { Stores (K.store keeper.old) (admit_write self.old origin number) (is_stored result)
            (K.store keeper.new) }
        ensures kept { OnTrue (is_stored result) (AgreesWith self.new (K.store keeper.new).records) }
        ensures either { IsOldOrNew AgreesWith self.old (admitted_log self.old origin number) (K.store keeper.new).records }
        ensures elsewhere { OutsideStays 0x0300 0x031F (K.store keeper.old) (K.store keeper.new) }
    {
        match self
            .marks
            .room(origin, number, LogFault::Old, LogFault::OriginsFull)
        {
            Ok(()) => self
                .marks
                .keep(keeper, origin, number)
                .map_err(|_| LogFault::Store),
            Err(fault) => Err(fault),
        }
    }
}
