//! Two banks: the live one with the log, and the spare one to which the log is copied when it is full.
ghost use Rattle.std.specs.Prelude.{◌≡◌, ◌<◌, ◌≤◌, ◌+◌, ◌⊎◌, ℕ, OnOk, OnErr, IfOk, Some, None, true, false, is_ok, ◌^◌};
ghost use Rattle.std.specs.FinMap as map;
ghost use Rattle.std.specs.FinMap.{insert};
ghost use Rattle.flash_keeper.specs.Front.{no_front, HasFront, IsGrowing, IsFresh};
ghost use Rattle.flash_keeper.specs.Flash.{erased, IsBlank, Programs};
ghost use Rattle.flash_keeper.specs.Log.{place, room, upto, upto_fence, Choice, IsOneOf, IsSettled, IsLeft, IsClosable, AreCertain, SameBelow, AreDecided};
ghost use Rattle.flash_keeper.specs.Banks.{choice_of, AreLeft, AreReady, AreHeld, AreAmong, IsStore, IsLive, IsHeaded, IsDead, IsSeen, IsNumbered};
ghost use Rattle.flash_keeper.specs.Banks.{are_full, AreWornBoth};
ghost use Rattle.flash_keeper.specs.Wear.{is_done, one_if, AreWorn, IsWornSpare, Counts, Keeps};

use crate::bank::{FlashBank, HEAD, is_programmed};
use crate::cells::{cell_count, close_cell, first_blank, settle_before, write_cell};
use crate::copy::copy_records;
use crate::front::{Front, NO_FRONT, write_number};
use plc_base::{Failed, Record};
use std::mem::swap;

/// The generation of the first bank of a store. No bit that changes by itself makes a note (0) of it, or of a later one.
const FIRST: u64 = 0x6000_0000_0000_0000;

/// The banks of a store, with what is known of the live one.
#[derive(Drop)]
pub struct Pair<B: FlashBank + Drop> {
    /// The bank with the log.
    pub live: B,
    /// The other bank.
    pub spare: B,
    /// The front of the live bank.
    pub front: Front,
    /// The first cell of the log that was not written.
    pub next: usize,
    /// The number of the live bank, higher than that of the one before it.
    pub generation: u64,
    /// The front of the spare bank where it is a whole copy, beside which the live one was not retired.
    pub copied: Option<Front>,
}

/// The generation of a bank that reads as a live one.
pub fn generation_of<B: FlashBank>(bank: &B) -> Option<u64>
    ensures { IsSeen (B.bank bank.now) result }
{
    let head = bank.read(0);
    if head != HEAD {
        return None;
    }
    let mark = bank.read(2);
    if !is_programmed(mark) {
        return None;
    }
    Some(bank.read(1))
}

// Retires a bank: its head is 0 from then on. No reading takes it for a live one, and no erase that is cut short makes one of it.
fn retire<B: FlashBank>(bank: &mut B) -> Result<(), Failed>
    ensures programs { Programs 0 0 (is_ok result) (B.bank bank.old) (B.bank bank.new) }
    ensures failed { OnErr result (B.has_failed bank.new ≡ true) }
{
    bank.program(0, 0)
}

// Makes firm the mark of a bank that reads as a live one, or whose copy is done.
fn confirm<B: FlashBank>(bank: &mut B) -> Result<(), Failed>
    ensures programs { Programs 2 0 (is_ok result) (B.bank bank.old) (B.bank bank.new) }
    ensures failed { OnErr result (B.has_failed bank.new ≡ true) }
{
    bank.program(2, 0)
}

// Notes in a retired bank, at its generation, that its head is firmly 0 and the mark of the live one firm.
fn note<B: FlashBank>(bank: &mut B) -> Result<(), Failed>
    ensures programs { Programs 1 0 (is_ok result) (B.bank bank.old) (B.bank bank.new) }
    ensures failed { OnErr result (B.has_failed bank.new ≡ true) }
{
    bank.program(1, 0)
}

// Whether a bank reads as noted: no bank with its generation does.
fn is_noted<B: FlashBank>(bank: &B) -> bool
    ensures noted { result ≡ true → IsNumbered (B.bank bank.now) → ⊥ }
    ensures firm { (B.bank bank.now).torn ≡ false → (B.bank bank.now).words 1 ≡ Some 0 → result ≡ true }
{
    bank.read(1) == 0
}

/// Retires a bank, and erases it.
pub fn wipe<B: FlashBank>(bank: &mut B) -> Result<(), Failed>
    ensures blank { OnOk result (IsBlank (B.bank bank.new)) }
    ensures worn { OnErr result ((f : ℕ) → IsWornSpare f (B.bank bank.old) → IsWornSpare (f + 1) (B.bank bank.new)) }
    ensures dead { IsDead (B.bank bank.old) → OnErr result (IsDead (B.bank bank.new)) }
    ensures size { (B.bank bank.new).size ≡ (B.bank bank.old).size }
    ensures failed { OnErr result (B.has_failed bank.new ≡ true) }
{
    retire(bank)?;
    bank.erase()
}

// Retires and erases a bank, and writes its head, but for the mark.
fn begin<B: FlashBank>(bank: &mut B, generation: u64) -> Result<(), Failed>
    ensures head { OnOk result (IsHeaded (B.bank bank.new) generation) }
    ensures front { OnOk result (IsGrowing (B.bank bank.new) no_front) }
    ensures unmarked { OnOk result ((B.bank bank.new).words 2 ≡ Some erased) }
    ensures worn { OnErr result ((f : ℕ) → IsWornSpare f (B.bank bank.old) → IsWornSpare (f + 1) (B.bank bank.new)) }
    ensures dead { IsDead (B.bank bank.old) → OnErr result (IsDead (B.bank bank.new)) }
    ensures size { (B.bank bank.new).size ≡ (B.bank bank.old).size }
    ensures failed { OnErr result (B.has_failed bank.new ≡ true) }
{
    wipe(bank)?;
    bank.program(0, HEAD)?;
    bank.program(1, generation)
}

// Copies what the front and the first cells of a bank stand for to a bank that no reading takes for a live one, which then has a head but for its
// mark. It answers the front of that bank.
fn copy_to<B: FlashBank>(
    from: &B,
    front: Front,
    cells: usize,
    to: &mut B,
    generation: u64,
) -> Result<Front, Failed>
    requires front { HasFront (B.bank from.now) front }
    requires within { cells ≤ room front (B.bank from.now).size }
    requires firm { (B.bank from.now).torn ≡ false }
    requires certain { AreCertain front (B.bank from.now).words cells }
    requires dead { IsDead (B.bank to.old) }
    requires sizes { (B.bank from.now).size ≡ (B.bank to.old).size }
    ensures head { IfOk result (λ f. IsHeaded (B.bank to.new) generation) }
    ensures log { IfOk result (λ f. IsSettled f (B.bank to.new) 0) }
    ensures records { IfOk result (λ f. upto f (B.bank to.new).words 0 ≡ upto front (B.bank from.now).words cells) }
    ensures fresh { IfOk result (λ f. IsFresh f (B.bank to.new)) }
    ensures worn { OnErr result ((f : ℕ) → IsWornSpare f (B.bank to.old) → IsWornSpare (f + 1) (B.bank to.new)) }
    ensures dead { OnErr result (IsDead (B.bank to.new)) }
    ensures failed { OnErr result (B.has_failed to.new ≡ true) }
    ensures size { (B.bank to.new).size ≡ (B.bank to.old).size }
{
    begin(to, generation)?;
    copy_records(from, front, cells, to)
}

impl<B: FlashBank + Drop> Pair<B> {
    // Retires the live bank, of which the spare one is a copy with this front, and goes on with that.
    fn hand_over(&mut self, front: Front, generation: u64) -> Result<(), Failed>
        ensures live { OnOk result (B.bank self.new.live ≡ B.bank self.old.spare) }
        ensures spare { OnOk result (Programs 0 0 true (B.bank self.old.live) (B.bank self.new.spare)) }
        ensures front { OnOk result (self.new.front ≡ front) }
        ensures next { OnOk result (self.new.next ≡ 0) }
        ensures generation { OnOk result (self.new.generation ≡ generation) }
        ensures copied { OnOk result (self.new.copied ≡ None) }
        ensures same_spare { OnErr result (B.bank self.new.spare ≡ B.bank self.old.spare) }
        ensures same_live { OnErr result (Programs 0 0 false (B.bank self.old.live) (B.bank self.new.live)) }
        ensures same_front { OnErr result (self.new.front ≡ self.old.front) }
        ensures same_next { OnErr result (self.new.next ≡ self.old.next) }
        ensures same_copied { OnErr result (self.new.copied ≡ self.old.copied) }
        ensures failed { OnErr result ((B.has_failed self.new.live ≡ true) ⊎ (B.has_failed self.new.spare ≡ true)) }
    {
        retire(&mut self.live)?;
        swap(&mut self.live, &mut self.spare);
        self.front = front;
        self.next = 0;
        self.generation = generation;
        self.copied = None;
        Ok(())
    }

    // Copies the records of the first cells to the spare bank, which is then the live one, and retires the one that was.
    fn rewrite(&mut self, cells: usize) -> Result<(), Failed>
        requires number { IsNumbered (B.bank self.old.live) }
        requires mark { (B.bank self.old.live).words 2 ≡ Some 0 }
        requires front { HasFront (B.bank self.old.live) self.old.front }
        requires within { cells ≤ room self.old.front (B.bank self.old.live).size }
        requires certain { AreCertain self.old.front (B.bank self.old.live).words cells }
        requires spare { IsDead (B.bank self.old.spare) }
        requires sizes { (B.bank self.old.live).size ≡ (B.bank self.old.spare).size }
        requires fresh { self.old.copied ≡ None }
        ensures ready { OnOk result (AreReady self.new.front (B.bank self.new.live) (B.bank self.new.spare) self.new.next) }
        ensures fresh { OnOk result (self.new.copied ≡ None) }
        ensures head { OnOk result (IsLive (B.bank self.new.live) self.new.generation) }
        ensures later { OnOk result (self.old.generation + 1 < 2 ^ 64 → self.new.generation ≡ self.old.generation + 1) }
        ensures records { OnOk result (upto self.new.front (B.bank self.new.live).words self.new.next
            ≡ upto self.old.front (B.bank self.old.live).words cells) }
        ensures none { OnOk result (self.new.next ≡ 0) }
        ensures front { OnErr result (self.new.front ≡ self.old.front) }
        ensures next { OnErr result (self.new.next ≡ self.old.next) }
        ensures left { OnErr result ((n : ℕ) (c : Choice) → IsLeft self.old.front (B.bank self.old.live) n c
            → IsOneOf c (upto self.old.front (B.bank self.old.live).words cells)
            → AreLeft self.old.front (B.bank self.new.live) (B.bank self.new.spare) n c) }
        ensures held { OnErr result ((n : ℕ) (c : Choice) → IsLeft self.old.front (B.bank self.old.live) n c
            → IsOneOf (choice_of self.old.front (B.bank self.old.live) n) (upto self.old.front (B.bank self.old.live).words cells)
            → AreHeld self.old.front (B.bank self.new.live) (B.bank self.new.spare) n self.new.copied) }
        ensures same { OnErr result ((i : ℕ) → 3 ≤ i → (B.bank self.new.live).words i ≡ (B.bank self.old.live).words i) }
        ensures marked { OnOk result ((B.bank self.new.live).programs 2 ≤ 1) }
        ensures worn { OnOk result ((f : ℕ) → AreWorn self.old.front f (B.bank self.old.live) (B.bank self.old.spare)
            → AreWorn self.new.front f (B.bank self.new.live) (B.bank self.new.spare)) }
        ensures cut { OnErr result ((f : ℕ) → AreWorn self.old.front f (B.bank self.old.live) (B.bank self.old.spare)
            → AreWornBoth self.new.front (f + 1) (B.bank self.new.live) (B.bank self.new.spare)) }
        ensures failed { OnErr result ((B.has_failed self.new.live ≡ true) ⊎ (B.has_failed self.new.spare ≡ true)) }
    {
        let generation = self.generation.saturating_add(1);
        let front = copy_to(&self.live, self.front, cells, &mut self.spare, generation)?;
        confirm(&mut self.spare)?;
        self.copied = Some(front);
        self.hand_over(front, generation)?;
        Ok(())
    }

    /// Copies the records to the spare bank, and erases the one that was the live one: then no record that was replaced is left in either.
    pub fn purge(&mut self) -> Result<(), Failed>
        requires ready { AreReady self.old.front (B.bank self.old.live) (B.bank self.old.spare) self.old.next }
        requires fresh { self.old.copied ≡ None }
        ensures ready { OnOk result (AreReady self.new.front (B.bank self.new.live) (B.bank self.new.spare) self.new.next) }
        ensures fresh { OnOk result (self.new.copied ≡ None) }
        ensures blank { OnOk result (IsBlank (B.bank self.new.spare)) }
        ensures worn { OnOk result ((f : ℕ) → AreWorn self.old.front f (B.bank self.old.live) (B.bank self.old.spare)
            → AreWorn self.new.front f (B.bank self.new.live) (B.bank self.new.spare)) }
        ensures cut { OnErr result ((f : ℕ) → AreWorn self.old.front f (B.bank self.old.live) (B.bank self.old.spare)
            → AreWornBoth self.new.front (f + 1) (B.bank self.new.live) (B.bank self.new.spare)) }
        ensures none { OnOk result (self.new.next ≡ 0) }
        ensures records { upto self.new.front (B.bank self.new.live).words self.new.next ≡ upto self.old.front (B.bank self.old.live).words self.old.next }
        ensures held { OnErr result (AreHeld self.new.front (B.bank self.new.live) (B.bank self.new.spare) self.new.next self.new.copied) }
        ensures found { OnErr result (upto_fence self.new.front (B.bank self.new.live).words self.new.next
            ≡ upto self.old.front (B.bank self.old.live).words self.old.next) }
        ensures failed { OnErr result ((B.has_failed self.new.live ≡ true) ⊎ (B.has_failed self.new.spare ≡ true)) }
    {
        self.rewrite(self.next)?;
        wipe(&mut self.spare)
    }

    // Makes room for one more cell: where there is none, it copies the records to the spare bank.
    fn make_room(&mut self) -> Result<(), Failed>
        requires ready { AreReady self.old.front (B.bank self.old.live) (B.bank self.old.spare) self.old.next }
        requires fresh { self.old.copied ≡ None }
        ensures ready { OnOk result (AreReady self.new.front (B.bank self.new.live) (B.bank self.new.spare) self.new.next) }
        ensures fresh { OnOk result (self.new.copied ≡ None) }
        ensures room { OnOk result (self.new.next < room self.new.front (B.bank self.new.live).size) }
        ensures worn { OnOk result ((f : ℕ) → AreWorn self.old.front f (B.bank self.old.live) (B.bank self.old.spare)
            → AreWorn self.new.front f (B.bank self.new.live) (B.bank self.new.spare)) }
        ensures cut { OnErr result ((f : ℕ) → AreWorn self.old.front f (B.bank self.old.live) (B.bank self.old.spare)
            → AreWornBoth self.new.front (f + 1) (B.bank self.new.live) (B.bank self.new.spare)) }
        ensures records { upto self.new.front (B.bank self.new.live).words self.new.next ≡ upto self.old.front (B.bank self.old.live).words self.old.next }
        ensures held { OnErr result (AreHeld self.new.front (B.bank self.new.live) (B.bank self.new.spare) self.new.next self.new.copied) }
        ensures found { OnErr result (upto_fence self.new.front (B.bank self.new.live).words self.new.next
            ≡ upto self.old.front (B.bank self.old.live).words self.old.next) }
        ensures failed { OnErr result ((B.has_failed self.new.live ≡ true) ⊎ (B.has_failed self.new.spare ≡ true)
            ⊎ (are_full self.new.front (B.bank self.new.live) self.new.next ≡ true)) }
    {
        if self.next < cell_count(&self.live, self.front) {
            return Ok(());
        }
        self.rewrite(self.next)?;
        if self.next < cell_count(&self.live, self.front) {
            return Ok(());
        }
        Err(Failed)
    }

    // Writes a record to the end of the log.
    fn append(&mut self, slot: u32, octets: &Record) -> Result<(), Failed>
        requires ready { AreReady self.old.front (B.bank self.old.live) (B.bank self.old.spare) self.old.next }
        requires fresh { self.old.copied ≡ None }
        requires more { 0 < slot }
        requires fits { slot < 2 ^ 16 }
        requires room { self.old.next < room self.old.front (B.bank self.old.live).size }
        ensures ready { OnOk result (AreReady self.new.front (B.bank self.new.live) (B.bank self.new.spare) self.new.next) }
        ensures fresh { OnOk result (self.new.copied ≡ None) }
        ensures records { OnOk result (upto self.new.front (B.bank self.new.live).words self.new.next
            ≡ insert (upto self.old.front (B.bank self.old.live).words self.old.next) slot octets.now) }
        ensures held { OnErr result (AreHeld self.new.front (B.bank self.new.live) (B.bank self.new.spare) self.new.next self.new.copied) }
        ensures found { OnErr result ((upto_fence self.new.front (B.bank self.new.live).words self.new.next
            ≡ upto self.old.front (B.bank self.old.live).words self.old.next)
            ⊎ (upto_fence self.new.front (B.bank self.new.live).words self.new.next
            ≡ insert (upto self.old.front (B.bank self.old.live).words self.old.next) slot octets.now)) }
        ensures same { OnErr result (upto self.new.front (B.bank self.new.live).words self.new.next
            ≡ upto self.old.front (B.bank self.old.live).words self.old.next) }
        ensures worn { OnOk result ((f : ℕ) → AreWorn self.old.front f (B.bank self.old.live) (B.bank self.old.spare)
            → AreWorn self.new.front f (B.bank self.new.live) (B.bank self.new.spare)) }
        ensures cut { OnErr result ((f : ℕ) → AreWorn self.old.front f (B.bank self.old.live) (B.bank self.old.spare)
            → AreWornBoth self.new.front (f + 1) (B.bank self.new.live) (B.bank self.new.spare)) }
        ensures failed { OnErr result ((B.has_failed self.new.live ≡ true) ⊎ (B.has_failed self.new.spare ≡ true)) }
    {
        write_cell(&mut self.live, self.front, self.next, slot, octets)?;
        self.next += 1;
        Ok(())
    }

    /// Writes a record to the end of the log, and makes room for it before.
    pub fn put(&mut self, slot: u32, octets: &Record) -> Result<(), Failed>
        requires ready { AreReady self.old.front (B.bank self.old.live) (B.bank self.old.spare) self.old.next }
        requires fresh { self.old.copied ≡ None }
        requires more { 0 < slot }
        requires fits { slot < 2 ^ 16 }
        ensures ready { OnOk result (AreReady self.new.front (B.bank self.new.live) (B.bank self.new.spare) self.new.next) }
        ensures fresh { OnOk result (self.new.copied ≡ None) }
        ensures records { OnOk result (upto self.new.front (B.bank self.new.live).words self.new.next
            ≡ insert (upto self.old.front (B.bank self.old.live).words self.old.next) slot octets.now) }
        ensures held { OnErr result (AreHeld self.new.front (B.bank self.new.live) (B.bank self.new.spare) self.new.next self.new.copied) }
        ensures found { OnErr result ((upto_fence self.new.front (B.bank self.new.live).words self.new.next
            ≡ upto self.old.front (B.bank self.old.live).words self.old.next)
            ⊎ (upto_fence self.new.front (B.bank self.new.live).words self.new.next
            ≡ insert (upto self.old.front (B.bank self.old.live).words self.old.next) slot octets.now)) }
        ensures same { OnErr result (upto self.new.front (B.bank self.new.live).words self.new.next
            ≡ upto self.old.front (B.bank self.old.live).words self.old.next) }
        ensures worn { OnOk result ((f : ℕ) → AreWorn self.old.front f (B.bank self.old.live) (B.bank self.old.spare)
            → AreWorn self.new.front f (B.bank self.new.live) (B.bank self.new.spare)) }
        ensures cut { OnErr result ((f : ℕ) → AreWorn self.old.front f (B.bank self.old.live) (B.bank self.old.spare)
            → AreWornBoth self.new.front (f + 1) (B.bank self.new.live) (B.bank self.new.spare)) }
        ensures failed { OnErr result ((B.has_failed self.new.live ≡ true) ⊎ (B.has_failed self.new.spare ≡ true)
            ⊎ (are_full self.new.front (B.bank self.new.live) self.new.next ≡ true)) }
    {
        self.make_room()?;
        self.append(slot, octets)
    }

    // Closes the cell at which the log ends, which read as blank.
    fn finish_at(&mut self, at: usize) -> Result<(), Failed>
        requires firm { (B.bank self.old.live).torn ≡ false }
        requires fits { 4 + self.old.front.words ≤ (B.bank self.old.live).size }
        ensures settled { OnOk result ((c : Choice) → IsClosable self.old.front (B.bank self.old.live) at c
            → IsSettled self.new.front (B.bank self.new.live) self.new.next × IsOneOf c (upto self.new.front (B.bank self.new.live).words self.new.next)) }
        ensures left { OnErr result ((c : Choice) → IsClosable self.old.front (B.bank self.old.live) at c → IsLeft self.new.front (B.bank self.new.live) at c) }
        ensures firm { (B.bank self.new.live).torn ≡ false }
        ensures heads { SameBelow 3 (B.bank self.old.live) (B.bank self.new.live) }
        ensures size { (B.bank self.new.live).size ≡ (B.bank self.old.live).size }
        ensures spare { B.bank self.new.spare ≡ B.bank self.old.spare }
        ensures copied { self.new.copied ≡ self.old.copied }
        ensures counts { Counts (place self.old.front at) (place self.old.front at + 12) (B.bank self.old.live) (B.bank self.new.live) }
        ensures keeps { Keeps self.old.front (B.bank self.old.live) (B.bank self.new.live) }
        ensures done { OnOk result (at < room self.old.front (B.bank self.old.live).size → is_done self.old.front (B.bank self.new.live).words at ≡ true) }
        ensures at { OnOk result (at ≤ self.new.next) }
        ensures front { self.new.front ≡ self.old.front }
        ensures next { OnErr result (self.new.next ≡ self.old.next) }
        ensures failed { OnErr result ((B.has_failed self.new.live ≡ true) ⊎ (B.has_failed self.new.spare ≡ true)) }
    {
        let room = cell_count(&self.live, self.front);
        if at >= room {
            self.next = at;
            return Ok(());
        }
        close_cell(&mut self.live, self.front, at)?;
        self.next = at + 1;
        Ok(())
    }

    // Makes certain where the log ends.
    fn finish(&mut self) -> Result<(), Failed>
        requires number { IsNumbered (B.bank self.old.live) }
        requires mark { (B.bank self.old.live).words 2 ≡ Some 0 }
        requires log { (c : Choice) × (n : ℕ) × IsLeft self.old.front (B.bank self.old.live) n c }
        requires spare { IsDead (B.bank self.old.spare) }
        requires sizes { (B.bank self.old.live).size ≡ (B.bank self.old.spare).size }
        requires fresh { self.old.copied ≡ None }
        ensures ready { OnOk result (AreReady self.new.front (B.bank self.new.live) (B.bank self.new.spare) self.new.next) }
        ensures fresh { OnOk result (self.new.copied ≡ None) }
        ensures records { OnOk result ((c : Choice) (n : ℕ) → IsLeft self.old.front (B.bank self.old.live) n c
            → IsOneOf c (upto self.new.front (B.bank self.new.live).words self.new.next)) }
        ensures in_place { (c : Choice) (n : ℕ) → IsLeft self.old.front (B.bank self.old.live) n c → AreDecided self.old.front (B.bank self.old.live).words n
            → B.bank self.new.spare ≡ B.bank self.old.spare }
        ensures worn { OnOk result ((f : ℕ) → self.new.next < room self.new.front (B.bank self.new.live).size
            → AreWorn self.old.front f (B.bank self.old.live) (B.bank self.old.spare)
            → AreWorn self.new.front f (B.bank self.new.live) (B.bank self.new.spare)) }
        ensures once { (f : ℕ) → AreWorn self.old.front f (B.bank self.old.live) (B.bank self.old.spare)
            → AreWornBoth self.new.front (f + 1) (B.bank self.new.live) (B.bank self.new.spare) }
        ensures left { OnErr result ((c : Choice) (n : ℕ) → IsLeft self.old.front (B.bank self.old.live) n c
            → IsStore (B.bank self.new.live) (B.bank self.new.spare) c) }
        ensures held { OnErr result ((c : Choice) → IsLeft self.old.front (B.bank self.old.live) self.old.next c
            → AreHeld self.new.front (B.bank self.new.live) (B.bank self.new.spare) self.new.next self.new.copied
            × AreAmong c self.new.front (B.bank self.new.live) self.new.next) }
        ensures front { HasFront (B.bank self.new.live) self.new.front }
        ensures failed { OnErr result ((B.has_failed self.new.live ≡ true) ⊎ (B.has_failed self.new.spare ≡ true)) }
    {
        let at = first_blank(&self.live, self.front);
        let sure = settle_before(&mut self.live, self.front, at)?;
        if !sure {
            return self.rewrite(at - 1);
        }
        self.next = at;
        self.finish_at(at)
    }

    // Makes certain that the live bank is it, whose reading showed it as one, and that the other one is none, and notes that. Where it reads as
    // noted nothing is programmed.
    fn part(&mut self) -> Result<(), Failed>
        requires { (c : Choice) × (n : ℕ) × AreLeft self.old.front (B.bank self.old.live) (B.bank self.old.spare) n c }
        ensures mark { OnOk result ((B.bank self.new.live).words 2 ≡ Some 0) }
        ensures dead { OnOk result (IsDead (B.bank self.new.spare)) }
        ensures left { (n : ℕ) (c : Choice) → AreLeft self.old.front (B.bank self.old.live) (B.bank self.old.spare) n c
            → AreLeft self.new.front (B.bank self.new.live) (B.bank self.new.spare) n c }
        ensures noted { (B.bank self.old.spare).torn ≡ false → (B.bank self.old.spare).words 1 ≡ Some 0 → self.new ≡ self.old }
        ensures once { OnOk result ((self.new ≡ self.old) ⊎ ((B.bank self.new.spare).words 1 ≡ Some 0)) }
        ensures worn { OnOk result ((f : ℕ) → AreWorn self.old.front f (B.bank self.old.live) (B.bank self.old.spare)
            → AreWorn self.new.front (f + one_if (B.bank self.old.spare).torn) (B.bank self.new.live) (B.bank self.new.spare)) }
        ensures cut { OnErr result ((f : ℕ) → AreWornBoth self.old.front f (B.bank self.old.live) (B.bank self.old.spare)
            → AreWornBoth self.new.front (f + 1) (B.bank self.new.live) (B.bank self.new.spare)) }
        ensures cells { (i : ℕ) → 3 ≤ i → (B.bank self.new.live).words i ≡ (B.bank self.old.live).words i }
        ensures others { (i : ℕ) → 2 ≤ i → (B.bank self.new.spare).words i ≡ (B.bank self.old.spare).words i }
        ensures live_size { (B.bank self.new.live).size ≡ (B.bank self.old.live).size }
        ensures spare_size { (B.bank self.new.spare).size ≡ (B.bank self.old.spare).size }
        ensures front { self.new.front ≡ self.old.front }
        ensures next { self.new.next ≡ self.old.next }
        ensures copied { self.new.copied ≡ self.old.copied }
        ensures failed { OnErr result ((B.has_failed self.new.live ≡ true) ⊎ (B.has_failed self.new.spare ≡ true)) }
    {
        if is_noted(&self.spare) {
            return Ok(());
        }
        confirm(&mut self.live)?;
        retire(&mut self.spare)?;
        note(&mut self.spare)
    }

    /// Makes certain what a loss of power left of the banks: first that the live one is it, whose reading showed it as one, and that the
    /// other one is none; then where the log ends.
    pub fn settle(&mut self) -> Result<(), Failed>
        requires left { (c : Choice) × (n : ℕ) × AreLeft self.old.front (B.bank self.old.live) (B.bank self.old.spare) n c }
        requires sizes { (B.bank self.old.live).size ≡ (B.bank self.old.spare).size }
        requires fresh { self.old.copied ≡ None }
        ensures ready { OnOk result (AreReady self.new.front (B.bank self.new.live) (B.bank self.new.spare) self.new.next) }
        ensures fresh { OnOk result (self.new.copied ≡ None) }
        ensures records { OnOk result ((n : ℕ) (c : Choice) → AreLeft self.old.front (B.bank self.old.live) (B.bank self.old.spare) n c
            → IsOneOf c (upto self.new.front (B.bank self.new.live).words self.new.next)) }
        ensures in_place { (n : ℕ) (c : Choice) → AreLeft self.old.front (B.bank self.old.live) (B.bank self.old.spare) n c
            → AreDecided self.old.front (B.bank self.old.live).words n
            → (i : ℕ) → 2 ≤ i → (B.bank self.new.spare).words i ≡ (B.bank self.old.spare).words i }
        ensures worn { OnOk result ((f : ℕ) → self.new.next < room self.new.front (B.bank self.new.live).size
            → AreWorn self.old.front f (B.bank self.old.live) (B.bank self.old.spare)
            → AreWorn self.new.front (f + one_if (B.bank self.old.spare).torn) (B.bank self.new.live) (B.bank self.new.spare)) }
        ensures twice { (f : ℕ) → AreWornBoth self.old.front f (B.bank self.old.live) (B.bank self.old.spare)
            → AreWornBoth self.new.front (f + one_if (B.bank self.old.spare).torn + 1) (B.bank self.new.live) (B.bank self.new.spare) }
        ensures left { OnErr result ((n : ℕ) (c : Choice) → AreLeft self.old.front (B.bank self.old.live) (B.bank self.old.spare) n c
            → IsStore (B.bank self.new.live) (B.bank self.new.spare) c) }
        ensures held { OnErr result (AreLeft self.old.front (B.bank self.old.live) (B.bank self.old.spare) self.old.next
            (choice_of self.old.front (B.bank self.old.live) self.old.next)
            → AreHeld self.new.front (B.bank self.new.live) (B.bank self.new.spare) self.new.next self.new.copied
            × AreAmong (choice_of self.old.front (B.bank self.old.live) self.old.next) self.new.front (B.bank self.new.live) self.new.next) }
        ensures front { HasFront (B.bank self.new.live) self.new.front }
        ensures failed { OnErr result ((B.has_failed self.new.live ≡ true) ⊎ (B.has_failed self.new.spare ≡ true)) }
    {
        self.part()?;
        self.finish()
    }

    /// Makes certain what a failed program or erase left of the banks, of which it is known how many cells are certain. Where only the retirement of a
    /// bank failed whose copy is whole, it goes on with the copy.
    pub fn reopen(&mut self) -> Result<(), Failed>
        requires { AreHeld self.old.front (B.bank self.old.live) (B.bank self.old.spare) self.old.next self.old.copied }
        ensures ready { OnOk result (AreReady self.new.front (B.bank self.new.live) (B.bank self.new.spare) self.new.next) }
        ensures fresh { OnOk result (self.new.copied ≡ None) }
        ensures records { OnOk result (IsOneOf
            (choice_of self.old.front (B.bank self.old.live) self.old.next) (upto self.new.front (B.bank self.new.live).words self.new.next)) }
        ensures twice { (f : ℕ) → AreWornBoth self.old.front f (B.bank self.old.live) (B.bank self.old.spare)
            → AreWornBoth self.new.front (f + 2) (B.bank self.new.live) (B.bank self.new.spare) }
        ensures held { OnErr result (AreHeld self.new.front (B.bank self.new.live) (B.bank self.new.spare) self.new.next self.new.copied) }
        ensures among { OnErr result (AreAmong
            (choice_of self.old.front (B.bank self.old.live) self.old.next) self.new.front (B.bank self.new.live) self.new.next) }
        ensures failed { OnErr result ((B.has_failed self.new.live ≡ true) ⊎ (B.has_failed self.new.spare ≡ true)) }
    {
        let Some(front) = self.copied else {
            return self.settle();
        };
        self.hand_over(front, self.generation.saturating_add(1))?;
        Ok(())
    }

    /// Retires and erases both banks, and makes the live one a store with no record.
    pub fn format(&mut self) -> Result<(), Failed>
        requires sizes { (B.bank self.old.live).size ≡ (B.bank self.old.spare).size }
        requires fresh { self.old.copied ≡ None }
        ensures ready { OnOk result (AreReady self.new.front (B.bank self.new.live) (B.bank self.new.spare) self.new.next) }
        ensures fresh { OnOk result (self.new.copied ≡ None) }
        ensures records { OnOk result (upto self.new.front (B.bank self.new.live).words self.new.next ≡ map.empty) }
        ensures next { OnOk result (self.new.next ≡ 0) }
        ensures worn { OnOk result (AreWorn self.new.front 0 (B.bank self.new.live) (B.bank self.new.spare)) }
        ensures blank { OnOk result (IsBlank (B.bank self.new.spare)) }
        ensures failed { OnErr result ((B.has_failed self.new.live ≡ true) ⊎ (B.has_failed self.new.spare ≡ true)) }
    {
        wipe(&mut self.spare)?;
        begin(&mut self.live, FIRST)?;
        write_number(&mut self.live, NO_FRONT)?;
        confirm(&mut self.live)?;
        self.front = NO_FRONT;
        self.next = 0;
        self.generation = FIRST;
        Ok(())
    }
}
