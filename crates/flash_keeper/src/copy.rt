//! Copies of what a bank stands for: each record once, in the front of another bank.
ghost use Rattle.std.specs.Prelude.{◌≡◌, ◌<◌, ◌≤◌, ◌+◌, ◌*◌, ◌-◌, true, false, OnErr, IfOk, None, ℕ, if◌then◌else◌};
ghost use Rattle.std.specs.FinMap as map;
ghost use Rattle.std.specs.FinMap.{insert};
ghost use Rattle.flash_keeper.specs.Records.{slot_at, length_at, octets_at, IsWhole};
ghost use Rattle.flash_keeper.specs.Front.{front_records, no_front, HasFront, IsGrowing, IsFresh};
ghost use Rattle.flash_keeper.specs.Log.{place, room, upto, front_kept, kept, holds_later, IsSettled, AreCertain, SameBelow};

use crate::bank::FlashBank;
use crate::cells::{BODY, is_marked, is_replaced, place_of};
use crate::front::{BEFORE, Front, NO_FRONT, words_of, write_number, write_to_front};
use crate::records::{is_right, length_of, record_of, slot_of};
use plc_base::Failed;

// Copies the record at a place, of so many words beside its head, to the end of a front.
fn copy_record<B: FlashBank>(
    from: &B,
    at: usize,
    words: usize,
    to: &mut B,
    next: Front,
) -> Result<Front, Failed>
    requires within { at + words < (B.bank from.now).size }
    requires few { words ≤ 8 }
    requires firm { (B.bank from.now).torn ≡ false }
    requires whole { IsWhole (B.bank from.now).words at words }
    requires fits { length_at (B.bank from.now).words at ≤ 8 * words }
    requires growing { IsGrowing (B.bank to.old) next }
    requires apart { map.get (front_records (B.bank to.old).words next.count) (slot_at (B.bank from.now).words at) ≡ None }
    requires room { 4 + next.words ≤ at }
    requires sizes { (B.bank from.now).size ≡ (B.bank to.old).size }
    ensures growing { IfOk result (λ f. IsGrowing (B.bank to.new) f) }
    ensures records { IfOk result (λ f. front_records (B.bank to.new).words f.count
        ≡ insert (front_records (B.bank to.old).words next.count) (slot_at (B.bank from.now).words at) (octets_at (B.bank from.now).words at words)) }
    ensures room { IfOk result (λ f. f.words ≤ next.words + 1 + words) }
    ensures once { OnErr result ((i : ℕ) → (B.bank to.new).programs i ≤ 1) }
    ensures heads { SameBelow 3 (B.bank to.old) (B.bank to.new) }
    ensures firm { (B.bank to.new).torn ≡ false }
    ensures size { (B.bank to.new).size ≡ (B.bank to.old).size }
    ensures failed { OnErr result (B.has_failed to.new ≡ true) }
{
    if !is_right(from, at, words) {
        return Err(Failed);
    }
    let octets = record_of(from, at, words);
    write_to_front(to, next, slot_of(from, at), &octets)
}

// Copies it unless one of the cells from `later` on has its slot.
fn copy_unless_replaced<B: FlashBank>(
    from: &B,
    front: Front,
    cells: usize,
    later: usize,
    at: usize,
    words: usize,
    to: &mut B,
    next: Front,
) -> Result<Front, Failed>
    requires before { later ≤ cells }
    requires cells { cells ≤ room front (B.bank from.now).size }
    requires certain { AreCertain front (B.bank from.now).words cells }
    requires within { at + words < (B.bank from.now).size }
    requires few { words ≤ 8 }
    requires firm { (B.bank from.now).torn ≡ false }
    requires whole { IsWhole (B.bank from.now).words at words }
    requires fits { length_at (B.bank from.now).words at ≤ 8 * words }
    requires growing { IsGrowing (B.bank to.old) next }
    requires apart { holds_later front (B.bank from.now).words later (cells - later) (slot_at (B.bank from.now).words at) ≡ false
        → map.get (front_records (B.bank to.old).words next.count) (slot_at (B.bank from.now).words at) ≡ None }
    requires room { 4 + next.words ≤ at }
    requires sizes { (B.bank from.now).size ≡ (B.bank to.old).size }
    ensures growing { IfOk result (λ f. IsGrowing (B.bank to.new) f) }
    ensures records { IfOk result (λ f. front_records (B.bank to.new).words f.count
        ≡ (if holds_later front (B.bank from.now).words later (cells - later) (slot_at (B.bank from.now).words at)
        then front_records (B.bank to.old).words next.count
        else insert (front_records (B.bank to.old).words next.count) (slot_at (B.bank from.now).words at) (octets_at (B.bank from.now).words at words))) }
    ensures room { IfOk result (λ f. f.words ≤ next.words + 1 + words) }
    ensures once { OnErr result ((i : ℕ) → (B.bank to.new).programs i ≤ 1) }
    ensures heads { SameBelow 3 (B.bank to.old) (B.bank to.new) }
    ensures firm { (B.bank to.new).torn ≡ false }
    ensures size { (B.bank to.new).size ≡ (B.bank to.old).size }
    ensures failed { OnErr result (B.has_failed to.new ≡ true) }
{
    if is_replaced(from, front, later, cells, slot_of(from, at)) {
        return Ok(next);
    }
    copy_record(from, at, words, to, next)
}

// Copies the records of a front to a bank without any, but for those of which one of the first cells has the slot.
fn copy_front<B: FlashBank>(
    from: &B,
    front: Front,
    cells: usize,
    to: &mut B,
) -> Result<Front, Failed>
    requires firm { (B.bank from.now).torn ≡ false }
    requires front { HasFront (B.bank from.now) front }
    requires cells { cells ≤ room front (B.bank from.now).size }
    requires certain { AreCertain front (B.bank from.now).words cells }
    requires growing { IsGrowing (B.bank to.old) no_front }
    requires sizes { (B.bank from.now).size ≡ (B.bank to.old).size }
    ensures growing { IfOk result (λ f. IsGrowing (B.bank to.new) f) }
    ensures records { IfOk result (λ f. front_records (B.bank to.new).words f.count ≡ front_kept front (B.bank from.now).words cells front.count) }
    ensures room { IfOk result (λ f. f.words ≤ front.words) }
    ensures once { OnErr result ((i : ℕ) → (B.bank to.new).programs i ≤ 1) }
    ensures heads { SameBelow 3 (B.bank to.old) (B.bank to.new) }
    ensures firm { (B.bank to.new).torn ≡ false }
    ensures size { (B.bank to.new).size ≡ (B.bank to.old).size }
    ensures failed { OnErr result (B.has_failed to.new ≡ true) }
{
    let mut next = NO_FRONT;
    let mut at = BEFORE;
    let mut i = 0;
    while i < front.count {
        let words = words_of(length_of(from, at));
        next = copy_unless_replaced(from, front, cells, 0, at, words, to, next)?;
        at += 1 + words;
        i += 1;
    }
    Ok(next)
}

// Copies the record of a cell to the end of a front, if it counts, and no later one of the first cells has its slot.
fn copy_cell<B: FlashBank>(
    from: &B,
    front: Front,
    cell: usize,
    cells: usize,
    to: &mut B,
    next: Front,
) -> Result<Front, Failed>
    requires before { cell < cells }
    requires within { cells ≤ room front (B.bank from.now).size }
    requires firm { (B.bank from.now).torn ≡ false }
    requires certain { AreCertain front (B.bank from.now).words cells }
    requires growing { IsGrowing (B.bank to.old) next }
    requires records { front_records (B.bank to.old).words next.count ≡ kept front (B.bank from.now).words cells cell }
    requires room { 4 + next.words ≤ place front cell }
    requires sizes { (B.bank from.now).size ≡ (B.bank to.old).size }
    ensures growing { IfOk result (λ f. IsGrowing (B.bank to.new) f) }
    ensures records { IfOk result (λ f. front_records (B.bank to.new).words f.count ≡ kept front (B.bank from.now).words cells (cell + 1)) }
    ensures room { IfOk result (λ f. 4 + f.words ≤ place front (cell + 1)) }
    ensures once { OnErr result ((i : ℕ) → (B.bank to.new).programs i ≤ 1) }
    ensures heads { SameBelow 3 (B.bank to.old) (B.bank to.new) }
    ensures firm { (B.bank to.new).torn ≡ false }
    ensures size { (B.bank to.new).size ≡ (B.bank to.old).size }
    ensures failed { OnErr result (B.has_failed to.new ≡ true) }
{
    if !is_marked(from, front, cell) {
        return Ok(next);
    }
    copy_unless_replaced(
        from,
        front,
        cells,
        cell + 1,
        place_of(front, cell),
        BODY,
        to,
        next,
    )
}

// Copies the records of the first cells behind those of the front.
fn copy_cells<B: FlashBank>(
    from: &B,
    front: Front,
    cells: usize,
    to: &mut B,
    next: Front,
) -> Result<Front, Failed>
    requires firm { (B.bank from.now).torn ≡ false }
    requires within { cells ≤ room front (B.bank from.now).size }
    requires certain { AreCertain front (B.bank from.now).words cells }
    requires growing { IsGrowing (B.bank to.old) next }
    requires records { front_records (B.bank to.old).words next.count ≡ front_kept front (B.bank from.now).words cells front.count }
    requires room { next.words ≤ front.words }
    requires sizes { (B.bank from.now).size ≡ (B.bank to.old).size }
    ensures growing { IfOk result (λ f. IsGrowing (B.bank to.new) f) }
    ensures records { IfOk result (λ f. front_records (B.bank to.new).words f.count ≡ upto front (B.bank from.now).words cells) }
    ensures once { OnErr result ((i : ℕ) → (B.bank to.new).programs i ≤ 1) }
    ensures heads { SameBelow 3 (B.bank to.old) (B.bank to.new) }
    ensures firm { (B.bank to.new).torn ≡ false }
    ensures size { (B.bank to.new).size ≡ (B.bank to.old).size }
    ensures failed { OnErr result (B.has_failed to.new ≡ true) }
{
    let mut next = next;
    let mut cell = 0;
    while cell < cells {
        next = copy_cell(from, front, cell, cells, to, next)?;
        cell += 1;
    }
    Ok(next)
}

/// Copies what the front and the first cells of a bank stand for to the front of another one, which has none, and writes its number. It answers that front.
pub fn copy_records<B: FlashBank>(
    from: &B,
    front: Front,
    cells: usize,
    to: &mut B,
) -> Result<Front, Failed>
    requires firm { (B.bank from.now).torn ≡ false }
    requires front { HasFront (B.bank from.now) front }
    requires within { cells ≤ room front (B.bank from.now).size }
    requires certain { AreCertain front (B.bank from.now).words cells }
    requires growing { IsGrowing (B.bank to.old) no_front }
    requires sizes { (B.bank from.now).size ≡ (B.bank to.old).size }
    ensures settled { IfOk result (λ f. IsSettled f (B.bank to.new) 0) }
    ensures records { IfOk result (λ f. upto f (B.bank to.new).words 0 ≡ upto front (B.bank from.now).words cells) }
    ensures fresh { IfOk result (λ f. IsFresh f (B.bank to.new)) }
    ensures once { OnErr result ((i : ℕ) → (B.bank to.new).programs i ≤ 1) }
    ensures heads { SameBelow 3 (B.bank to.old) (B.bank to.new) }
    ensures firm { (B.bank to.new).torn ≡ false }
    ensures size { (B.bank to.new).size ≡ (B.bank to.old).size }
    ensures failed { OnErr result (B.has_failed to.new ≡ true) }
{
    let kept = copy_front(from, front, cells, to)?;
    let all = copy_cells(from, front, cells, to, kept)?;
    write_number(to, all)?;
    Ok(all)
}
