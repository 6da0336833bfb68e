//! The cells of a log in a bank, behind its front.
ghost use Rattle.std.specs.Prelude.{◌≡◌, ◌<◌, ◌≤◌, ◌+◌, ◌^◌, ◌-◌, true, false, is_ok, OnOk, OnErr, IfOk, Some, ◌⊎◌, ℕ};
ghost use Rattle.std.specs.FinMap as map;
ghost use Rattle.std.specs.FinMap.{insert};
ghost use Rattle.flash_keeper.specs.Flash.{erased, Programs};
ghost use Rattle.flash_keeper.specs.Wear.{Counts, Keeps};
ghost use Rattle.flash_keeper.specs.Records.{begun, HasRecord};
ghost use Rattle.flash_keeper.specs.Front.{HasFront};
ghost use Rattle.flash_keeper.specs.Log.{place, mark, fence, close, room, counts, upto, holds, holds_later, IsWholeCell, IsCertain, AreCertain};
ghost use Rattle.flash_keeper.specs.Log.{IsSettled, IsLeft, SameOutside, Choice, IsOneOf, SameBelow, IsOpen, IsFoundBlank, IsClosable, IsBlankFrom};
ghost use Rattle.flash_keeper.specs.Log.{IsDecayedCell, HasDecayed, IsShort, IsDecided, AreDecided};

use crate::bank::{ERASED, FlashBank, is_programmed};
use crate::front::{BEFORE, Front, find_in_front, front_of};
use crate::records::{is_right, record_of, slot_of, write_record};
use plc_base::{Failed, Record};

/// How many words a cell has.
pub const CELL: usize = 12;
/// How many of them have its octets.
pub const BODY: usize = 8;
/// Which word of a cell says that it never counts.
const CLOSE: usize = 9;
/// Which word of a cell says that its record is whole.
const FENCE: usize = 10;
/// Which word of a cell is its mark.
const MARK: usize = 11;

/// The place of the first word of a cell.
pub fn place_of(front: Front, cell: usize) -> usize
    requires words { front.words < 2 ^ 32 }
    requires cell { cell < 2 ^ 32 }
    ensures { result ≡ place front cell }
{
    BEFORE + front.words + CELL * cell
}

/// How many cells a bank has behind its front.
pub fn cell_count<B: FlashBank>(bank: &B, front: Front) -> usize
    requires { 4 + front.words ≤ (B.bank bank.now).size }
    ensures { result ≡ room front (B.bank bank.now).size }
{
    (bank.words() - (BEFORE + front.words)) / CELL
}

/// Whether the mark of a certain cell makes it count.
pub fn is_marked<B: FlashBank>(bank: &B, front: Front, cell: usize) -> bool
    requires within { cell < room front (B.bank bank.now).size }
    requires firm { (B.bank bank.now).torn ≡ false }
    requires certain { IsCertain front (B.bank bank.now).words cell }
    ensures { result ≡ counts front (B.bank bank.now).words cell }
{
    is_programmed(bank.read(place_of(front, cell) + MARK))
}

// Whether a certain cell counts and has this slot.
fn is_of<B: FlashBank>(bank: &B, front: Front, cell: usize, slot: u32) -> bool
    requires within { cell < room front (B.bank bank.now).size }
    requires firm { (B.bank bank.now).torn ≡ false }
    requires certain { IsCertain front (B.bank bank.now).words cell }
    ensures { result ≡ holds front (B.bank bank.now).words cell slot }
{
    if !is_marked(bank, front, cell) {
        return false;
    }
    slot_of(bank, place_of(front, cell)) == slot
}

/// The record of a slot, by the front and the first cells of a log, which are certain.
pub fn find<B: FlashBank>(bank: &B, front: Front, cells: usize, slot: u32) -> Option<Record>
    requires within { cells ≤ room front (B.bank bank.now).size }
    requires firm { (B.bank bank.now).torn ≡ false }
    requires front { HasFront (B.bank bank.now) front }
    requires certain { AreCertain front (B.bank bank.now).words cells }
    ensures { result ≡ map.get (upto front (B.bank bank.now).words cells) slot }
{
    let mut cell = cells;
    while cell > 0 {
        cell -= 1;
        if is_of(bank, front, cell, slot) {
            return Some(record_of(bank, place_of(front, cell), BODY));
        }
    }
    find_in_front(bank, front, slot)
}

/// Whether one of the cells from this one on, of the first ones, counts and has this slot.
pub fn is_replaced<B: FlashBank>(
    bank: &B,
    front: Front,
    from: usize,
    cells: usize,
    slot: u32,
) -> bool
    requires before { from ≤ cells }
    requires within { cells ≤ room front (B.bank bank.now).size }
    requires firm { (B.bank bank.now).torn ≡ false }
    requires certain { AreCertain front (B.bank bank.now).words cells }
    ensures { result ≡ holds_later front (B.bank bank.now).words from (cells - from) slot }
{
    let mut later = from;
    while later < cells {
        if is_of(bank, front, later, slot) {
            return true;
        }
        later += 1;
    }
    false
}

// Whether a word reads as erased.
fn reads_erased<B: FlashBank>(bank: &B, at: usize) -> bool
    requires within { at < (B.bank bank.now).size }
    requires firm { (B.bank bank.now).torn ≡ false }
    ensures { (B.bank bank.now).words at ≡ Some erased → result ≡ true }
{
    bank.read(at) == ERASED
}

// Whether each word of the first cell after a settled log reads as erased.
fn is_clean<B: FlashBank>(bank: &B, front: Front, cell: usize) -> bool
    requires within { cell < room front (B.bank bank.now).size }
    requires firm { (B.bank bank.now).torn ≡ false }
    ensures { IsSettled front (B.bank bank.now) cell → result ≡ true }
{
    let mut i = 0;
    while i < CELL {
        if !reads_erased(bank, place_of(front, cell) + i) {
            return false;
        }
        i += 1;
    }
    true
}

// Programs a record into a cell, and the fence.
fn write_body<B: FlashBank>(
    bank: &mut B,
    front: Front,
    cell: usize,
    slot: u32,
    octets: &Record,
) -> Result<(), Failed>
    requires within { cell < room front (B.bank bank.old).size }
    requires firm { (B.bank bank.old).torn ≡ false }
    requires more { 0 < slot }
    requires fits { slot < 2 ^ 16 }
    requires blank { IsBlankFrom (B.bank bank.old).words (place front cell) }
    ensures record { OnOk result (HasRecord (B.bank bank.new).words (place front cell) 8 slot octets.now) }
    ensures fence { OnOk result ((B.bank bank.new).words (fence front cell) ≡ Some 0) }
    ensures left { ((B.bank bank.new).words (fence front cell) ≡ Some erased) ⊎ HasRecord (B.bank bank.new).words (place front cell) 8 slot octets.now }
    ensures same { SameOutside (place front cell) (mark front cell) (B.bank bank.old) (B.bank bank.new) }
    ensures counts { Counts (place front cell) (mark front cell) (B.bank bank.old) (B.bank bank.new) }
    ensures firm { (B.bank bank.new).torn ≡ false }
    ensures size { (B.bank bank.new).size ≡ (B.bank bank.old).size }
    ensures failed { OnErr result (B.has_failed bank.new ≡ true) }
{
    let at = place_of(front, cell);
    write_record(bank, at, BODY, slot, octets)?;
    bank.program(at + FENCE, 0)
}

/// Writes a record into the first cell after a settled log: the record, and the mark that makes it count.
pub fn write_cell<B: FlashBank>(
    bank: &mut B,
    front: Front,
    cell: usize,
    slot: u32,
    octets: &Record,
) -> Result<(), Failed>
    requires settled { IsSettled front (B.bank bank.old) cell }
    requires more { 0 < slot }
    requires fits { slot < 2 ^ 16 }
    requires room { cell < room front (B.bank bank.old).size }
    ensures settled { OnOk result (IsSettled front (B.bank bank.new) (cell + 1)) }
    ensures records { OnOk result (upto front (B.bank bank.new).words (cell + 1) ≡ insert (upto front (B.bank bank.old).words cell) slot octets.now) }
    ensures left { OnErr result ((c : Choice) → IsOneOf c (upto front (B.bank bank.old).words cell)
        → IsOneOf c (insert (upto front (B.bank bank.old).words cell) slot octets.now)
        → IsLeft front (B.bank bank.new) cell c) }
    ensures same { SameOutside (place front cell) (place front cell + 12) (B.bank bank.old) (B.bank bank.new) }
    ensures counts { Counts (place front cell) (place front cell + 12) (B.bank bank.old) (B.bank bank.new) }
    ensures firm { (B.bank bank.new).torn ≡ false }
    ensures size { (B.bank bank.new).size ≡ (B.bank bank.old).size }
    ensures failed { OnErr result (B.has_failed bank.new ≡ true) }
{
    if !is_clean(bank, front, cell) {
        return Err(Failed);
    }
    write_body(bank, front, cell, slot, octets)?;
    bank.program(place_of(front, cell) + MARK, 0)
}

// Whether a cell reads as blank.
fn is_blank<B: FlashBank>(bank: &B, front: Front, cell: usize) -> bool
    requires within { cell < room front (B.bank bank.now).size }
    requires firm { (B.bank bank.now).torn ≡ false }
    ensures certain { IsCertain front (B.bank bank.now).words cell → result ≡ false }
    ensures whole { IsWholeCell front (B.bank bank.now).words cell → result ≡ false }
    ensures blank { (B.bank bank.now).words (place front cell) ≡ Some erased → (B.bank bank.now).words (close front cell) ≡ Some erased → result ≡ true }
    ensures closed { (B.bank bank.now).words (close front cell) ≡ Some 0 → result ≡ false }
{
    bank.read(place_of(front, cell)) == ERASED && bank.read(place_of(front, cell) + CLOSE) == ERASED
}

/// The first cell that reads as blank: the first one after those that are certain, or the next one.
pub fn first_blank<B: FlashBank>(bank: &B, front: Front) -> usize
    requires firm { (B.bank bank.now).torn ≡ false }
    requires fits { 4 + front.words ≤ (B.bank bank.now).size }
    ensures found { (n : ℕ) (c : Choice) → IsLeft front (B.bank bank.now) n c → IsFoundBlank front (B.bank bank.now) n result }
    ensures within { result ≤ room front (B.bank bank.now).size }
    ensures unclosed { result < room front (B.bank bank.now).size → (B.bank bank.now).words (close front result) ≡ Some 0 → ⊥ }
{
    let count = cell_count(bank, front);
    let mut cell = 0;
    while cell < count {
        if is_blank(bank, front, cell) {
            return cell;
        }
        cell += 1;
    }
    count
}

/// Whether a cell that counts has another check than that of its slot, its length and its octets.
fn is_decayed<B: FlashBank>(bank: &B, front: Front, cell: usize) -> bool
    requires within { cell < room front (B.bank bank.now).size }
    requires firm { (B.bank bank.now).torn ≡ false }
    ensures whole { IsWholeCell front (B.bank bank.now).words cell → result ≡ false }
    ensures unmarked { (B.bank bank.now).words (mark front cell) ≡ Some erased → result ≡ false }
    ensures decayed { IsDecayedCell front (B.bank bank.now).words cell → result ≡ true }
{
    reads_marked(bank, front, cell) && !is_right(bank, place_of(front, cell), BODY)
}

// Whether a cell behind a whole front has decayed.
fn has_decayed_cell<B: FlashBank>(bank: &B, front: Front) -> bool
    requires firm { (B.bank bank.now).torn ≡ false }
    requires fits { 4 + front.words ≤ (B.bank bank.now).size }
    ensures left { result ≡ true → (n : ℕ) (c : Choice) → IsLeft front (B.bank bank.now) n c → ⊥ }
    ensures decayed { result ≡ false → (k : ℕ) → k < room front (B.bank bank.now).size → IsDecayedCell front (B.bank bank.now).words k → ⊥ }
{
    let count = cell_count(bank, front);
    let mut cell = 0;
    while cell < count {
        if is_decayed(bank, front, cell) {
            return true;
        }
        cell += 1;
    }
    false
}

/// The front of a bank. None where bits of the bank have changed by themselves: of the front, or of a cell that counts.
pub fn sound_front<B: FlashBank>(bank: &B) -> Option<Front>
    requires firm { (B.bank bank.now).torn ≡ false }
    ensures left { (front : Front) (n : ℕ) (c : Choice) → IsLeft front (B.bank bank.now) n c → result ≡ Some front }
    ensures decayed { HasDecayed (B.bank bank.now) → result ≡ None }
{
    let Some(front) = front_of(bank) else {
        return None;
    };
    if has_decayed_cell(bank, front) {
        return None;
    }
    Some(front)
}

/// Whether a bank has decayed: whether bits of a record of its front have changed by themselves, of their number, or of a cell that counts. It says so of no
/// bank that stands for records as they were written (`left`), and of each one with such a record (`decayed`). It reads each record once.
pub fn has_decayed<B: FlashBank>(bank: &B) -> bool
    requires firm { (B.bank bank.now).torn ≡ false }
    ensures left { result ≡ true → (front : Front) (n : ℕ) (c : Choice) → IsLeft front (B.bank bank.now) n c → ⊥ }
    ensures decayed { HasDecayed (B.bank bank.now) → result ≡ true }
{
    sound_front(bank).is_none()
}

// Whether the close of a cell reads as begun.
fn is_shut<B: FlashBank>(bank: &B, front: Front, cell: usize) -> bool
    requires within { cell < room front (B.bank bank.now).size }
    requires firm { (B.bank bank.now).torn ≡ false }
    ensures closed { (B.bank bank.now).words (close front cell) ≡ Some 0 → result ≡ true }
    ensures begun { result ≡ true → (B.bank bank.now).words (close front cell) ≡ Some erased → ⊥ }
{
    bank.read(place_of(front, cell) + CLOSE) != ERASED
}

// Whether the fence of a cell reads as not begun, or its record is not whole, so that its mark was not begun either.
fn is_unfenced<B: FlashBank>(bank: &B, front: Front, cell: usize) -> bool
    requires within { cell < room front (B.bank bank.now).size }
    requires firm { (B.bank bank.now).torn ≡ false }
    ensures erased { (B.bank bank.now).words (fence front cell) ≡ Some erased → result ≡ true }
    ensures begun { result ≡ false → begun ((B.bank bank.now).words (fence front cell)) ≡ true }
    ensures unmarked { result ≡ true → IsOpen front (B.bank bank.now).words cell → (B.bank bank.now).words (mark front cell) ≡ Some erased }
{
    bank.read(place_of(front, cell) + FENCE) == ERASED
        || !is_right(bank, place_of(front, cell), BODY)
}

// Whether the mark of a cell reads as begun.
fn reads_marked<B: FlashBank>(bank: &B, front: Front, cell: usize) -> bool
    requires within { cell < room front (B.bank bank.now).size }
    requires firm { (B.bank bank.now).torn ≡ false }
    ensures counted { result ≡ true → counts front (B.bank bank.now).words cell ≡ true }
    ensures marked { (B.bank bank.now).words (mark front cell) ≡ Some 0 → result ≡ true }
    ensures unmarked { (B.bank bank.now).words (mark front cell) ≡ Some erased → result ≡ false }
    ensures fenced { result ≡ true → IsOpen front (B.bank bank.now).words cell → (B.bank bank.now).words (fence front cell) ≡ Some 0 }
{
    bank.read(place_of(front, cell) + MARK) != ERASED
}

/// Closes a cell whose mark was not begun, so that it never counts.
pub fn close_cell<B: FlashBank>(bank: &mut B, front: Front, cell: usize) -> Result<(), Failed>
    requires firm { (B.bank bank.old).torn ≡ false }
    requires within { cell < room front (B.bank bank.old).size }
    ensures settled { OnOk result ((c : Choice) → IsLeft front (B.bank bank.old) cell c → (B.bank bank.old).words (mark front cell) ≡ Some erased
        → IsSettled front (B.bank bank.new) (cell + 1) × IsOneOf c (upto front (B.bank bank.new).words (cell + 1))) }
    ensures left { (c : Choice) → IsLeft front (B.bank bank.old) cell c → (B.bank bank.old).words (mark front cell) ≡ Some erased
        → IsLeft front (B.bank bank.new) cell c }
    ensures programs { Programs (close front cell) 0 (is_ok result) (B.bank bank.old) (B.bank bank.new) }
    ensures same { (B.bank bank.old).words (close front cell) ≡ Some 0 → (i : ℕ) → (B.bank bank.new).words i ≡ (B.bank bank.old).words i }
    ensures heads { SameBelow 3 (B.bank bank.old) (B.bank bank.new) }
    ensures firm { (B.bank bank.new).torn ≡ false }
    ensures size { (B.bank bank.new).size ≡ (B.bank bank.old).size }
    ensures failed { OnErr result (B.has_failed bank.new ≡ true) }
{
    bank.program(place_of(front, cell) + CLOSE, 0)
}

// Makes a cell count for good whose fence is whole.
fn mark_cell<B: FlashBank>(bank: &mut B, front: Front, cell: usize) -> Result<(), Failed>
    requires firm { (B.bank bank.old).torn ≡ false }
    requires within { cell < room front (B.bank bank.old).size }
    ensures settled { OnOk result ((c : Choice) → IsLeft front (B.bank bank.old) cell c → (B.bank bank.old).words (fence front cell) ≡ Some 0
        → IsSettled front (B.bank bank.new) (cell + 1) × IsOneOf c (upto front (B.bank bank.new).words (cell + 1))) }
    ensures left { (c : Choice) → IsLeft front (B.bank bank.old) cell c → (B.bank bank.old).words (fence front cell) ≡ Some 0
        → IsLeft front (B.bank bank.new) cell c }
    ensures programs { Programs (mark front cell) 0 (is_ok result) (B.bank bank.old) (B.bank bank.new) }
    ensures same { (B.bank bank.old).words (mark front cell) ≡ Some 0 → (i : ℕ) → (B.bank bank.new).words i ≡ (B.bank bank.old).words i }
    ensures heads { SameBelow 3 (B.bank bank.old) (B.bank bank.new) }
    ensures firm { (B.bank bank.new).torn ≡ false }
    ensures size { (B.bank bank.new).size ≡ (B.bank bank.old).size }
    ensures failed { OnErr result (B.has_failed bank.new ≡ true) }
{
    bank.program(place_of(front, cell) + MARK, 0)
}

// Makes the fence of a cell whole, which was begun.
fn fence_cell<B: FlashBank>(bank: &mut B, front: Front, cell: usize) -> Result<(), Failed>
    requires firm { (B.bank bank.old).torn ≡ false }
    requires within { cell < room front (B.bank bank.old).size }
    requires fenced { begun ((B.bank bank.old).words (fence front cell)) ≡ true }
    ensures left { (c : Choice) → IsLeft front (B.bank bank.old) cell c → IsLeft front (B.bank bank.new) cell c }
    ensures fence { OnOk result ((B.bank bank.new).words (fence front cell) ≡ Some 0) }
    ensures programs { Programs (fence front cell) 0 (is_ok result) (B.bank bank.old) (B.bank bank.new) }
    ensures heads { SameBelow 3 (B.bank bank.old) (B.bank bank.new) }
    ensures firm { (B.bank bank.new).torn ≡ false }
    ensures size { (B.bank bank.new).size ≡ (B.bank bank.old).size }
    ensures failed { OnErr result (B.has_failed bank.new ≡ true) }
{
    bank.program(place_of(front, cell) + FENCE, 0)
}

// Makes a cell certain that may be the last one: where its mark reads as begun, or its fence does and its close does not, it counts from then
// on; where its fence does not, it never does. It answers false where fence and close read as begun and the mark does not: then it stays as it
// is, since the mark may read otherwise the next time.
fn settle_last<B: FlashBank>(bank: &mut B, front: Front, cell: usize) -> Result<bool, Failed>
    requires firm { (B.bank bank.old).torn ≡ false }
    requires within { cell < room front (B.bank bank.old).size }
    ensures settled { IfOk result (λ ok. ok ≡ true → (c : Choice) → IsLeft front (B.bank bank.old) cell c
        → IsSettled front (B.bank bank.new) (cell + 1) × IsOneOf c (upto front (B.bank bank.new).words (cell + 1))) }
    ensures torn { IfOk result (λ ok. ok ≡ false → B.bank bank.new ≡ B.bank bank.old) }
    ensures unmarked { IfOk result (λ ok. ok ≡ false → (B.bank bank.old).words (mark front cell) ≡ Some 0 → ⊥) }
    ensures undecided { IfOk result (λ ok. ok ≡ false → IsDecided front (B.bank bank.old).words cell → ⊥) }
    ensures counts { Counts (place front cell) (place front cell + 12) (B.bank bank.old) (B.bank bank.new) }
    ensures keeps { Keeps front (B.bank bank.old) (B.bank bank.new) }
    ensures certain { IsCertain front (B.bank bank.old).words cell → (i : ℕ) → (B.bank bank.new).words i ≡ (B.bank bank.old).words i }
    ensures left { OnErr result ((c : Choice) → IsLeft front (B.bank bank.old) cell c → IsLeft front (B.bank bank.new) cell c) }
    ensures heads { SameBelow 3 (B.bank bank.old) (B.bank bank.new) }
    ensures firm { (B.bank bank.new).torn ≡ false }
    ensures size { (B.bank bank.new).size ≡ (B.bank bank.old).size }
    ensures failed { OnErr result (B.has_failed bank.new ≡ true) }
{
    if reads_marked(bank, front, cell) {
        mark_cell(bank, front, cell)?;
        return Ok(true);
    }
    if is_unfenced(bank, front, cell) {
        close_cell(bank, front, cell)?;
        return Ok(true);
    }
    if is_shut(bank, front, cell) {
        return Ok(false);
    }
    fence_cell(bank, front, cell)?;
    mark_cell(bank, front, cell)?;
    Ok(true)
}

/// Makes certain the cell before the first one that reads as blank, at `at`. It answers false where that cell may count at some readings and not
/// at others: then it stays as it is.
pub fn settle_before<B: FlashBank>(bank: &mut B, front: Front, at: usize) -> Result<bool, Failed>
    requires firm { (B.bank bank.old).torn ≡ false }
    requires within { at ≤ room front (B.bank bank.old).size }
    ensures sure { IfOk result (λ ok. ok ≡ true → (n : ℕ) (c : Choice) → IsLeft front (B.bank bank.old) n c → IsFoundBlank front (B.bank bank.old) n at
        → IsClosable front (B.bank bank.new) at c) }
    ensures torn { IfOk result (λ ok. ok ≡ false → (n : ℕ) (c : Choice) → IsLeft front (B.bank bank.old) n c → IsFoundBlank front (B.bank bank.old) n at
        → IsShort front (B.bank bank.new) n at c) }
    ensures undecided { IfOk result (λ ok. ok ≡ false → (n : ℕ) (c : Choice) → IsLeft front (B.bank bank.old) n c → IsFoundBlank front (B.bank bank.old) n at
        → AreDecided front (B.bank bank.old).words n → ⊥) }
    ensures same { IfOk result (λ ok. ok ≡ false → B.bank bank.new ≡ B.bank bank.old) }
    ensures counts { Counts (place front (at - 1)) (place front at) (B.bank bank.old) (B.bank bank.new) }
    ensures keeps { Keeps front (B.bank bank.old) (B.bank bank.new) }
    ensures left { OnErr result ((n : ℕ) (c : Choice) → IsLeft front (B.bank bank.old) n c → IsFoundBlank front (B.bank bank.old) n at
        → IsLeft front (B.bank bank.new) n c) }
    ensures heads { SameBelow 3 (B.bank bank.old) (B.bank bank.new) }
    ensures firm { (B.bank bank.new).torn ≡ false }
    ensures size { (B.bank bank.new).size ≡ (B.bank bank.old).size }
    ensures failed { OnErr result (B.has_failed bank.new ≡ true) }
{
    if at == 0 {
        return Ok(true);
    }
    settle_last(bank, front, at - 1)
}
