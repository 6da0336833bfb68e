//! The front of a bank: records that a copy wrote, before the cells of the log.
ghost use Rattle.std.specs.Prelude.{◌≡◌, ◌<◌, ◌≤◌, ◌+◌, ◌^◌, true, false, OnOk, OnErr, IfOk, IfSome, Some, None, length, ℕ};
ghost use Rattle.std.specs.FinMap as map;
ghost use Rattle.std.specs.FinMap.{insert};
ghost use Rattle.flash_keeper.specs.Log.{SameBelow, IsSettled, upto};
ghost use Rattle.flash_keeper.specs.Records.{length_at, has_check, IsReadable};
ghost use Rattle.flash_keeper.specs.Front.{words_of, front_records, number_word, HasFront, IsDecayedFront, IsGrowing, IsFresh};

use crate::bank::FlashBank;
use crate::check::check_of;
use crate::records::{HALF, is_right, length_of, record_of, slot_of, write_record};
use plc_base::{Failed, Record};

/// How many words a bank begins with, before its front.
pub const BEFORE: usize = 4;
/// Which of these has the number of the records of the front, with a check.
const NUMBER: usize = 3;

/// The records of a front, and the words that they take.
#[derive(Clone, Copy, Debug, PartialEq, Eq)]
pub struct Front {
    /// How many records it has, each of another slot.
    pub count: usize,
    /// How many words they take.
    pub words: usize,
}

/// A front without a record.
pub const NO_FRONT: Front = Front { count: 0, words: 0 };

/// How many words the octets of a record take in a front, beside its head.
pub fn words_of(length: usize) -> usize
    requires { length ≤ 64 }
    ensures value { result ≡ words_of length }
    ensures few { result ≤ 8 }
{
    (length + 7) / 8
}

// The word with the number of the records of a front.
fn number_word(count: u32) -> u64
    ensures { result ≡ number_word count }
{
    u64::from(check_of(count, &[])) * HALF + u64::from(count)
}

// How many words the octets of the record at a place take. None where it does not end within the bank, or has another check.
fn right_words<B: FlashBank>(bank: &B, at: usize) -> Option<usize>
    requires firm { (B.bank bank.now).torn ≡ false }
    ensures right { (n : ℕ) → n ≡ words_of (length_at (B.bank bank.now).words at) → at + n < (B.bank bank.now).size
        → IsReadable (B.bank bank.now).words at n → has_check (B.bank bank.now).words at n ≡ true → result ≡ Some n }
    ensures wrong { (n : ℕ) → n ≡ words_of (length_at (B.bank bank.now).words at) → at + n < (B.bank bank.now).size
        → IsReadable (B.bank bank.now).words at n → has_check (B.bank bank.now).words at n ≡ false → result ≡ None }
    ensures within { IfSome result (λ n. at + n < (B.bank bank.now).size) }
{
    if at >= bank.words() {
        return None;
    }
    let words = words_of(length_of(bank, at));
    if words >= bank.words() - at {
        return None;
    }
    if !is_right(bank, at, words) {
        return None;
    }
    Some(words)
}

/// The front of a bank. None where its number or one of its records has another check.
pub fn front_of<B: FlashBank>(bank: &B) -> Option<Front>
    requires firm { (B.bank bank.now).torn ≡ false }
    ensures whole { (front : Front) → HasFront (B.bank bank.now) front → result ≡ Some front }
    ensures decayed { IsDecayedFront (B.bank bank.now) → result ≡ None }
    ensures within { IfSome result (λ front. 4 + front.words ≤ (B.bank bank.now).size) }
{
    let word = bank.read(NUMBER);
    let count = (word % HALF) as u32;
    if number_word(count) != word {
        return None;
    }
    let mut at = BEFORE;
    let mut i = 0;
    while i < count {
        let Some(words) = right_words(bank, at) else {
            return None;
        };
        at += 1 + words;
        i += 1;
    }
    Some(Front {
        count: count as usize,
        words: at - BEFORE,
    })
}

/// The record of a slot in a front.
pub fn find_in_front<B: FlashBank>(bank: &B, front: Front, slot: u32) -> Option<Record>
    requires firm { (B.bank bank.now).torn ≡ false }
    requires front { HasFront (B.bank bank.now) front }
    ensures { result ≡ map.get (front_records (B.bank bank.now).words front.count) slot }
{
    let mut at = BEFORE;
    let mut i = 0;
    while i < front.count {
        let words = words_of(length_of(bank, at));
        let here = slot_of(bank, at);
        if here == slot {
            return Some(record_of(bank, at, words));
        }
        at += 1 + words;
        i += 1;
    }
    None
}

/// Writes a record to the end of a front, whose slot it has not. It answers the front with it.
pub fn write_to_front<B: FlashBank>(
    bank: &mut B,
    front: Front,
    slot: u32,
    octets: &Record,
) -> Result<Front, Failed>
    requires growing { IsGrowing (B.bank bank.old) front }
    requires more { 0 < slot }
    requires fits { slot < 2 ^ 16 }
    requires apart { map.get (front_records (B.bank bank.old).words front.count) slot ≡ None }
    requires room { 4 + front.words + words_of (length octets.now) < (B.bank bank.old).size }
    ensures growing { IfOk result (λ f. IsGrowing (B.bank bank.new) f) }
    ensures records { IfOk result (λ f. front_records (B.bank bank.new).words f.count
        ≡ insert (front_records (B.bank bank.old).words front.count) slot octets.now) }
    ensures words { IfOk result (λ f. f.words ≡ front.words + 1 + words_of (length octets.now)) }
    ensures once { OnErr result ((i : ℕ) → (B.bank bank.new).programs i ≤ 1) }
    ensures heads { SameBelow 3 (B.bank bank.old) (B.bank bank.new) }
    ensures firm { (B.bank bank.new).torn ≡ false }
    ensures size { (B.bank bank.new).size ≡ (B.bank bank.old).size }
    ensures failed { OnErr result (B.has_failed bank.new ≡ true) }
{
    let words = words_of(octets.len());
    write_record(bank, BEFORE + front.words, words, slot, octets)?;
    Ok(Front {
        count: front.count + 1,
        words: front.words + 1 + words,
    })
}

/// Programs the number of the records of a front behind which nothing stands: then the bank has it.
pub fn write_number<B: FlashBank>(bank: &mut B, front: Front) -> Result<(), Failed>
    requires { IsGrowing (B.bank bank.old) front }
    ensures settled { OnOk result (IsSettled front (B.bank bank.new) 0) }
    ensures records { upto front (B.bank bank.new).words 0 ≡ front_records (B.bank bank.old).words front.count }
    ensures fresh { OnOk result (IsFresh front (B.bank bank.new)) }
    ensures once { OnErr result ((i : ℕ) → (B.bank bank.new).programs i ≤ 1) }
    ensures heads { SameBelow 3 (B.bank bank.old) (B.bank bank.new) }
    ensures firm { (B.bank bank.new).torn ≡ false }
    ensures size { (B.bank bank.new).size ≡ (B.bank bank.old).size }
    ensures failed { OnErr result (B.has_failed bank.new ≡ true) }
{
    bank.program(NUMBER, number_word(front.count as u32))
}
