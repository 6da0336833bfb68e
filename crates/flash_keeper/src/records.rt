//! A record in a bank: its head with its check, its slot and its length, and the words of its octets.
ghost use Rattle.std.specs.Prelude.{◌≡◌, ◌<◌, ◌≤◌, ◌+◌, ◌*◌, ◌^◌, ◌/◌, true, false, OnOk, OnErr, is_ok, Some, ◌⊎◌, take, drop, length, ℕ};
ghost use Rattle.byteorder.specs.Endian.{big_bytes};
ghost use Rattle.flash_keeper.specs.Flash.{erased, Programs};
ghost use Rattle.flash_keeper.specs.Log.{SameOutside, IsBlankFrom};
ghost use Rattle.flash_keeper.specs.Wear.{Counts};
ghost use Rattle.flash_keeper.specs.Records.{low_at, slot_at, length_at, octets_from, body_at, octets_at, has_check, IsFirm, IsReadable, IsWhole, HasRecord};

use crate::bank::{ERASED, FlashBank};
use crate::check::check_of;
use byteorder::{BigEndian, ByteOrder};
use plc_base::{Failed, Record};

/// What the upper half of a word counts.
pub const HALF: u64 = 0x1_0000_0000;

// 65 times the slot of the record at a place, and its length.
fn low_of<B: FlashBank>(bank: &B, at: usize) -> u32
    requires within { at < (B.bank bank.now).size }
    requires firm { (B.bank bank.now).torn ≡ false }
    ensures { IsFirm ((B.bank bank.now).words at) → result ≡ low_at (B.bank bank.now).words at }
{
    (bank.read(at) % HALF) as u32
}

/// The slot of the record at a place.
pub fn slot_of<B: FlashBank>(bank: &B, at: usize) -> u32
    requires within { at < (B.bank bank.now).size }
    requires firm { (B.bank bank.now).torn ≡ false }
    requires head { IsFirm ((B.bank bank.now).words at) }
    ensures { result ≡ slot_at (B.bank bank.now).words at }
{
    low_of(bank, at) / 65
}

/// How many octets the record at a place has: at most 64, whatever stands there.
pub fn length_of<B: FlashBank>(bank: &B, at: usize) -> usize
    requires within { at < (B.bank bank.now).size }
    requires firm { (B.bank bank.now).torn ≡ false }
    ensures value { IsFirm ((B.bank bank.now).words at) → result ≡ length_at (B.bank bank.now).words at }
    ensures few { result ≤ 64 }
{
    (low_of(bank, at) % 65) as usize
}

// The octets of a word, the highest first.
fn octets_of(word: u64) -> [u8; 8]
    ensures { result ≡ big_bytes 8 word }
{
    let mut octets = [0; 8];
    BigEndian::write_u64(&mut octets, word);
    octets
}

// The octets of a record of so many words beside its head, with those after its last one.
fn body_of<B: FlashBank>(bank: &B, at: usize, words: usize) -> Record
    requires within { at + words < (B.bank bank.now).size }
    requires few { words ≤ 8 }
    requires firm { (B.bank bank.now).torn ≡ false }
    ensures octets { IsReadable (B.bank bank.now).words at words → result ≡ body_at (B.bank bank.now).words at words }
    ensures length { length result ≡ 8 * words }
{
    let mut octets = Record::new();
    let mut i = 0;
    while i < words {
        octets.append(&octets_of(bank.read(at + 1 + i)));
        i += 1;
    }
    octets
}

/// Whether the check of a record of so many words beside its head is that of its slot, its length and its octets.
pub fn is_right<B: FlashBank>(bank: &B, at: usize, words: usize) -> bool
    requires within { at + words < (B.bank bank.now).size }
    requires few { words ≤ 8 }
    requires firm { (B.bank bank.now).torn ≡ false }
    ensures { IsReadable (B.bank bank.now).words at words → result ≡ has_check (B.bank bank.now).words at words }
{
    let check = bank.read(at) / HALF;
    check == u64::from(check_of(low_of(bank, at), body_of(bank, at, words).octets()))
}

/// The record at a place, which is a whole one of so many words beside its head.
pub fn record_of<B: FlashBank>(bank: &B, at: usize, words: usize) -> Record
    requires within { at + words < (B.bank bank.now).size }
    requires few { words ≤ 8 }
    requires firm { (B.bank bank.now).torn ≡ false }
    requires whole { IsWhole (B.bank bank.now).words at words }
    requires fits { length_at (B.bank bank.now).words at ≤ 8 * words }
    ensures value { result ≡ octets_at (B.bank bank.now).words at words }
    ensures few { length result ≤ 8 * words }
{
    let length = length_of(bank, at);
    Record::from_octets(&body_of(bank, at, words).octets()[..length])
}

// The octets of a record, and after them erased ones.
fn padded(octets: &Record) -> [u8; 64]
    ensures { take (length octets.now) result ≡ octets.now }
{
    let mut all = [0xFF; 64];
    all[..octets.len()].copy_from_slice(octets.octets());
    all
}

// The word of the octets from a place on.
fn word_at(octets: &[u8; 64], at: usize) -> u64
    requires { at + 8 ≤ 64 }
    ensures { big_bytes 8 result ≡ take 8 (drop at octets.now) }
{
    BigEndian::read_u64(&octets[at..at + 8])
}

// Programs a word that is erased.
fn program_word<B: FlashBank>(bank: &mut B, at: usize, word: u64) -> Result<(), Failed>
    requires within { at < (B.bank bank.old).size }
    requires firm { (B.bank bank.old).torn ≡ false }
    requires blank { (B.bank bank.old).words at ≡ Some erased }
    ensures programs { Programs at word (is_ok result) (B.bank bank.old) (B.bank bank.new) }
    ensures failed { OnErr result (B.has_failed bank.new ≡ true) }
{
    if word == ERASED {
        return Ok(());
    }
    bank.program(at, word)
}

// Programs the octets of a record, as many words of them.
fn write_words<B: FlashBank>(
    bank: &mut B,
    at: usize,
    words: usize,
    octets: &[u8; 64],
) -> Result<(), Failed>
    requires within { at + words < (B.bank bank.old).size }
    requires few { words ≤ 8 }
    requires firm { (B.bank bank.old).torn ≡ false }
    requires blank { IsBlankFrom (B.bank bank.old).words (at + 1) }
    ensures octets { OnOk result (octets_from (B.bank bank.new).words (at + 1) words ≡ take (8 * words) octets.now) }
    ensures body { OnOk result ((i : ℕ) → i < words → IsFirm ((B.bank bank.new).words (at + 1 + i))) }
    ensures same { SameOutside (at + 1) (at + 1 + words) (B.bank bank.old) (B.bank bank.new) }
    ensures counts { Counts (at + 1) (at + 1 + words) (B.bank bank.old) (B.bank bank.new) }
    ensures firm { (B.bank bank.new).torn ≡ false }
    ensures size { (B.bank bank.new).size ≡ (B.bank bank.old).size }
    ensures failed { OnErr result (B.has_failed bank.new ≡ true) }
{
    let mut i = 0;
    while i < words {
        program_word(bank, at + 1 + i, word_at(octets, 8 * i))?;
        i += 1;
    }
    Ok(())
}

/// Programs a record at a place: its head, and then its octets, as so many words.
pub fn write_record<B: FlashBank>(
    bank: &mut B,
    at: usize,
    words: usize,
    slot: u32,
    octets: &Record,
) -> Result<(), Failed>
    requires within { at + words < (B.bank bank.old).size }
    requires few { words ≤ 8 }
    requires enough { (words ≡ 8) ⊎ (length octets.now ≤ 8 * words) }
    requires firm { (B.bank bank.old).torn ≡ false }
    requires more { 0 < slot }
    requires fits { slot < 2 ^ 16 }
    requires blank { IsBlankFrom (B.bank bank.old).words at }
    ensures record { OnOk result (HasRecord (B.bank bank.new).words at words slot octets.now) }
    ensures length { OnOk result (length_at (B.bank bank.new).words at ≡ length octets.now) }
    ensures same { SameOutside at (at + 1 + words) (B.bank bank.old) (B.bank bank.new) }
    ensures counts { Counts at (at + 1 + words) (B.bank bank.old) (B.bank bank.new) }
    ensures firm { (B.bank bank.new).torn ≡ false }
    ensures size { (B.bank bank.new).size ≡ (B.bank bank.old).size }
    ensures failed { OnErr result (B.has_failed bank.new ≡ true) }
{
    let length = octets.len();
    let low = slot * 65 + length as u32;
    let all = padded(octets);
    let check = check_of(low, &all[..8 * words]);
    bank.program(at, check as u64 * HALF + low as u64)?;
    write_words(bank, at, words, &all)
}
