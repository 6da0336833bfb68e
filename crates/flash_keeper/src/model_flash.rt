//! A bank of flash in memory, in which power can fail, whose torn words read differently each time, and whose bits can decay.
ghost use Rattle.std.specs.Prelude.{◌≡◌, ◌<◌, ◌≤◌, ◌+◌, ◌^◌, length, ℕ, true, false, ◌⊎◌, Some};
ghost use Rattle.flash_keeper.specs.Flash.{erased, head_word};
ghost use Rattle.flash_keeper.specs.Model.{bank_of, shown, counted, word_of};

use crate::bank::{ERASED, FlashBank, HEAD};
use plc_base::Failed;
use std::alloc::{AllocError, Global};
use std::cell::Cell;

/// How far a program or an erase comes in which power fails.
#[derive(Clone, Copy, Debug, PartialEq, Eq)]
pub enum Cut {
    /// It does not begin.
    Before,
    /// It leaves words that read as anything.
    Within,
    /// It is done.
    After,
}

/// A word in memory: what is programmed, and whether that was cut short.
#[derive(Clone, Copy, Debug)]
pub struct ModelWord {
    /// What it reads as while it is whole.
    pub value: u64,
    /// Whether its program was cut short.
    pub torn: bool,
    /// What it was before the last program.
    pub before: u64,
    /// How it reads where it is torn: one of eight ways, by a number that was drawn when power failed.
    pub way: u64,
    /// How many programs of it were begun since it was erased.
    pub programs: u32,
}

/// A bank of NOR flash in memory, as hostile as `FlashBank` allows.
///
/// Power can be made to fail in each of its operations. How a word then reads is drawn for each word, from the seed:
///
/// - after a program that was cut short: as anything, anew each time; by bits, some of which are programmed, some weak, and some not begun; with one weak
///   bit; as a whole the old or the new one, by turns, or the same until the next start, or the old one first and later the new one; or as a number
///   that has nothing to do with either, as where the part's own check fails;
/// - after an erase that was cut short: as anything; or by bits, each of which has risen, is weak, or has not begun.
///
/// What its contract does not allow is asked for: [`ModelFlash::decay`] changes bits, as years do.
#[derive(Drop)]
pub struct ModelFlash {
    words: Vec<ModelWord>,
    torn: bool,
    way: u64,
    cut: Option<(u32, Cut)>,
    limit: u32,
    failed: bool,
    erases: u32,
    programs: u32,
    most: u32,
    starts: u32,
    turn: Cell<u64>,
    ghost fits: { (15 ≤ length words.items) × (length words.items < 2 ^ 32) },
}

// A word that is erased.
const BLANK: ModelWord = ModelWord {
    value: ERASED,
    torn: false,
    before: ERASED,
    way: 0,
    programs: 0,
};

// A number that has nothing to do with this one, and is always the same.
fn mixed(number: u64) -> u64 {
    let number = (number ^ (number >> 30)).wrapping_mul(0xBF58_476D_1CE4_E5B9);
    let number = (number ^ (number >> 27)).wrapping_mul(0x94D0_49BB_1331_11EB);
    number ^ (number >> 31)
}

// A number that is no head of a store.
fn no_head(number: u64) -> u64
    ensures { result ≡ head_word → ⊥ }
{
    if number == HEAD {
        return ERASED;
    }
    number
}

// A word that is programmed over another one.
fn whole(old: &ModelWord, value: u64) -> ModelWord
    requires { old.now.programs + 1 < 2 ^ 32 }
    ensures word { word_of result ≡ Some value }
    ensures count { result.programs ≡ old.now.programs + 1 }
{
    ModelWord {
        value,
        torn: false,
        before: old.value,
        way: 0,
        programs: old.programs + 1,
    }
}

// What is left of a word in whose program power fails.
fn cut_short(old: &ModelWord, word: u64, how: Cut, way: u64) -> ModelWord
    requires { old.now.programs + 1 < 2 ^ 32 }
    ensures word { word_of old.now ≡ Some word → word_of result ≡ Some word }
    ensures count { result.programs ≤ old.now.programs + 1 }
{
    let same = !old.torn && old.value == word;
    let done = whole(old, word);
    match how {
        Cut::Before => *old,
        Cut::Within => ModelWord {
            value: word,
            torn: !same,
            before: if old.torn { ERASED } else { old.value },
            way,
            programs: done.programs,
        },
        Cut::After => done,
    }
}

// The bits of a word of a torn erase that have risen: one in eight of them, a quarter, .. seven of eight, by how long the erase lasted.
fn risen(way: u64, at: u64) -> u64 {
    let one = mixed(way.wrapping_add(at));
    let two = mixed(one);
    let three = mixed(two);
    match way % 7 {
        0 => one & two & three,
        1 => one & two,
        2 => one & (two | three),
        3 => one,
        4 => one | (two & three),
        5 => one | two,
        _ => one | two | three,
    }
}

impl ModelFlash {
    /// A bank of this many words, erased.
    pub fn new(alloc: Global, words: usize, seed: u64) -> Result<ModelFlash, AllocError>
        requires least { 15 ≤ words }
        requires most { words < 2 ^ 32 }
    {
        let mut all = Vec::new(alloc);
        all.resize(words, BLANK)?;
        Ok(ModelFlash {
            words: all,
            torn: false,
            way: 0,
            cut: None,
            limit: u32::MAX,
            failed: false,
            erases: 0,
            programs: 0,
            most: 0,
            starts: 0,
            turn: Cell::new(seed),
        })
    }

    /// Makes power fail in the `nth` program or erase from now on, and replaces a cut that was to come. What it shows stays.
    pub fn cut(&mut self, nth: u32, how: Cut)
        ensures { bank_of self.new.words.items self.new.torn ≡ bank_of self.old.words.items self.old.torn }
    {
        self.cut = Some((nth, how));
    }

    /// Turns these bits of the word at a place over, as it may happen over years, and no other. Where there is no such word it does nothing.
    pub fn decay(&mut self, at: usize, bits: u64)
        ensures others { (i : ℕ) → (i ≡ at → ⊥) → shown self.new.words.items i ≡ shown self.old.words.items i }
        ensures size { length self.new.words.items ≡ length self.old.words.items }
        ensures torn { self.new.torn ≡ self.old.torn }
    {
        if at >= self.words.len() {
            return;
        }
        let mut word = self.words[at];
        word.value ^= bits;
        self.put(at, word);
    }

    /// Refuses each program of a word past this many between two erases, as some parts do: it fails, and leaves the word. What it shows stays.
    pub fn refuse_past(&mut self, programs: u32)
        ensures { bank_of self.new.words.items self.new.torn ≡ bank_of self.old.words.items self.old.torn }
    {
        self.limit = programs;
    }

    /// Says that a device has started: a torn word that reads alike until then may read otherwise now. What it shows stays.
    pub fn start(&mut self)
        ensures { bank_of self.new.words.items self.new.torn ≡ bank_of self.old.words.items self.old.torn }
    {
        self.starts = self.starts.saturating_add(1);
    }

    /// The most programs of one word between two erases.
    pub fn most_programs(&self) -> u32 {
        self.most
    }

    /// How many erases were begun.
    pub fn erases(&self) -> u32 {
        self.erases
    }

    /// How many programs were begun.
    pub fn programs(&self) -> u32 {
        self.programs
    }

    // What becomes of the operation that comes next.
    fn power(&mut self) -> Option<Cut>
        ensures words { self.new.words ≡ self.old.words }
        ensures torn { self.new.torn ≡ self.old.torn }
    {
        match self.cut {
            None => None,
            Some((nth, how)) if nth <= 1 => {
                self.cut = None;
                Some(how)
            }
            Some((nth, how)) => {
                self.cut = Some((nth - 1, how));
                None
            }
        }
    }

    // Puts a word where another one was.
    #[tactic(auto, using(crate::proofs::ModelLemmas::shown_set, crate::proofs::ModelLemmas::shown_other))]
    fn put(&mut self, at: usize, word: ModelWord)
        requires { at < length self.old.words.items }
        ensures here { shown self.new.words.items at ≡ word_of word }
        ensures others { (i : ℕ) → (i ≡ at → ⊥) → shown self.new.words.items i ≡ shown self.old.words.items i }
        ensures count { counted self.new.words.items at ≡ word.programs }
        ensures counts { (i : ℕ) → (i ≡ at → ⊥) → counted self.new.words.items i ≡ counted self.old.words.items i }
        ensures size { length self.new.words.items ≡ length self.old.words.items }
        ensures torn { self.new.torn ≡ self.old.torn }
    {
        self.words[at] = word;
    }

    // Erases all words.
    fn blank(&mut self)
        ensures blank { (i : ℕ) → shown self.new.words.items i ≡ Some erased }
        ensures fresh { (i : ℕ) → counted self.new.words.items i ≡ 0 }
        ensures size { length self.new.words.items ≡ length self.old.words.items }
        ensures torn { self.new.torn ≡ false }
    {
        self.torn = false;
        let mut at = 0;
        while at < self.words.len() {
            self.put(at, BLANK);
            at += 1;
        }
    }

    // What is left of an erase in which power fails.
    fn erase_partly(&mut self, how: Cut)
        ensures size { length self.new.words.items ≡ length self.old.words.items }
        ensures left { ((self.new.words ≡ self.old.words) × (self.new.torn ≡ self.old.torn)) ⊎ ((self.new.torn ≡ true) × (self.new.words ≡ self.old.words))
            ⊎ ((self.new.torn ≡ false) × ((i : ℕ) → shown self.new.words.items i ≡ Some erased)
            × ((i : ℕ) → counted self.new.words.items i ≡ 0)) }
    {
        match how {
            Cut::Before => {}
            Cut::Within => self.torn = true,
            Cut::After => self.blank(),
        }
    }

    // A number by chance, another one each time.
    fn drawn(&self) -> u64 {
        let turn = self.turn.get().wrapping_add(0x9E37_79B9_7F4A_7C15);
        self.turn.set(turn);
        mixed(turn)
    }

    // Any number, those before all that a reader could take for a word of a store.
    fn anything(&self, value: u64) -> u64 {
        let drawn = self.drawn();
        match drawn >> 61 {
            0 | 1 => ERASED,
            2 | 3 => value,
            4 => 0,
            5 => value | drawn,
            6 => HEAD,
            _ => mixed(drawn),
        }
    }

    // What a word reads as whose program was cut short.
    fn torn_word(&self, word: &ModelWord) -> u64 {
        let drawn = self.drawn();
        let begun = word.before & !word.value;
        let one = mixed(word.way);
        let two = mixed(one);
        match word.way % 8 {
            0 => self.anything(word.value),
            1 => word.value | (drawn & begun),
            // Programmed where a bit of `one` is 1, else weak where one of `two` is, else not begun.
            2 => word.before & !(begun & (one | (two & drawn))),
            3 => word.value | (begun & (1 << (drawn % 64)) & one),
            4 if drawn % 2 == 0 => word.before,
            5 if mixed(word.way ^ u64::from(self.starts)) % 2 == 0 => word.before,
            // Rarely at first, and later always: what is drawn grows with each start.
            6 if drawn % 16 >= u64::from(self.starts) => word.before,
            7 => one,
            _ => word.value,
        }
    }

    // What a word of a bank reads as whose erase was cut short.
    fn torn_bank(&self, at: usize, value: u64) -> u64 {
        if self.way % 2 == 0 {
            return self.anything(value);
        }
        let up = risen(self.way / 2, at as u64);
        let weak = mixed(up) & self.drawn();
        value | up | (weak & mixed(mixed(up)))
    }
}

impl FlashBank for ModelFlash {
    ghost bank = { λ b. bank_of b.words.items b.torn };

    ghost has_failed = { λ b. b.failed };

    ghost fits = { λ b. b.fits };

    fn words(&self) -> usize {
        self.words.len()
    }

    #[tactic(auto, using(crate::proofs::ModelLemmas::reads_torn, crate::proofs::ModelLemmas::reads_torn_bank, crate::proofs::ModelLemmas::reads_whole))]
    fn read(&self, at: usize) -> u64 {
        let word = self.words[at];
        if word.torn {
            return self.torn_word(&word);
        }
        if !self.torn {
            return word.value;
        }
        let any = self.torn_bank(at, word.value);
        if word.value == 0 {
            return no_head(any);
        }
        any
    }

    fn program(&mut self, at: usize, word: u64) -> Result<(), Failed> {
        self.programs = self.programs.saturating_add(1);
        let power = self.power();
        let old = self.words[at];
        if old.programs >= self.limit {
            self.failed = true;
            return Err(Failed);
        }
        let done = whole(&old, word);
        self.most = self.most.max(done.programs);
        let Some(how) = power else {
            self.put(at, done);
            return Ok(());
        };
        let way = self.drawn();
        self.put(at, cut_short(&old, word, how, way));
        self.failed = true;
        Err(Failed)
    }

    fn erase(&mut self) -> Result<(), Failed> {
        self.erases = self.erases.saturating_add(1);
        let Some(how) = self.power() else {
            self.blank();
            return Ok(());
        };
        self.way = self.drawn();
        self.erase_partly(how);
        self.failed = true;
        Err(Failed)
    }
}
