//! A bank of flash, as firmware gives it.
ghost use Rattle.std.specs.Prelude.{◌≡◌, ◌<◌, ◌≤◌, ◌+◌, ◌^◌, ℕ, is_ok, Bool, true, false, OnOk, OnErr, Some};
ghost use Rattle.flash_keeper.specs.Flash.{Bank, erased, head_word, layout_in, Reads, MayProgram, Programs, Erases};

use plc_base::Failed;

/// The number of the layout of a store, the lowest 16 bits of the first word of a bank: of the words of its log, and of the records of a node
/// in it. Code that reads either otherwise has another number, so it takes no store of older code for one of its own.
pub const LAYOUT: u16 = 4;

/// A word of which each bit is 1.
pub const ERASED: u64 = 0xFFFF_FFFF_FFFF_FFFF;

/// The first word of a bank with a store: six octets that no other use writes there, and [`LAYOUT`].
pub const HEAD: u64 = 0x464C_4B45_4550_0004;

// How many bits of a word are 1.
fn ones_of(word: u64) -> u32
    ensures programmed { word ≡ 0 → result ≡ 0 }
    ensures erased { word ≡ erased → result ≡ 64 }
{
    word.count_ones()
}

/// Whether a word of which each bit was programmed, or none, is one that was: by most of its bits, so that a few may have changed by themselves.
pub fn is_programmed(word: u64) -> bool
    ensures programmed { word ≡ 0 → result ≡ true }
    ensures erased { word ≡ erased → result ≡ false }
{
    ones_of(word) < 32
}

/// A bank of NOR flash: words of 8 octets which are erased together.
///
/// What is said here the hardware and its driver have to promise; nothing else is asked of them. What a driver does for that:
///
/// - **Read back after each program and each erase**, and answer `Failed` where a word is not what was to be programmed, or not erased. A bit that
///   is stuck is found in no other way: the keeper believes an `Ok`.
/// - **Answer a number where the part's own check of a word fails** (an ECC trap, or an error flag): any number, and not that of a head.
/// - **Erase the sector with word 0 first** where a bank has several, and the others after it.
/// - **Begin no program and no erase below the brown-out level** that the part asks for: a program at a supply that is too low is a torn one, which the
///   model has, but it may also touch other words, which it has not.
/// - **Invert** where an erased bit of the part is 0.
///
/// Each word may be programmed several times between erases: zeros over it, after an opening or a loss of power. The contracts of a keeper bound that
/// (`worn`). Parts that refuse it, or take fewer programs, do not fit (the crate's page has a table).
pub trait FlashBank {
    /// The words of the bank.
    ghost bank: { Self → Bank };

    /// Whether one of its programs or erases has failed.
    ghost has_failed: { Self → Bool };

    /// How many words there are: at least 15, and fewer than 2^32. It is the same for good, and the same for both banks of a store.
    fn words(&self) -> usize
        ensures { result ≡ (bank self.now).size };

    /// The word at a place. A word that was programmed, or erased, reads so each time. A word whose program was cut short by a loss of
    /// power, and each word of a bank whose erase was, may read as anything, anew each time; where the part reports an error of its
    /// own check of a word, answer any number.
    ///
    /// One thing is asked of a torn erase (`from_zero`): where the first word was 0 when it began, it does not read as the head of a store. An
    /// erase raises bits one after the other, each at a moment of its own; to read as the head, just the 20 bits that are 1 there would have
    /// to rise first.
    fn read(&self, at: usize) -> u64
        requires { at < (bank self.now).size }
        ensures { Reads (bank self.now) at result };

    /// Programs the word at a place, and no other. It is erased, or each bit is to be programmed (0), whatever the word is, also after a torn
    /// erase: 0 over anything makes it 0, and bits that are 0 already stay so even if power fails. No other word is programmed over one that is
    /// not erased.
    ///
    /// After `Failed` it was done, was cut short, or did not begin.
    fn program(&mut self, at: usize, word: u64) -> Result<(), Failed>
        requires within { at < (bank self.old).size }
        requires allowed { MayProgram (bank self.old) at word }
        ensures programs { Programs at word (is_ok result) (bank self.old) (bank self.new) }
        ensures counted { OnOk result ((bank self.new).programs at ≡ (bank self.old).programs at + 1) }
        ensures failed { OnErr result (has_failed self.new ≡ true) };

    /// Erases all words of the bank, and no other. After `Failed` it was cut short, or did not begin.
    fn erase(&mut self) -> Result<(), Failed>
        ensures erases { Erases (is_ok result) (bank self.old) (bank self.new) }
        ensures failed { OnErr result (has_failed self.new ≡ true) };

    /// There is room for what a bank begins with, and places fit into 32 bits.
    ghost fits: { (b : Self) → (15 ≤ (bank b).size) × ((bank b).size < 2 ^ 32) };
}

/// The number of the layout of a store in a bank, None where its first word names none. It is [`LAYOUT`] in each bank that an opening
/// takes; where a store of another layout is found, firmware that knows that layout can read it.
pub fn layout_of<B: FlashBank>(bank: &B) -> Option<u16>
    ensures own { (B.bank bank.now).torn ≡ false → (B.bank bank.now).words 0 ≡ Some head_word → result ≡ Some 4 }
    ensures named { (B.bank bank.now).torn ≡ false → (word : ℕ) → (B.bank bank.now).words 0 ≡ Some word → result ≡ layout_in word }
{
    let head = bank.read(0);
    if head / 65536 != HEAD / 65536 {
        return None;
    }
    Some((head % 65536) as u16)
}
