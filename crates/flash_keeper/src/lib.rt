//! A [`plc_base::Keeper`] over two banks of raw NOR flash, which outlasts a loss of power at any moment.
//!
//! Firmware writes [`FlashBank`] for its flash: read a word of 8 octets, program one, erase the bank. [`FlashKeeper::format`] makes a store
//! of two erased banks once, in the factory; [`FlashKeeper::open`] opens it at each start, and settles what a torn word left before anything
//! builds on it. The two banks may be given in either order.
//!
//! # What is promised
//!
//! - Gets and puts are those of a [`plc_base::Keeper`]: after `Failed` the slot has the record from before (`puts`, `old`).
//! - Power may fail in each program and each erase. An opening then finds the records from before the put or those with it, and no others
//!   (`left` of `put`, `opened` of `open`); what it found, each later opening finds too, until a put ([`laws::each_opening_is_the_same`]). An
//!   opening in which power fails changes nothing of that (`left` of `open`).
//! - So after any puts, losses of power and openings a slot has the record that was last put there, or that of a put which failed after it
//!   ([`laws::a_slot_has_what_was_put`]).
//! - All this holds however a torn word reads, and if it reads otherwise each time. No check sum is part of the argument.
//! - Where bits have changed by themselves since, an opening answers [`OpenFault::Decayed`] or [`OpenFault::NoStore`], and no older record, as far as
//!   the check of each cell shows (below). Of a store whose words are as they were written it never answers `Decayed`.
//! - A torn erase may leave any word of a bank as it was, the head too. So a bank is retired before it is erased, and before the store goes on
//!   with the copy of it: its head is then 0 in each bit. One premise is left (`from_zero`): where a torn erase met such a word, it does not read
//!   as the head of a store. Of its 64 bits just 20 would have to rise before each of the others: one order in 1.9 * 10^16.
//! - How often a word is programmed between two erases of its bank: one of a cell or of the front twice at most; of the head the first one three times, and
//!   once more right before the erase, the other two twice. A put, a purge or an opening that fails adds one at most to each word, a reopening two, and an
//!   opening that finds an erase of the other bank cut short, or leaves no cell of the log, one (`worn`, `cut`, and `programs` of `into_banks`).
//! - No opening finds an older store. It may find none, for a time, where power failed in two programs in a row: that of the mark of a copy,
//!   and that by which the opening after it retires this copy, whose mark read as not there. If both torn words then read as whole, it goes on
//!   with the copy, whose head is weak until the log is copied again. Openings that read the head answer its records, others
//!   [`OpenFault::NoStore`].
//!
//! What firmware has to promise stands at [`FlashBank`]. Not part of the model: parts that program no word of 8 octets by itself or refuse zeros
//! over a word that was programmed.
//!
//! # Decay
//!
//! A bit may lose its charge over the years, or gain one where words beside it are programmed. Each record has a check of 32 bits over its slot, its
//! length and its octets (in a cell 64, also those that were left erased): a residue modulo a prime; and so has the number of the records of the front.
//! An opening looks at the front and the cells of the live bank, one pass, before it programs anything. A record that counts and has another check makes
//! it answer [`OpenFault::Decayed`] (`decayed` of `open`), with the banks as they were. Each change within one octet, or of the slot and the length,
//! gives another check ([`laws::a_changed_octet_is_seen`], [`laws::a_changed_slot_is_seen`]), each change of at most four bits too (counted for this
//! prime, not proved), and of all others all but one in 4 * 10^9. Marks are read by most of their 64 bits, where nothing is torn, so a few bits of one
//! that have changed make no difference. One bit of the head makes a live bank none: since the other one is retired, the answer is
//! [`OpenFault::NoStore`].
//!
//! A node whose store has decayed must not go on with what is left: a counter may be among it. Format the banks, and let it join again.
//!
//! A put looks whether its cell is erased, and a copy at the check of each record: it fails where bits have changed since the opening. A get
//! does not: what was opened long ago [`has_decayed`] checks again, asked of [`FlashKeeper::live`].
//!
//! # After a failed put
//!
//! The keeper answers each get as before, and fails each further put. [`FlashKeeper::reopen`] settles in the same banks what the put left, and says
//! whether the old record or the new one counts; then the node is restarted over it. Or whoever has it takes the banks ([`FlashKeeper::into_banks`]) and
//! opens them anew. A `restart` alone does not do: its puts fail.
//!
//! # Where power fails in a put
//!
//! A put programs check, slot and length, the octets, a fence that says that these are whole, and the mark that makes the cell count. An opening
//! settles the last cell in place, and erases nothing (`in_place` of `Pair::finish`):
//!
//! - the mark reads as begun: it programs the mark again, and the cell counts;
//! - the fence reads as not begun, so the mark was not either: it programs the close of the cell, which never counts then;
//! - the fence reads as begun and the close does not: the record is whole, so it programs the fence again and then the mark, and the cell counts.
//!
//! One case is left in which it copies the log without the cell: the fence and the close read as begun, and the mark does not. For that power has to
//! fail in the program of the fence and again in an opening that read it as not begun, in the one program of the close. No words could decide that case
//! in place for every row of losses of power. In 86,000 openings at a bouncing supply, after a cut at each of 11 places, it came twice.
//!
//! # Figures
//!
//! | | |
//! |---|---|
//! | RAM | two [`FlashBank`] objects and 72 octets (40 to 48 on a 32-bit machine); no table of slots, no buffer that stays, no allocation |
//! | flash, per bank | 32 octets; 8 for each record that the last copy kept, and its octets in words of 8; and 96 for each put since |
//! | a put | 3 programs of slot, fence and mark, and one for each 8 octets of the record: 11 at most |
//! | an opening | 2 programs, and one cell; one program more after a cut in a fence; 3 more in the first one after a bank was copied, which are of heads |
//! | a word of a head | programmed at most 4 times between erases, one of a cell twice, one of the front once, and oftener as above |
//! | a bank that is full | one erase, 6 programs, and a copy of each record by 9 at most; then the other bank is live, so the banks wear by turns |
//! | erases | one in as many puts and openings as there are cells behind the records, and one after two cuts in a row as above |
//! | words read | an opening: each record of the front, three of each cell, ten more if it counts; a get: two of each cell from the end, then of the front |
//!
//! A meter has at most 166 records, which take 339 words. So two banks of 4 KiB have 14 cells behind them, and there is one erase in 14 puts and openings;
//! two of 20 KiB have 184. A bank with hardly more words than its records take is erased at each put: [`FlashKeeper::format`] takes how many puts there are
//! to be between two erases. Nodes get records when they open, and hold them after that.
#![tactic(auto)]

mod bank;
mod cells;
mod check;
mod copy;
mod front;
mod keeper;
pub mod laws;
mod model_flash;
mod pair;
mod records;

pub use bank::{FlashBank, LAYOUT, layout_of};
pub use cells::has_decayed;
pub use keeper::{FlashKeeper, OpenFault};
pub use model_flash::{Cut, ModelFlash};
