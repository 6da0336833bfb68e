//! The keeper.
ghost use Rattle.std.specs.Prelude.{◌≡◌, ◌<◌, ◌≤◌, ◌+◌, ◌-◌, ◌^◌, ◌/◌, ◌||◌, ℕ, is_ok, OnOk, OnErr, IfOk, IfErr, None, true, false, ◌⊎◌};
ghost use Rattle.std.specs.FinMap.{insert};
ghost use Rattle.std.specs.FinMap as map;
ghost use Rattle.plc_base.specs.Keeper.{IsSlot, Puts};
ghost use Rattle.flash_keeper.specs.Log.{Choice, IsLeft};
ghost use Rattle.flash_keeper.specs.Banks.{AreLeft, ArePurged, IsStore, IsCause, IsOpened, IsLeftBy, IsLeftOpen, IsDecayed, MayOpen, FlashStore};
ghost use Rattle.flash_keeper.specs.Banks.{HasCause, kept_store};
ghost use Rattle.flash_keeper.specs.Flash.{IsBlank};
ghost use Rattle.flash_keeper.specs.Front.{front_in};
ghost use Rattle.flash_keeper.specs.declared.front.Front.{Front};
ghost use Rattle.flash_keeper.specs.Wear.{one_if, worn_of, worn_with, AreProgrammed};

use crate::bank::FlashBank;
use crate::cells::{CELL, find, has_decayed, sound_front};
use crate::front::{BEFORE, NO_FRONT};
use crate::pair::{Pair, generation_of, wipe};
use plc_base::{Failed, Keeper, Record};
use std::marker::Model;
use thiserror::Error;

/// Why a store was not opened.
#[derive(Clone, Copy, Debug, PartialEq, Eq, Drop, Error)]
pub enum OpenFault {
    /// A program or an erase failed.
    #[error("the flash failed")]
    Flash,
    /// Neither bank has a store of this layout.
    #[error("no bank has a store of this layout")]
    NoStore,
    /// One bank has more words than the other.
    #[error("the banks have different sizes")]
    Sizes,
    /// A bank has no room for so many puts beside the records.
    #[error("the banks are too small for such records")]
    Small,
    /// Bits of a cell have changed by themselves since it was written.
    #[error("a record has decayed")]
    Decayed,
}

/// A keeper over two banks of NOR flash.
///
/// A contract sees what it holds, what an opening of its banks may find in place of that, whether nothing but its records is left in them, and the two
/// causes for which a put may fail: a program or an erase of one of its banks has failed, or a bank has no cell more than there are records. Then how
/// much oftener a word of its banks was programmed since the erase of its bank than in a life in which nothing fails (`worn`), and whether no cell of its
/// log is left (`used_up`). After `Failed` it holds the records from before, and each further put fails, until it is reopened. To a node over it what an
/// opening may find is pending (`kept_store`).
#[derive(Drop)]
pub struct FlashKeeper<B: FlashBank + Drop> {
    pair: Pair<B>,
    failed: bool,
    faults: u64,
}

impl<B: FlashBank + Drop> Model for FlashKeeper<B> {
    ghost use Rattle.std.specs.Prelude.{None, ◌||◌, leb};
    ghost use Rattle.flash_keeper.specs.Log.{room, upto, upto_fence};
    ghost use Rattle.flash_keeper.specs.Wear.{worn_with};
    ghost use Rattle.flash_keeper.specs.Banks.{FlashStore, flash_store_code, IsKept, are_full, are_purged};

    ghost Value = { FlashStore };

    ghost coded = { flash_store_code };

    ghost view = { λ k. record {
      store = record { records = upto k.pair.front (B.bank k.pair.live).words k.pair.next; pending = None; faults = k.faults; known_cut = None; listed = None };
      left = upto_fence k.pair.front (B.bank k.pair.live).words k.pair.next;
      purged = are_purged (B.bank k.pair.spare) k.pair.next;
      has_failed = B.has_failed k.pair.live || B.has_failed k.pair.spare;
      full = are_full k.pair.front (B.bank k.pair.live) k.pair.next;
      worn = worn_with k.pair.front (B.bank k.pair.live) (B.bank k.pair.spare);
      used_up = leb (room k.pair.front (B.bank k.pair.live).size) k.pair.next;
    } };

    ghost invariant = { λ k. IsKept k.pair.front (B.bank k.pair.live) (B.bank k.pair.spare) k.pair.next k.pair.copied k.failed
        (B.has_failed k.pair.live || B.has_failed k.pair.spare) };
}

impl<B: FlashBank + Drop> FlashKeeper<B> {
    /// Retires and erases two banks, and makes them a store with no record: for a device that has none yet, since all that they held is lost.
    ///
    /// `words` is how many words the records take at most, of each slot one: a word for each, and one for each 8 octets begun. `puts` is how many puts and
    /// openings there are to be between two erases of a bank, at least: a bank with hardly more words than its records take would be erased at each
    /// put, and worn out in months. It gives the banks back with its fault: [`OpenFault::Sizes`] where they have different sizes, or
    /// [`OpenFault::Small`] where a bank has no room for so many puts beside such records, and then nothing was done; or [`OpenFault::Flash`] where a
    /// program or an erase failed, and then they are to be formatted again.
    #[tactic(auto, using(crate::proofs::KeeperLemmas::kept_of_ready, crate::proofs::KeeperLemmas::kept_of_failed, crate::proofs::KeeperLemmas::nothing_else))]
    pub fn format(
        first: B,
        second: B,
        words: usize,
        puts: usize,
    ) -> Result<FlashKeeper<B>, (OpenFault, B, B)>
        ensures ok { IfOk result (λ keeper. keeper.store ≡ record { records = map.empty; pending = None; faults = 0; known_cut = None; listed = None }) }
        ensures left { IfOk result (λ keeper. keeper.left ≡ map.empty) }
        ensures purged { IfOk result (λ keeper. keeper.purged ≡ true) }
        ensures worn { IfOk result (λ keeper. keeper.worn ≡ 0) }
        ensures sizes { IfOk result (λ keeper. (B.bank first).size ≡ (B.bank second).size) }
        ensures cells { IfOk result (λ keeper. puts ≤ ((B.bank first).size - (4 + words)) / 12) }
        ensures fault { IfErr result (λ e. ((e.0 ≡ OpenFault.Small) × (((B.bank first).size - (4 + words)) / 12 < puts))
            ⊎ IsCause e.0 (B.bank first) (B.bank second)) }
        ensures failed { IfErr result (λ e. e.0 ≡ OpenFault.Flash → (B.has_failed e.1 ≡ true) ⊎ (B.has_failed e.2 ≡ true)) }
    {
        if first.words() != second.words() {
            return Err((OpenFault::Sizes, first, second));
        }
        let behind = first.words().saturating_sub(BEFORE.saturating_add(words));
        if behind / CELL < puts {
            return Err((OpenFault::Small, first, second));
        }
        let mut pair = Pair {
            live: first,
            spare: second,
            front: NO_FRONT,
            next: 0,
            generation: 1,
            copied: None,
        };
        let Ok(()) = pair.format() else {
            return Err((OpenFault::Flash, pair.live, pair.spare));
        };
        Ok(FlashKeeper {
            pair,
            failed: false,
            faults: 0,
        })
    }

    // Settles two banks, of which the first one read as live, unless a cell of it has decayed.
    #[tactic(auto, using(crate::proofs::KeeperLemmas::kept_of_ready, crate::proofs::KeeperLemmas::kept_of_failed, crate::proofs::KeeperLemmas::nothing_else))]
    fn settled(live: B, spare: B, generation: u64) -> Result<FlashKeeper<B>, (OpenFault, B, B)>
        requires left { ((c : Choice) × (front : Front) × (n : ℕ) × AreLeft front (B.bank live) (B.bank spare) n c) ⊎ IsDecayed (B.bank live) (B.bank spare) }
        requires sizes { (B.bank live).size ≡ (B.bank spare).size }
        ensures opened { IfOk result (λ keeper. (front : Front) (n : ℕ) (c : Choice) → AreLeft front (B.bank live) (B.bank spare) n c → IsOpened c keeper) }
        ensures sizes { (B.bank live).size ≡ (B.bank spare).size }
        ensures fault { IfErr result (λ e. (e.0 ≡ OpenFault.Flash) ⊎ ((e.0 ≡ OpenFault.Decayed)
            × ((front : Front) (n : ℕ) (c : Choice) → AreLeft front (B.bank live) (B.bank spare) n c → ⊥))) }
        ensures decayed { IsDecayed (B.bank live) (B.bank spare) → (IfOk result (λ keeper. ⊥)) × IfErr result (λ e. (e.0 ≡ OpenFault.Decayed)
            × (B.bank e.1 ≡ B.bank live) × (B.bank e.2 ≡ B.bank spare)) }
        ensures failed { IfErr result (λ e. e.0 ≡ OpenFault.Flash → (B.has_failed e.1 ≡ true) ⊎ (B.has_failed e.2 ≡ true)) }
        ensures left { IfErr result (λ e. (front : Front) (n : ℕ) (c : Choice) → AreLeft front (B.bank live) (B.bank spare) n c
            → IsStore (B.bank e.1) (B.bank e.2) c) }
        ensures worn { IfOk result (λ keeper. keeper.worn
            ≤ worn_with (front_in (B.bank live)) (B.bank live) (B.bank spare) + one_if (B.bank spare).torn + one_if keeper.used_up) }
        ensures cut { IfErr result (λ e. worn_of (B.bank e.1) (B.bank e.2)
            ≤ worn_with (front_in (B.bank live)) (B.bank live) (B.bank spare) + one_if (B.bank spare).torn + 1) }
    {
        let Some(front) = sound_front(&live) else {
            return Err((OpenFault::Decayed, live, spare));
        };
        let mut pair = Pair {
            live,
            spare,
            front,
            next: 0,
            generation,
            copied: None,
        };
        let Ok(()) = pair.settle() else {
            return Err((OpenFault::Flash, pair.live, pair.spare));
        };
        Ok(FlashKeeper {
            pair,
            failed: false,
            faults: 0,
        })
    }

    /// Opens the store in two banks, in either order, after a start or after a failed put.
    ///
    /// Whatever two records the banks may stand for (`IsStore`, which `into_banks` gives), it holds one of them, and so does every later
    /// opening (`opened`). With a fault it gives the banks back, which then stand for the same records (`left`), so they can be opened again:
    ///
    /// - [`OpenFault::Flash`] where a program or an erase failed;
    /// - [`OpenFault::NoStore`] where neither bank reads as a live one. Neither then is one firmly (`fault`): the banks have no store, or
    ///   power failed in the mark of a copy and, in the opening after that, in the program that retires this copy. Open them again in that case:
    ///   what it finds is right;
    /// - [`OpenFault::Sizes`] where the banks have different sizes;
    /// - [`OpenFault::Decayed`] where a cell that counts has another check than that of its slot, its length and its octets: bits have changed by
    ///   themselves, and the banks are no store as it was written (`fault`). Nothing was programmed. It answers that, and nothing else, for each
    ///   live bank with such a cell beside a retired one (`decayed`). What is left may lack a counter: format the banks, and join again.
    ///
    /// It programs no word oftener than in a life in which nothing fails (`worn`), but once where an erase of a bank was cut short, or where it leaves no
    /// cell of the log; with a fault once more (`cut`).
    #[tactic(auto, using(crate::proofs::BankLemmas::decayed_is_seen))]
    pub fn open(first: B, second: B) -> Result<FlashKeeper<B>, (OpenFault, B, B)>
        requires { MayOpen (B.bank first) (B.bank second) }
        ensures opened { IfOk result (λ keeper. (c : Choice) → IsStore (B.bank first) (B.bank second) c → IsOpened c keeper) }
        ensures sizes { IfOk result (λ keeper. (B.bank first).size ≡ (B.bank second).size) }
        ensures fault { IfErr result (λ e. IsCause e.0 (B.bank first) (B.bank second)) }
        ensures decayed { IsDecayed (B.bank first) (B.bank second) ⊎ IsDecayed (B.bank second) (B.bank first) → (B.bank first).size ≡ (B.bank second).size
            → (IfOk result (λ keeper. ⊥)) × IfErr result (λ e. e.0 ≡ OpenFault.Decayed) }
        ensures failed { IfErr result (λ e. e.0 ≡ OpenFault.Flash → (B.has_failed e.1 ≡ true) ⊎ (B.has_failed e.2 ≡ true)) }
        ensures left { IfErr result (λ e. (c : Choice) → IsStore (B.bank first) (B.bank second) c → IsStore (B.bank e.1) (B.bank e.2) c) }
        ensures worn { IfOk result (λ keeper. keeper.worn
            ≤ worn_of (B.bank first) (B.bank second) + one_if ((B.bank first).torn || (B.bank second).torn) + one_if keeper.used_up) }
        ensures cut { IfErr result (λ e. worn_of (B.bank e.1) (B.bank e.2)
            ≤ worn_of (B.bank first) (B.bank second) + one_if ((B.bank first).torn || (B.bank second).torn) + 1) }
    {
        if first.words() != second.words() {
            return Err((OpenFault::Sizes, first, second));
        }
        let one = generation_of(&first);
        let two = generation_of(&second);
        let Some(earlier) = one else {
            let Some(later) = two else {
                return Err((OpenFault::NoStore, first, second));
            };
            return FlashKeeper::settled(second, first, later);
        };
        let Some(later) = two else {
            return FlashKeeper::settled(first, second, earlier);
        };
        if earlier < later {
            return FlashKeeper::settled(second, first, later);
        }
        FlashKeeper::settled(first, second, earlier)
    }

    /// Opens the store again in the same banks, after a failed put or purge, and settles what that left: then it holds what it held, or what an opening
    /// might have found in place of that (`among`), and puts go on. It reads no head: what it knows of its banks is not lost.
    ///
    /// - [`OpenFault::Flash`] only where a program or an erase failed (`fault`): call it again;
    /// - [`OpenFault::Decayed`] where a cell of the bank in use has decayed, as `open` does; nothing was programmed. In the model no bit of a keeper's banks
    ///   changes by itself, so there it does not come (`fault`).
    ///
    /// With a fault it holds one of the two still, an opening finds one of the two (`among`), and each further put fails. It programs no word more than
    /// twice oftener than in a life in which nothing fails (`worn`).
    #[tactic(auto, using(crate::proofs::KeeperLemmas::kept_of_ready, crate::proofs::KeeperLemmas::kept_of_failed, crate::proofs::KeeperLemmas::nothing_else))]
    pub fn reopen(&mut self) -> Result<(), OpenFault>
        ensures among { IsLeftOpen self.old self.new }
        ensures opened { OnOk result (self.new.left ≡ self.new.store.records) }
        ensures worn { self.new.worn ≤ self.old.worn + 2 }
        ensures faults { self.new.store.faults ≡ self.old.store.faults }
        ensures known_cut { self.new.store.known_cut ≡ self.old.store.known_cut }
        ensures listed { self.new.store.listed ≡ self.old.store.listed }
        ensures fault { IfErr result (λ e. (e ≡ OpenFault.Flash) × (self.new.has_failed ≡ true)) }
    {
        self.failed = true;
        if has_decayed(&self.pair.live) {
            return Err(OpenFault::Decayed);
        }
        let Ok(()) = self.pair.reopen() else {
            return Err(OpenFault::Flash);
        };
        self.failed = false;
        Ok(())
    }

    /// Erases two banks, for a device that leaves service: then no word of them, and so no key, is left, however often it is read (`blank`). It gives the
    /// banks back in their order (`sizes`); with an error where a program or an erase failed, and then words may be left, so it is to be called again. The
    /// first one is erased before the second one is begun (`order`).
    pub fn wipe(first: B, second: B) -> Result<(B, B), (B, B)>
        ensures blank { IfOk result (λ banks. IsBlank (B.bank banks.0) × IsBlank (B.bank banks.1)) }
        ensures sizes { IfOk result (λ banks. ((B.bank banks.0).size ≡ (B.bank first).size) × ((B.bank banks.1).size ≡ (B.bank second).size)) }
        ensures order { IfErr result (λ banks. ((B.bank banks.0).size ≡ (B.bank first).size)
            × ((B.bank banks.1 ≡ B.bank second) ⊎ IsBlank (B.bank banks.0))) }
        ensures failed { IfErr result (λ banks. (B.has_failed banks.0 ≡ true) ⊎ (B.has_failed banks.1 ≡ true)) }
    {
        let mut first = first;
        let mut second = second;
        let Ok(()) = wipe(&mut first) else {
            return Err((first, second));
        };
        let Ok(()) = wipe(&mut second) else {
            return Err((first, second));
        };
        Ok((first, second))
    }

    /// Copies the records to the other bank, and erases the one that was used: then nothing but these records, and so no key that was given up, is
    /// left in flash (`purged`). It costs two erases: call it after a device has left or was given other keys, and not at each put.
    ///
    /// It fails only where a program or an erase failed, or where an earlier put found no room (`failed`). After `Failed` it holds the records from before,
    /// as an opening of its banks does (`left`); each further put and purge fails. A purge that failed may have programmed a word once oftener (`cut`).
    #[tactic(auto, using(crate::proofs::KeeperLemmas::kept_of_ready, crate::proofs::KeeperLemmas::kept_of_failed, crate::proofs::KeeperLemmas::nothing_else))]
    pub fn purge(&mut self) -> Result<(), Failed>
        ensures purged { OnOk result (self.new.purged ≡ true) }
        ensures worn { OnOk result (self.new.worn ≤ self.old.worn) }
        ensures cut { OnErr result (self.new.worn ≤ self.old.worn + 1) }
        ensures same { self.new.store.records ≡ self.old.store.records }
        ensures faults { self.new.store.faults ≡ self.old.store.faults }
        ensures known_cut { self.new.store.known_cut ≡ self.old.store.known_cut }
        ensures listed { self.new.store.listed ≡ self.old.store.listed }
        ensures left { (self.new.left ≡ self.old.left) ⊎ (self.new.left ≡ self.old.store.records) }
        ensures failed { OnErr result (HasCause self.new) }
    {
        if self.failed {
            return Err(Failed);
        }
        self.failed = true;
        self.pair.purge()?;
        self.failed = false;
        Ok(())
    }

    /// The bank that stands for the records. An opening looks whether a cell of it has decayed, and no call after it: on a device that runs for years
    /// without an opening ask [`has_decayed`](crate::has_decayed) of it. Where that says so, what a get answers may not be what was put: then open the
    /// banks again, which answers [`OpenFault::Decayed`].
    pub fn live(&self) -> &B
        ensures firm { (B.bank result.now).torn ≡ false }
        ensures log { (front : Front) × (n : ℕ) × IsLeft front (B.bank result.now) n (record { old = self.now.store.records; new = self.now.left }) }
    {
        &self.pair.live
    }

    /// The banks, to be opened again: they stand for the records that it holds, or those that are left of a failed put. After a purge nothing else is in
    /// them: the first one has a cell for each record, and of the second one each word is erased. How often each word of them was programmed since its erase
    /// is bounded by `worn` (`programs`).
    pub fn into_banks(self) -> (B, B)
        ensures store { IsStore (B.bank result.0) (B.bank result.1) (record { old = self.store.records; new = self.left }) }
        ensures purged { self.purged ≡ true → ArePurged (B.bank result.0) (B.bank result.1) self.store.records }
        ensures worn { worn_of (B.bank result.0) (B.bank result.1) ≤ self.worn }
        ensures programs { AreProgrammed self.worn (B.bank result.0) × AreProgrammed self.worn (B.bank result.1) }
    {
        (self.pair.live, self.pair.spare)
    }

    // Writes a record to flash.
    #[tactic(auto, using(crate::proofs::KeeperLemmas::kept_of_ready, crate::proofs::KeeperLemmas::kept_of_full, crate::proofs::KeeperLemmas::nothing_else))]
    fn write(&mut self, slot: u32, octets: &Record) -> Result<(), Failed>
        requires more { 0 < slot }
        requires fits { slot < 2 ^ 16 }
        ensures ok { OnOk result (self.new.store.records ≡ insert self.old.store.records slot octets.now) }
        ensures err { OnErr result (self.new.store.records ≡ self.old.store.records) }
        ensures faults { self.new.store.faults ≡ self.old.store.faults }
        ensures known_cut { self.new.store.known_cut ≡ self.old.store.known_cut }
        ensures listed { self.new.store.listed ≡ self.old.store.listed }
        ensures left { IsLeftBy self.old slot octets.now (is_ok result) self.new }
        ensures worn { OnOk result (self.new.worn ≤ self.old.worn) }
        ensures cut { OnErr result (self.new.worn ≤ self.old.worn + 1) }
        ensures failed { OnErr result (HasCause self.new) }
    {
        if self.failed {
            return Err(Failed);
        }
        self.failed = true;
        self.pair.put(slot, octets)?;
        self.failed = false;
        Ok(())
    }
}

impl<B: FlashBank + Drop> Keeper for FlashKeeper<B> {
    ghost store = { kept_store };

    #[tactic(auto, using(crate::proofs::KeeperLemmas::kept_within))]
    fn get(&self, slot: u32) -> Option<Record> {
        find(&self.pair.live, self.pair.front, self.pair.next, slot)
    }

    /// Writes the record at a slot. It fails only where a program or an erase failed, and where both banks are full of records of other slots (`failed`).
    ///
    /// After `Failed` it holds the records from before, an opening of its banks finds those or the ones with this record (`left`), and each
    /// further put fails. Such a put may have programmed a word once oftener than in a life in which nothing fails, and no other put does (`worn`, `cut`).
    fn put(&mut self, slot: u32, octets: &Record) -> Result<(), Failed>
        requires { IsSlot slot }
        ensures puts { Puts (kept_store self.old) slot octets.now (is_ok result) (kept_store self.new) }
        ensures old { OnErr result (self.new.store.records ≡ self.old.store.records) }
        ensures left { IsLeftBy self.old slot octets.now (is_ok result) self.new }
        ensures worn { OnOk result (self.new.worn ≤ self.old.worn) }
        ensures cut { OnErr result (self.new.worn ≤ self.old.worn + 1) }
        ensures failed { OnErr result (HasCause self.new) }
    {
        let Ok(()) = self.write(slot, octets) else {
            self.faults = self.faults.saturating_add(1);
            return Err(Failed);
        };
        Ok(())
    }
}
