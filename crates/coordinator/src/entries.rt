//! What the coordinator looks up, and the entries of its book.
ghost use Rattle.std.specs.Prelude.{◌≡◌, ◌+◌, true, is_ok, Some, None, IfSome, IfOk, IsSome};
ghost use Rattle.std.specs.Bool.{MatchBool};
ghost use Rattle.group_keys.specs.KeyBook as book;
ghost use Rattle.node_rules.specs.Drafts as drafts;
ghost use Rattle.node_rules.specs.Coordinators as rules;
ghost use Rattle.coordinator.specs.CoordinatorStates.{node_of};
ghost use Rattle.coordinator.specs.CoordinatorAgreement.{CoordinatorReady, CoordinatorAgrees};
ghost use Rattle.coordinator.specs.DraftsCarriedOut.{Does};

use crate::coordinator::Coordinator;
use group_keys::BookEntry;
use plc_base::{Eui, Failed, Grant, Keeper, Key, Short};

// The entry of a meter that is allowed with a pair key: one that is known keeps the keys that were issued to it.
pub(crate) fn allowed(eui: Eui, psk: &Key, known: Option<BookEntry>) -> BookEntry
    ensures { result ≡ book.allowed_entry eui psk.now known }
{
    let (issued0, issued1) = match known {
        Some(entry) => (entry.issued0, entry.issued1),
        None => (None, None),
    };
    BookEntry {
        eui,
        psk: *psk,
        allowed: true,
        issued0,
        issued1,
    }
}

// The entry of a meter that is kicked.
pub(crate) fn kicked(entry: &BookEntry) -> BookEntry
    ensures { result ≡ book.kicked_entry entry.now.eui entry.now }
{
    BookEntry {
        eui: entry.eui,
        psk: entry.psk,
        allowed: false,
        issued0: None,
        issued1: None,
    }
}

// The entry of a meter to which the keys of a grant are issued.
pub(crate) fn issued(eui: Eui, grant: &Grant, entry: &BookEntry) -> BookEntry
    ensures { result ≡ book.issued_entry eui grant.now entry.now }
{
    BookEntry {
        eui,
        psk: entry.psk,
        allowed: entry.allowed,
        issued0: grant.keys[0],
        issued1: grant.keys[1],
    }
}

impl<K: Keeper + Drop> Coordinator<K> {
    // Whether it is halted.
    pub(crate) fn halted(&self) -> bool
        ensures { MatchBool result ((node_of self.now).memory ≡ None) (IsSome (node_of self.now).memory) }
    {
        self.station.halted()
    }

    // Whether there is a place for the entry of a meter.
    pub(crate) fn has_room(&self, eui: Eui) -> bool
        ensures { IfSome (node_of self.now).memory (λ m. result ≡ book.has_room m.book eui) }
    {
        self.book.has_room(eui)
    }

    // The entry of a meter.
    pub(crate) fn entry(&self, eui: Eui) -> Option<BookEntry>
        ensures { IfSome (node_of self.now).memory (λ m. result ≡ book.entry_for m.book eui) }
    {
        self.book.entry(eui)
    }

    // Whether the book has this very entry.
    pub(crate) fn has_entry(&self, entry: &BookEntry) -> bool
        ensures { IfSome (node_of self.now).memory (λ m. result ≡ book.holds m.book entry.now) }
    {
        self.book.holds(entry)
    }

    // The entry of a meter that is allowed, for which there is a place.
    pub(crate) fn allowed_one(&self, eui: Eui) -> Option<BookEntry>
        ensures entry { IfSome (node_of self.now).memory (λ m. result ≡ rules.allowed_entry m eui) }
    {
        let entry = self.book.entry(eui)?;
        if entry.allowed {
            return Some(entry);
        }
        None
    }

    // What a meter is granted: its address in the book, and the keys of the ring.
    pub(crate) fn grant_for(&self, eui: Eui) -> Option<Grant>
        ensures { IfSome (node_of self.now).memory (λ m. result ≡ rules.grant_for m eui) }
    {
        let address = self.book.address(eui)?;
        let grant = self.station.ring().grant()?;
        Some(Grant { address, ..grant })
    }

    // An entry becomes that of its meter in the book. It is halted where that is not stored.
    pub(crate) fn keep_entry(&mut self, entry: BookEntry) -> Result<Short, Failed>
        requires ready { CoordinatorReady (node_of self.old) }
        requires room { IfSome (node_of self.old).memory (λ m. book.has_room m.book entry.eui ≡ true) }
        ensures address { IfSome (node_of self.old).memory (λ m.
            IfOk result (λ address. address ≡ book.place_for m.book entry.eui + 1)) }
        ensures does { IfSome (node_of self.old).memory (λ m.
            Does (node_of self.old) (rules.with_book_entry entry (drafts.empty_draft m))
            (is_ok result) (node_of self.new)) }
        ensures holds { CoordinatorAgrees (node_of self.new) }
    {
        let Ok(address) = self.book.change(self.station.keeper_mut(), entry) else {
            self.station.halt();
            return Err(Failed);
        };
        Ok(address)
    }

    // The session of a meter ends.
    pub(crate) fn end_session(&mut self, eui: Eui)
        requires holds { CoordinatorAgrees (node_of self.old) }
        ensures state { IfSome (node_of self.old).memory (λ m.
            node_of self.new ≡ record (node_of self.old) { memory = Some (rules.without_session eui m) }) }
        ensures holds { CoordinatorAgrees (node_of self.new) }
    {
        self.sessions.end(eui);
    }

    // An entry becomes that of its meter. The session of the meter ends where the book had another entry.
    pub(crate) fn enter(&mut self, entry: BookEntry) -> Result<Short, Failed>
        requires ready { CoordinatorReady (node_of self.old) }
        requires room { IfSome (node_of self.old).memory (λ m. book.has_room m.book entry.eui ≡ true) }
        ensures address { IfSome (node_of self.old).memory (λ m.
            IfOk result (λ address. address ≡ book.place_for m.book entry.eui + 1)) }
        ensures does { IfSome (node_of self.old).memory (λ m.
            Does (node_of self.old) (rules.changed m entry) (is_ok result) (node_of self.new)) }
        ensures holds { CoordinatorAgrees (node_of self.new) }
    {
        if self.has_entry(&entry) {
            return self.keep_entry(entry);
        }
        let Ok(address) = self.keep_entry(entry) else {
            return Err(Failed);
        };
        self.end_session(entry.eui);
        Ok(address)
    }
}
