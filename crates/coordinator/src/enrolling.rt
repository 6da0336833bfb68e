//! Meters that the operator lets in.
ghost use Rattle.std.specs.Prelude.{◌≡◌, is_ok, Err, Some, IfSome, IfNone, IfOk, IsSome};
ghost use Rattle.group_keys.specs.KeyBook as book;
ghost use Rattle.node_rules.specs.Drafts as drafts;
ghost use Rattle.node_rules.specs.Coordinators as rules;
ghost use Rattle.node_rules.specs.CarriedPlans.{Carries, nothing};
ghost use Rattle.coordinator.specs.CoordinatorStates.{node_of};
ghost use Rattle.coordinator.specs.CoordinatorAgreement.{CoordinatorReady, CoordinatorAgrees};
ghost use Rattle.coordinator.specs.DraftsCarriedOut.{Does};

use crate::coordinator::Coordinator;
use crate::entries::{allowed, issued};
use node_rules::CoordinatorRefusal;
use plc_base::{Eui, Failed, Grant, Keeper, Key, Short};

impl<K: Keeper + Drop> Coordinator<K> {
    /// Allows a meter to join with this pair key, and answers its address. One that is known keeps its address and the keys that were
    /// issued to it, a new one gets the next address. Where this changes its entry in the book, its session ends.
    ///
    /// Halted, MetersFull, Store, in this order. After Store it is halted, after the others nothing has changed.
    pub fn allow(&mut self, eui: Eui, psk: &Key) -> Result<Short, CoordinatorRefusal>
        requires holds { CoordinatorAgrees (node_of self.old) }
        ensures halted { IfNone (node_of self.old).memory ((result ≡ Err CoordinatorRefusal.Halted)
            × (self.new ≡ self.old)) }
        ensures carries { IfSome (node_of self.old).memory (λ m.
            Carries (node_of self.old) (rules.allow m eui psk.now) result nothing (node_of self.new)) }
        ensures holds { CoordinatorAgrees (node_of self.new) }
    {
        if self.halted() {
            return Err(CoordinatorRefusal::Halted);
        }
        if !self.has_room(eui) {
            return Err(CoordinatorRefusal::MetersFull);
        }
        let entry = allowed(eui, psk, self.entry(eui));
        let Ok(address) = self.enter(entry) else {
            return Err(CoordinatorRefusal::Store);
        };
        Ok(address)
    }

    // A meter that is allowed is granted its address and the keys of the ring, which are noted as issued to it.
    fn issue(&mut self, eui: Eui) -> Result<Grant, Failed>
        requires ready { CoordinatorReady (node_of self.old) }
        requires allowed { IfSome (node_of self.old).memory (λ m. IsSome (rules.allowed_entry m eui)) }
        ensures granted { IfSome (node_of self.old).memory (λ m.
            IfOk result (λ granted. rules.grant_for m eui ≡ Some granted)) }
        ensures does { IfSome (node_of self.old).memory (λ m.
            IfSome (rules.grant_for m eui) (λ granted. IfSome (rules.allowed_entry m eui) (λ e.
            Does (node_of self.old) (rules.with_book_entry (book.issued_entry eui granted e) (drafts.empty_draft m))
            (is_ok result) (node_of self.new)))) }
        ensures holds { CoordinatorAgrees (node_of self.new) }
    {
        let Some(grant) = self.grant_for(eui) else {
            unreachable!()
        };
        let Some(entry) = self.allowed_one(eui) else {
            unreachable!()
        };
        self.keep_entry(issued(eui, &grant, &entry))?;
        Ok(grant)
    }

    /// Joins a meter in the workshop: it is allowed with this pair key, and what it is granted is answered, whose keys are noted as
    /// issued to it. Where this changes its entry in the book, its session ends.
    ///
    /// Halted, MetersFull, Store, in this order. After Store it is halted, after the others nothing has changed.
    pub fn depot(&mut self, eui: Eui, psk: &Key) -> Result<Grant, CoordinatorRefusal>
        requires holds { CoordinatorAgrees (node_of self.old) }
        ensures halted { IfNone (node_of self.old).memory ((result ≡ Err CoordinatorRefusal.Halted)
            × (self.new ≡ self.old)) }
        ensures carries { IfSome (node_of self.old).memory (λ m.
            Carries (node_of self.old) (rules.depot m eui psk.now) result nothing (node_of self.new)) }
        ensures holds { CoordinatorAgrees (node_of self.new) }
    {
        if self.halted() {
            return Err(CoordinatorRefusal::Halted);
        }
        if !self.has_room(eui) {
            return Err(CoordinatorRefusal::MetersFull);
        }
        let entry = allowed(eui, psk, self.entry(eui));
        let Ok(_) = self.enter(entry) else {
            return Err(CoordinatorRefusal::Store);
        };
        let Ok(grant) = self.issue(eui) else {
            return Err(CoordinatorRefusal::Store);
        };
        Ok(grant)
    }
}
