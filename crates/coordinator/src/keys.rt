//! The group keys that the coordinator draws and seals with.
ghost use Rattle.std.specs.Prelude.{◌≡◌, ◌==◌, true, false, Err, Some, None, IfSome, IfNone};
ghost use Rattle.std.specs.Option.{option_map_or};
ghost use Rattle.plc_base.specs.Grant as grants;
ghost use Rattle.node_rules.specs.Calls as calls;
ghost use Rattle.node_rules.specs.Drafts as drafts;
ghost use Rattle.node_rules.specs.MemoryDrafts as words;
ghost use Rattle.node_rules.specs.Coordinators as rules;
ghost use Rattle.node_rules.specs.CarriedPlans.{Carries, nothing};
ghost use Rattle.coordinator.specs.CoordinatorStates.{node_of};
ghost use Rattle.coordinator.specs.CoordinatorAgreement.{CoordinatorReady, HasCoordinatorAddress, CoordinatorAgrees};

use crate::coordinator::Coordinator;
use node_rules::CoordinatorRefusal;
use plc_base::{Keeper, Key, KeyIndex};

impl<K: Keeper + Drop> Coordinator<K> {
    // Whether the key at an index is the one that seals.
    fn is_active(&self, index: KeyIndex) -> bool
        ensures { IfSome (node_of self.now).memory (λ m.
            result ≡ option_map_or (λ (g : grants.Granted). g.active == index) m.station.ring false) }
    {
        match self.station.ring().active() {
            Some(active) => active.number() == index.number(),
            None => false,
        }
    }

    // Whether a key is held at an index.
    fn has_key(&self, index: KeyIndex) -> bool
        ensures { IfSome (node_of self.now).memory (λ m. result ≡ calls.has_key m.station index) }
    {
        self.station.ring().key(index).is_some()
    }

    // Keeps a key at an index.
    fn draw(&mut self, index: KeyIndex, key: &Key) -> Result<(), CoordinatorRefusal>
        requires ready { CoordinatorReady (node_of self.old) }
        ensures carries { IfSome (node_of self.old).memory (λ m.
            Carries (node_of self.old) (drafts.sealing words.in_memory rules.orders
            (words.on_station (calls.with_key_at m.station index key.now) (drafts.empty_draft m)) tt)
            result nothing (node_of self.new)) }
        ensures home { HasCoordinatorAddress self.old.station.store.records → HasCoordinatorAddress self.new.station.store.records }
        ensures holds { CoordinatorAgrees (node_of self.new) }
    {
        let Ok(()) = self.station.put_key(index, key) else {
            return Err(CoordinatorRefusal::Store);
        };
        Ok(())
    }

    // Makes the key at an index, which is held, the one that seals.
    fn set_active(&mut self, index: KeyIndex) -> Result<(), CoordinatorRefusal>
        requires ready { CoordinatorReady (node_of self.old) }
        requires held { IfSome (node_of self.old).memory (λ m. calls.has_key m.station index ≡ true) }
        ensures carries { IfSome (node_of self.old).memory (λ m.
            Carries (node_of self.old) (drafts.sealing words.in_memory rules.orders
            (words.on_station (calls.with_active m.station index) (drafts.empty_draft m)) tt)
            result nothing (node_of self.new)) }
        ensures home { HasCoordinatorAddress self.old.station.store.records → HasCoordinatorAddress self.new.station.store.records }
        ensures holds { CoordinatorAgrees (node_of self.new) }
    {
        let Ok(()) = self.station.activate(index) else {
            return Err(CoordinatorRefusal::Store);
        };
        Ok(())
    }

    /// Keeps a key at an index, 0 or 1, of its ring, for the grants from now on.
    ///
    /// Halted, IndexActive exactly for the index of the key that seals, Store, in this order. After Store it is halted, after the
    /// others nothing has changed.
    pub fn rekey(&mut self, index: KeyIndex, key: &Key) -> Result<(), CoordinatorRefusal>
        requires holds { CoordinatorAgrees (node_of self.old) }
        ensures halted { IfNone (node_of self.old).memory ((result ≡ Err CoordinatorRefusal.Halted)
            × (self.new ≡ self.old)) }
        ensures carries { IfSome (node_of self.old).memory (λ m.
            Carries (node_of self.old) (rules.rekey m index key.now) result nothing (node_of self.new)) }
        // Whichever write fails, the keeper holds a ring with the address 0000 as before.
        ensures home { HasCoordinatorAddress self.old.station.store.records → HasCoordinatorAddress self.new.station.store.records }
        ensures holds { CoordinatorAgrees (node_of self.new) }
    {
        if self.halted() {
            return Err(CoordinatorRefusal::Halted);
        }
        if self.is_active(index) {
            return Err(CoordinatorRefusal::IndexActive);
        }
        self.draw(index, key)
    }

    /// Seals with the key at an index, 0 or 1, from now on.
    ///
    /// Halted, NotHeld exactly where no key is held there, Store, in this order. After Store it is halted, after the others nothing
    /// has changed.
    pub fn activate_self(&mut self, index: KeyIndex) -> Result<(), CoordinatorRefusal>
        requires holds { CoordinatorAgrees (node_of self.old) }
        ensures halted { IfNone (node_of self.old).memory ((result ≡ Err CoordinatorRefusal.Halted)
            × (self.new ≡ self.old)) }
        ensures carries { IfSome (node_of self.old).memory (λ m.
            Carries (node_of self.old) (rules.activate_self m index) result nothing (node_of self.new)) }
        // Whichever write fails, the keeper holds a ring with the address 0000 as before.
        ensures home { HasCoordinatorAddress self.old.station.store.records → HasCoordinatorAddress self.new.station.store.records }
        ensures holds { CoordinatorAgrees (node_of self.new) }
    {
        if self.halted() {
            return Err(CoordinatorRefusal::Halted);
        }
        if !self.has_key(index) {
            return Err(CoordinatorRefusal::NotHeld);
        }
        self.set_active(index)
    }
}
