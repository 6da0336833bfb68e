//! What a station does about its ring.
ghost use Rattle.std.specs.Prelude.{◌≡◌, true, Some, None, Err, IfSome, IfNone, IsSome, is_some};
ghost use Rattle.group_keys.specs.KeyRing as ring;
ghost use Rattle.node_rules.specs.Drafts as drafts;
ghost use Rattle.node_rules.specs.Calls as calls;
ghost use Rattle.node_rules.specs.CarriedPlans.{Carries, nothing};
ghost use Rattle.node_rules.specs.Agreement.{Agrees};
ghost use Rattle.plc_station.specs.Ready.{After, Ready};

use crate::station::Station;
use node_rules::RingRefusal;
use plc_base::{Grant, Keeper, Key, KeyIndex};

impl<K: Keeper + Drop> Station<K> {
    // Keeps a grant as the ring of a station that runs.
    fn keep_grant(&mut self, grant: &Grant) -> Result<(), RingRefusal>
        requires ready { Ready self.old }
        ensures carries { IfSome self.old.memory
            (λ l. Carries self.old (calls.install l grant.now) result nothing self.new) }
        ensures after { After self.old self.new }
    {
        self.halted = true;
        let Ok(()) = self.parts.ring.keep(&mut self.keeper, Some(*grant)) else {
            return Err(RingRefusal::Store);
        };
        self.halted = false;
        Ok(())
    }

    /// Keeps a grant as its ring. Halted, Store; after Store it is halted.
    pub fn install(&mut self, grant: &Grant) -> Result<(), RingRefusal>
        requires agrees { Agrees self.old }
        ensures halted { IfNone self.old.memory ((result ≡ Err RingRefusal.Halted) × (self.new ≡ self.old)) }
        ensures carries { IfSome self.old.memory
            (λ l. Carries self.old (calls.install l grant.now) result nothing self.new) }
        ensures after { After self.old self.new }
    {
        if self.halted {
            return Err(RingRefusal::Halted);
        }
        self.keep_grant(grant)
    }

    // Keeps a key at an index of the ring of a station that runs.
    fn keep_key(&mut self, index: KeyIndex, key: &Key) -> Result<(), RingRefusal>
        requires ready { Ready self.old }
        requires joined { IfSome self.old.memory (λ l. IsSome l.ring) }
        ensures carries { IfSome self.old.memory
            (λ l. Carries self.old (calls.put_key l index key.now) result nothing self.new) }
        // Whatever became of the put, the ring that the records give is the one before or the new one.
        ensures either { IfSome self.old.memory (λ l. ring.IsOldRingOrAgrees (ring.with_key l.ring index key.now)
            self.old.store.records self.new.store.records) }
        ensures after { After self.old self.new }
    {
        self.halted = true;
        let Ok(()) = self.parts.ring.put(&mut self.keeper, index, key) else {
            return Err(RingRefusal::Store);
        };
        self.halted = false;
        Ok(())
    }

    /// Keeps a key at an index of its ring. Halted, NotJoined exactly where it has no ring, Store, in this order; after Store it is
    /// halted.
    pub fn put_key(&mut self, index: KeyIndex, key: &Key) -> Result<(), RingRefusal>
        requires agrees { Agrees self.old }
        ensures halted { IfNone self.old.memory ((result ≡ Err RingRefusal.Halted) × (self.new ≡ self.old)) }
        ensures unjoined { IfSome self.old.memory (λ l. l.ring ≡ None
            → (result ≡ Err RingRefusal.NotJoined) × (self.new ≡ self.old)) }
        ensures carries { IfSome self.old.memory (λ l. IsSome l.ring
            → Carries self.old (calls.put_key l index key.now) result nothing self.new) }
        // Whatever became of the put, the ring that the records give is the one before or the new one.
        ensures either { IfSome self.old.memory (λ l. ring.IsOldRingOrAgrees (ring.with_key l.ring index key.now)
            self.old.store.records self.new.store.records) }
        ensures after { After self.old self.new }
    {
        if self.halted {
            return Err(RingRefusal::Halted);
        }
        let Some(_) = self.parts.ring.grant() else {
            return Err(RingRefusal::NotJoined);
        };
        self.keep_key(index, key)
    }

    // Makes the key at an index the one that seals.
    fn set_active(&mut self, index: KeyIndex) -> Result<(), RingRefusal>
        requires ready { Ready self.old }
        requires held { IfSome self.old.memory (λ l. is_some (ring.key_in_ring l.ring index) ≡ true) }
        ensures carries { IfSome self.old.memory
            (λ l. Carries self.old
            (calls.ring_ends (drafts.with_ring (ring.with_active l.ring index)
            (drafts.empty_draft l))) result nothing self.new) }
        ensures either { IfSome self.old.memory (λ l. ring.IsOldRingOrAgrees (ring.with_active l.ring index)
            self.old.store.records self.new.store.records) }
        ensures after { After self.old self.new }
    {
        self.halted = true;
        let Ok(()) = self.parts.ring.set_active(&mut self.keeper, index) else {
            return Err(RingRefusal::Store);
        };
        self.halted = false;
        Ok(())
    }

    // Seals with the key at an index from now on, at a station that runs.
    fn seal_with(&mut self, index: KeyIndex) -> Result<(), RingRefusal>
        requires ready { Ready self.old }
        ensures carries { IfSome self.old.memory
            (λ l. Carries self.old (calls.activate l index) result nothing self.new) }
        // Whatever became of the put, the ring that the records give is the one before or the new one.
        ensures either { IfSome self.old.memory (λ l. ring.IsOldRingOrAgrees (ring.with_active l.ring index)
            self.old.store.records self.new.store.records) }
        ensures after { After self.old self.new }
    {
        let Some(_) = self.parts.ring.key(index) else {
            return Err(RingRefusal::NotHeld);
        };
        self.set_active(index)
    }

    /// Seals with the key at an index from now on. Halted, NotHeld exactly where no key is there, Store, in this order; after Store it
    /// is halted.
    pub fn activate(&mut self, index: KeyIndex) -> Result<(), RingRefusal>
        requires agrees { Agrees self.old }
        ensures halted { IfNone self.old.memory ((result ≡ Err RingRefusal.Halted) × (self.new ≡ self.old)) }
        ensures carries { IfSome self.old.memory
            (λ l. Carries self.old (calls.activate l index) result nothing self.new) }
        // Whatever became of the put, the ring that the records give is the one before or the new one.
        ensures either { IfSome self.old.memory (λ l. ring.IsOldRingOrAgrees (ring.with_active l.ring index)
            self.old.store.records self.new.store.records) }
        ensures after { After self.old self.new }
    {
        if self.halted {
            return Err(RingRefusal::Halted);
        }
        self.seal_with(index)
    }

    // Drops the ring of a station that runs, and with it all routes, what is gathered and what waits.
    fn drop_ring(&mut self) -> Result<(), RingRefusal>
        requires ready { Ready self.old }
        ensures carries { IfSome self.old.memory (λ l. Carries self.old (calls.leave l) result nothing self.new) }
        ensures after { After self.old self.new }
    {
        self.halted = true;
        let Ok(()) = self.parts.ring.keep(&mut self.keeper, None) else {
            return Err(RingRefusal::Store);
        };
        self.parts.routing.invalidate_all();
        self.bodies.clear();
        self.halted = false;
        Ok(())
    }

    /// Drops its ring, and with it all routes, what is gathered and what waits. Halted, Store; after Store it is halted.
    pub fn leave(&mut self) -> Result<(), RingRefusal>
        requires agrees { Agrees self.old }
        ensures halted { IfNone self.old.memory ((result ≡ Err RingRefusal.Halted) × (self.new ≡ self.old)) }
        ensures carries { IfSome self.old.memory (λ l. Carries self.old (calls.leave l) result nothing self.new) }
        ensures after { After self.old self.new }
    {
        if self.halted {
            return Err(RingRefusal::Halted);
        }
        self.drop_ring()
    }
}
