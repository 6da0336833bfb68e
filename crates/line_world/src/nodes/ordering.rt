//! What the coordinator does for the operator.
ghost use Rattle.std.specs.Prelude.{◌<◌, length, Err, IfSome, slice_get};
ghost use Rattle.node_rules.specs.CarriedPlans.{nothing};
ghost use Rattle.node_rules.specs.Coordinators as rules;
ghost use Rattle.node_rules.specs.NodeSteps.{acts};
ghost use Rattle.line_world.specs.NodeOutcomes.{Did};

use crate::nodes::Nodes;
use node_rules::CoordinatorRefusal;
use plc_base::{Eui, Grant, Key, KeyIndex, Out, Short};

impl Nodes {
    /// The coordinator allows a meter with this pair key, and answers its address.
    pub fn allow(&mut self, eui: Eui, psk: &Key) -> Result<Short, CoordinatorRefusal>
        requires begun { 0 < length self.old }
        ensures { IfSome (slice_get self.old 0) (λ c. Did
            (acts c (Err CoordinatorRefusal.Halted) (λ m. rules.allow m eui psk.now))
            self.old 0 result nothing self.new) }
    {
        let Some(coordinator) = &mut self.coordinator else {
            return Err(CoordinatorRefusal::Halted);
        };
        coordinator.allow(eui, psk)
    }

    /// The coordinator allows a meter in the workshop, and answers its grant.
    pub fn depot(&mut self, eui: Eui, psk: &Key) -> Result<Grant, CoordinatorRefusal>
        requires begun { 0 < length self.old }
        ensures { IfSome (slice_get self.old 0) (λ c. Did
            (acts c (Err CoordinatorRefusal.Halted) (λ m. rules.depot m eui psk.now))
            self.old 0 result nothing self.new) }
    {
        let Some(coordinator) = &mut self.coordinator else {
            return Err(CoordinatorRefusal::Halted);
        };
        coordinator.depot(eui, psk)
    }

    /// The coordinator keeps a key at an index, 0 or 1, for the grants from now on.
    pub fn rekey(&mut self, index: KeyIndex, key: &Key) -> Result<(), CoordinatorRefusal>
        requires begun { 0 < length self.old }
        ensures { IfSome (slice_get self.old 0) (λ c. Did
            (acts c (Err CoordinatorRefusal.Halted) (λ m. rules.rekey m index key.now))
            self.old 0 result nothing self.new) }
    {
        let Some(coordinator) = &mut self.coordinator else {
            return Err(CoordinatorRefusal::Halted);
        };
        coordinator.rekey(index, key)
    }

    /// The coordinator challenges a meter, at a time in seconds. What goes out is in `out`.
    pub fn challenge(&mut self, eui: Eui, now: u64, out: &mut Out) -> Result<(), CoordinatorRefusal>
        requires begun { 0 < length self.old }
        ensures { IfSome (slice_get self.old 0) (λ c. Did
            (acts c (Err CoordinatorRefusal.Halted) (λ m. rules.challenge c.eui m eui now))
            self.old 0 result out.new self.new) }
    {
        let Some(coordinator) = &mut self.coordinator else {
            return Err(CoordinatorRefusal::Halted);
        };
        coordinator.challenge(eui, now, out)
    }

    /// The coordinator seals with the key at an index, 0 or 1, from now on.
    pub fn activate_self(&mut self, index: KeyIndex) -> Result<(), CoordinatorRefusal>
        requires begun { 0 < length self.old }
        ensures { IfSome (slice_get self.old 0) (λ c. Did
            (acts c (Err CoordinatorRefusal.Halted) (λ m. rules.activate_self m index))
            self.old 0 result nothing self.new) }
    {
        let Some(coordinator) = &mut self.coordinator else {
            return Err(CoordinatorRefusal::Halted);
        };
        coordinator.activate_self(index)
    }

    /// The coordinator orders a meter to seal with the key at an index, 0 or 1, at a time in seconds. What goes out is in `out`.
    pub fn activate(
        &mut self,
        eui: Eui,
        index: KeyIndex,
        now: u64,
        out: &mut Out,
    ) -> Result<(), CoordinatorRefusal>
        requires begun { 0 < length self.old }
        ensures { IfSome (slice_get self.old 0) (λ c. Did
            (acts c (Err CoordinatorRefusal.Halted) (λ m. rules.activate m eui index now))
            self.old 0 result out.new self.new) }
    {
        let Some(coordinator) = &mut self.coordinator else {
            return Err(CoordinatorRefusal::Halted);
        };
        coordinator.activate(eui, index, now, out)
    }

    /// The coordinator shuts a meter out. What goes out is in `out`.
    pub fn kick(&mut self, eui: Eui, out: &mut Out) -> Result<(), CoordinatorRefusal>
        requires begun { 0 < length self.old }
        ensures { IfSome (slice_get self.old 0) (λ c. Did
            (acts c (Err CoordinatorRefusal.Halted) (λ m. rules.kick m eui))
            self.old 0 result out.new self.new) }
    {
        let Some(coordinator) = &mut self.coordinator else {
            return Err(CoordinatorRefusal::Halted);
        };
        coordinator.kick(eui, out)
    }
}
