//! What the workshop sets at a station.
ghost use Rattle.std.specs.Prelude.{◌≡◌, ◌≤◌, true, false, Err, IfSome, IfNone};
ghost use Rattle.node_rules.specs.Drafts as drafts;
ghost use Rattle.node_rules.specs.Calls as calls;
ghost use Rattle.routing_set.specs.RoutingSet as routing;
ghost use Rattle.node_rules.specs.CarriedPlans.{Carries, nothing};
ghost use Rattle.node_rules.specs.Agreement.{Agrees};
ghost use Rattle.plc_station.specs.Ready.{After, Ready};

use crate::station::Station;
use node_rules::PresetFault;
use plc_base::{Keeper, LinkCost, Short};
use routing_set::Rank;

impl<K: Keeper + Drop> Station<K> {
    // Sets the next counter of a station that runs.
    fn keep_counter(&mut self, value: u32) -> Result<(), PresetFault>
        requires ready { Ready self.old }
        ensures carries { IfSome self.old.memory
            (λ l. Carries self.old (calls.preset_counter l value) result nothing self.new) }
        ensures after { After self.old self.new }
    {
        self.halted = true;
        let Ok(()) = self.parts.counter.set_limit(&mut self.keeper, value) else {
            return Err(PresetFault::Store);
        };
        self.halted = false;
        Ok(())
    }

    /// Sets the next counter. Halted, Store; after Store it is halted.
    pub fn preset_counter(&mut self, value: u32) -> Result<(), PresetFault>
        requires agrees { Agrees self.old }
        ensures halted { IfNone self.old.memory ((result ≡ Err PresetFault.Halted) × (self.new ≡ self.old)) }
        ensures carries { IfSome self.old.memory
            (λ l. Carries self.old (calls.preset_counter l value) result nothing self.new) }
        ensures after { After self.old self.new }
    {
        if self.halted {
            return Err(PresetFault::Halted);
        }
        self.keep_counter(value)
    }

    // Sets the last own number of a station that runs.
    fn keep_number(&mut self, value: u16) -> Result<(), PresetFault>
        requires ready { Ready self.old }
        requires value { 1 ≤ value }
        ensures carries { IfSome self.old.memory
            (λ l. Carries self.old (calls.preset_number l value) result nothing self.new) }
        ensures after { After self.old self.new }
    {
        self.halted = true;
        let Ok(()) = self.parts.own_number.set_limit(&mut self.keeper, value) else {
            return Err(PresetFault::Store);
        };
        self.halted = false;
        Ok(())
    }

    /// Sets the last own number. Halted, Store; after Store it is halted.
    pub fn preset_number(&mut self, value: u16) -> Result<(), PresetFault>
        requires agrees { Agrees self.old }
        requires value { 1 ≤ value }
        ensures halted { IfNone self.old.memory ((result ≡ Err PresetFault.Halted) × (self.new ≡ self.old)) }
        ensures carries { IfSome self.old.memory
            (λ l. Carries self.old (calls.preset_number l value) result nothing self.new) }
        ensures after { After self.old self.new }
    {
        if self.halted {
            return Err(PresetFault::Halted);
        }
        self.keep_number(value)
    }

    // Keeps the rank of a neighbour, which beats the one that is held.
    fn keep_near(&mut self, to: Short, cost: u16, now: u64) -> Result<(), PresetFault>
        requires ready { Ready self.old }
        requires better { IfSome self.old.memory (λ l. routing.is_better l.routing to (calls.near_rank cost) ≡ true) }
        requires room { IfSome self.old.memory (λ l. routing.is_full l.routing to now ≡ false) }
        ensures carries { IfSome self.old.memory (λ l. Carries self.old
            (drafts.sealing drafts.alone calls.presetting_ends
            (drafts.with_rank to (calls.near_rank cost) to now
            (drafts.empty_draft l)) tt) result nothing self.new) }
        ensures after { After self.old self.new }
    {
        let rank = Rank { number: 1, cost };
        self.halted = true;
        let Ok(()) = self.parts.routing.keep(&mut self.keeper, to, rank, to, now) else {
            return Err(PresetFault::Store);
        };
        self.halted = false;
        Ok(())
    }

    // Offers the route of one hop to a neighbour of a station that runs.
    fn offer_near(&mut self, to: Short, cost: LinkCost, now: u64) -> Result<(), PresetFault>
        requires ready { Ready self.old }
        ensures carries { IfSome self.old.memory
            (λ l. Carries self.old (calls.preset_near l to cost now) result nothing self.new) }
        ensures after { After self.old self.new }
    {
        let cost = u16::from(cost.number());
        if !self.parts.routing.is_better(to, 1, u32::from(cost)) {
            return Err(PresetFault::NotBetter);
        }
        if self.parts.routing.full(to, now) {
            return Err(PresetFault::RoutesFull);
        }
        self.keep_near(to, cost, now)
    }

    /// Offers the route of one hop to a neighbour, over a link of this cost. Halted, NotBetter, RoutesFull, Store, in this order;
    /// after Store it is halted.
    pub fn preset_near(&mut self, to: Short, cost: LinkCost, now: u64) -> Result<(), PresetFault>
        requires agrees { Agrees self.old }
        ensures halted { IfNone self.old.memory ((result ≡ Err PresetFault.Halted) × (self.new ≡ self.old)) }
        ensures carries { IfSome self.old.memory
            (λ l. Carries self.old (calls.preset_near l to cost now) result nothing self.new) }
        ensures after { After self.old self.new }
    {
        if self.halted {
            return Err(PresetFault::Halted);
        }
        self.offer_near(to, cost, now)
    }
}
