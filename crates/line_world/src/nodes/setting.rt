//! What the workshop sets at a node. A halted node stays as it is.
ghost use Rattle.std.specs.Prelude.{◌≡◌, ◌≤◌, ◌<◌, length, Ok, IfSome, slice_get};
ghost use Rattle.node_rules.specs.Calls as calls;
ghost use Rattle.node_rules.specs.CarriedPlans.{nothing};
ghost use Rattle.node_rules.specs.NodeSteps.{acts, of_station};
ghost use Rattle.line_rules.specs.Steps.{keeps_rank, ranks_full};
ghost use Rattle.line_world.specs.NodeOutcomes.{Did};

use crate::nodes::Nodes;
use crate::nodes::station_steps::{has_rank, is_full, offer_near, set_counter, set_number};
use node_rules::PresetFault;
use plc_base::{LinkCost, Short};

impl Nodes {
    /// Sets the next frame counter of a node.
    pub fn preset_counter(&mut self, number: usize, value: u32) -> Result<(), PresetFault>
        requires there { number < length self.old }
        ensures { IfSome (slice_get self.old number) (λ x. Did
            (acts x (Ok tt) (λ m. of_station m (calls.preset_counter m.station value)))
            self.old number result nothing self.new) }
    {
        if number > 0 {
            return set_counter(self.meters[number - 1].station(), value);
        }
        let Some(coordinator) = &mut self.coordinator else {
            return Ok(());
        };
        set_counter(coordinator.station(), value)
    }

    /// Sets the last own number of a node.
    pub fn preset_number(&mut self, number: usize, value: u16) -> Result<(), PresetFault>
        requires there { number < length self.old }
        requires value { 1 ≤ value }
        ensures { IfSome (slice_get self.old number) (λ x. Did
            (acts x (Ok tt) (λ m. of_station m (calls.preset_number m.station value)))
            self.old number result nothing self.new) }
    {
        if number > 0 {
            return set_number(self.meters[number - 1].station(), value);
        }
        let Some(coordinator) = &mut self.coordinator else {
            return Ok(());
        };
        set_number(coordinator.station(), value)
    }

    /// Offers a neighbour over a link of this cost to a node, as a route by itself, at a time in seconds.
    pub fn preset_near(
        &mut self,
        number: usize,
        to: Short,
        cost: LinkCost,
        now: u64,
    ) -> Result<(), PresetFault>
        requires there { number < length self.old }
        ensures { IfSome (slice_get self.old number) (λ x. Did
            (acts x (Ok tt) (λ m. of_station m (calls.preset_near m.station to cost now)))
            self.old number result nothing self.new) }
    {
        if number > 0 {
            return offer_near(self.meters[number - 1].station(), to, cost, now);
        }
        let Some(coordinator) = &mut self.coordinator else {
            return Ok(());
        };
        offer_near(coordinator.station(), to, cost, now)
    }

    /// Whether a node keeps a rank of an address. A halted one keeps none.
    pub fn keeps_rank(&mut self, number: usize, dest: Short) -> bool
        requires there { number < length self.old }
        ensures value { IfSome (slice_get self.old number) (λ x. result ≡ keeps_rank x dest) }
        ensures same { self.new ≡ self.old }
    {
        if number > 0 {
            return has_rank(self.meters[number - 1].station(), dest);
        }
        let Some(coordinator) = &mut self.coordinator else {
            return false;
        };
        has_rank(coordinator.station(), dest)
    }

    /// Whether a node keeps 64 ranks. A halted one keeps none.
    pub fn ranks_full(&mut self, number: usize) -> bool
        requires there { number < length self.old }
        ensures value { IfSome (slice_get self.old number) (λ x. result ≡ ranks_full x) }
        ensures same { self.new ≡ self.old }
    {
        if number > 0 {
            return is_full(self.meters[number - 1].station());
        }
        let Some(coordinator) = &mut self.coordinator else {
            return false;
        };
        is_full(coordinator.station())
    }
}
