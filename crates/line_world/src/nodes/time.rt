//! Time, losses of power, and restarts.
ghost use Rattle.std.specs.Prelude.{◌≡◌, ◌≤◌, ◌<◌, length, map, All, Some, IfSome, slice_get};
ghost use Rattle.node_rules.specs.CarriedPlans.{nothing};
ghost use Rattle.node_rules.specs.NodeSteps.{stays};
ghost use Rattle.line_rules.specs.Steps.{ticked, restarts};
ghost use Rattle.line_events.specs.declared.event.Answer.TheVariants as answers;
ghost use Rattle.line_world.specs.NodeOutcomes.{Did};
ghost use Rattle.line_world.specs.Nodes.{of_meter};
ghost use Rattle.line_world.specs.Soundness.{IsSoundMeter};

use crate::nodes::Nodes;
use crate::nodes::station_steps::restart_word;
use line_events::Answer;
use meter_node::Meter;
use plc_base::MemKeeper;

// Ends what is old at each meter.
fn tick_meters(meters: &mut Vec<Meter<MemKeeper>>, now: u64)
    requires sound { All IsSoundMeter meters.old.items }
    ensures meters { map of_meter meters.new.items ≡ map (ticked now) (map of_meter meters.old.items) }
    ensures sound { All IsSoundMeter meters.new.items }
{
    for place in 0..meters.len() {
        meters[place].tick(now);
    }
}

impl Nodes {
    /// Ends what is old at each node, at a time in seconds.
    pub fn tick(&mut self, now: u64)
        ensures { self.new ≡ map (ticked now) self.old }
    {
        // Without a coordinator there is no meter.
        let Some(coordinator) = &mut self.coordinator else {
            return;
        };
        coordinator.tick(now);
        tick_meters(&mut self.meters, now);
    }

    /// A node forgets everything but its store, and ends a halt. A loss of power that is to come stays so.
    pub fn restart(&mut self, number: usize) -> Answer
        requires there { number < length self.old }
        ensures { IfSome (slice_get self.old number) (λ x. Did (restarts x) self.old number result nothing self.new) }
    {
        if number > 0 {
            return restart_word(self.meters[number - 1].restart());
        }
        let Some(coordinator) = &mut self.coordinator else {
            return Answer::BadStore;
        };
        restart_word(coordinator.restart())
    }

    /// A node will lose power at its nth store write from now on, which leaves the new record or the old one. It takes the place of a
    /// loss of power that was to come.
    pub fn cut(&mut self, number: usize, nth: u16, keeps_new: bool)
        requires there { number < length self.old }
        requires nth { 1 ≤ nth }
        ensures { IfSome (slice_get self.old number) (λ x. Did (stays (record x {
          store = record x.store { cut = Some (record { nth = nth; keeps_new = keeps_new }) };
        }) answers.Set) self.old number answers.Set nothing self.new) }
    {
        if number > 0 {
            self.meters[number - 1]
                .station()
                .keeper_mut()
                .cut(nth, keeps_new);
            return;
        }
        let Some(coordinator) = &mut self.coordinator else {
            return;
        };
        coordinator.station().keeper_mut().cut(nth, keeps_new);
    }
}
