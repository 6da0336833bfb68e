//! What a meter does about its joining, and the random values of every node.
ghost use Rattle.std.specs.Prelude.{◌≤◌, ◌<◌, length, Ok, Err, IfSome, IsSome, slice_get};
ghost use Rattle.node_rules.specs.CarriedPlans.{nothing};
ghost use Rattle.node_rules.specs.Ciphers.{network};
ghost use Rattle.node_rules.specs.MemoryDrafts as drafts;
ghost use Rattle.node_rules.specs.Meters as meters;
ghost use Rattle.node_rules.specs.NodeSteps.{acts};
ghost use Rattle.line_rules.specs.Steps.{identity, psk_of};
ghost use Rattle.line_world.specs.NodeOutcomes.{Did};

use crate::nodes::Nodes;
use node_rules::{JoinRefusal, LeaveRefusal, RandomFault, RingRefusal};
use plc_base::{Grant, Out, RandomOctets, Short};

impl Nodes {
    /// A node takes a random value in.
    pub fn give_random(&mut self, number: usize, value: RandomOctets) -> Result<(), RandomFault>
        requires there { number < length self.old }
        ensures { IfSome (slice_get self.old number) (λ x. Did
            (acts x (Err RandomFault.Halted) (λ m. drafts.give_random m value))
            self.old number result nothing self.new) }
    {
        if number > 0 {
            return self.meters[number - 1].give_random(value);
        }
        let Some(coordinator) = &mut self.coordinator else {
            return Err(RandomFault::Halted);
        };
        coordinator.give_random(value)
    }

    /// A meter installs the grant of the workshop. A halted one stays as it is.
    pub fn provision(&mut self, number: usize, grant: &Grant) -> Result<(), RingRefusal>
        requires meter { 1 ≤ number }
        requires there { number < length self.old }
        ensures { IfSome (slice_get self.old number) (λ x. Did
            (acts x (Ok tt) (λ m. meters.provision m grant.now)) self.old number result nothing self.new) }
    {
        let meter = &mut self.meters[number - 1];
        if meter.station().halted() {
            return Ok(());
        }
        meter.provision(grant)
    }

    /// A meter, which has a pair key, begins to join by an agent, at a time in seconds. What goes out is in `out`.
    pub fn join(
        &mut self,
        number: usize,
        agent: Short,
        now: u64,
        out: &mut Out,
    ) -> Result<(), JoinRefusal>
        requires meter { 1 ≤ number }
        requires there { number < length self.old }
        ensures key { IfSome (slice_get self.old number) (λ x. IsSome (psk_of x)) }
        ensures did { IfSome (slice_get self.old number) (λ x. IfSome (psk_of x) (λ psk. Did
            (acts x (Err JoinRefusal.Halted) (λ m. meters.join (identity network x psk) m agent now))
            self.old number result out.new self.new)) }
    {
        self.meters[number - 1].join(agent, now, out)
    }

    /// A meter leaves.
    pub fn leave(&mut self, number: usize) -> Result<(), LeaveRefusal>
        requires meter { 1 ≤ number }
        requires there { number < length self.old }
        ensures { IfSome (slice_get self.old number) (λ x. Did
            (acts x (Err LeaveRefusal.Halted) meters.leave) self.old number result nothing self.new) }
    {
        self.meters[number - 1].leave()
    }
}
