//! Meters that are let in, join and leave, and the random values of nodes.
ghost use Rattle.std.specs.Prelude.{◌≡◌, ◌<◌, false};
ghost use Rattle.node_rules.specs.Ciphers.{network};
ghost use Rattle.line_events.specs.declared.event.TheConstants.{MAX_EVENTS};
ghost use Rattle.line_rules.specs.Answers as words;
ghost use Rattle.line_rules.specs.Steps as rules;
ghost use Rattle.line_world.specs.Bounds.{IsBounded};
ghost use Rattle.line_world.specs.Lines.{world_of};
ghost use Rattle.line_world.specs.Steps.{Steps, has_address};

use crate::line::Line;
use line_events::{Admission, Answer, Happenings, StepFault};
use node_rules::{CoordinatorRefusal, JoinRefusal, LeaveRefusal, RandomFault};
use plc_base::RandomOctets;

/// The word of an order that was refused.
pub(crate) fn order_word(reason: CoordinatorRefusal) -> Answer
    ensures { result ≡ words.order_word reason }
{
    match reason {
        CoordinatorRefusal::Halted => Answer::Halted,
        CoordinatorRefusal::MetersFull => Answer::MetersFull,
        CoordinatorRefusal::NotAllowed => Answer::NotAllowed,
        CoordinatorRefusal::IndexActive => Answer::IndexActive,
        CoordinatorRefusal::NotHeld => Answer::NotHeld,
        CoordinatorRefusal::NotIssued => Answer::NotIssued,
        CoordinatorRefusal::SessionsFull => Answer::SessionsFull,
        CoordinatorRefusal::NoRandom => Answer::NoRandom,
        CoordinatorRefusal::WaitingFull => Answer::WaitingFull,
        CoordinatorRefusal::SeqSpent => Answer::SeqSpent,
        CoordinatorRefusal::CounterSpent => Answer::CounterSpent,
        CoordinatorRefusal::Store => Answer::Store,
    }
}

fn random_word(given: Result<(), RandomFault>) -> Answer
    ensures { result ≡ words.random_word given }
{
    match given {
        Ok(()) => Answer::Given,
        Err(RandomFault::Halted) => Answer::Halted,
        Err(RandomFault::RandomsFull) => Answer::RandomsFull,
    }
}

fn join_word(asked: Result<(), JoinRefusal>) -> Answer
    ensures { result ≡ words.join_word asked }
{
    match asked {
        Ok(()) => Answer::Asked,
        Err(JoinRefusal::Halted) => Answer::Halted,
        Err(JoinRefusal::AlreadyJoined) => Answer::AlreadyJoined,
    }
}

fn leave_word(left: Result<(), LeaveRefusal>) -> Answer
    ensures { result ≡ words.leave_word left }
{
    match left {
        Ok(()) => Answer::Left,
        Err(LeaveRefusal::Halted) => Answer::Halted,
        Err(LeaveRefusal::NotJoined) => Answer::NotJoined,
        Err(LeaveRefusal::Store) => Answer::Store,
    }
}

impl Line {
    /// The coordinator allows a meter.
    pub(crate) fn allow(&mut self, node: u32) -> Result<Happenings<'static>, StepFault>
        requires bounds { IsBounded (world_of self.old) }
        requires events { self.old.events < MAX_EVENTS }
        ensures { Steps false (world_of self.old) result (world_of self.new)
            (rules.allow network (world_of self.old) node) }
    {
        let number = self.meter_number(node)?;
        let (eui, psk) = (self.nodes.eui(number), self.nodes.psk(number));
        match self.nodes.allow(eui, &psk) {
            Ok(address) => {
                let mut happenings = self.answered(Answer::Allowed);
                happenings.grant = Some(Admission {
                    node: number as u16,
                    address,
                });
                Ok(happenings)
            }
            Err(reason) => Ok(self.answered(order_word(reason))),
        }
    }

    /// Gives a node a random value.
    pub(crate) fn rand(
        &mut self,
        node: u32,
        value: RandomOctets,
    ) -> Result<Happenings<'static>, StepFault>
        requires bounds { IsBounded (world_of self.old) }
        requires events { self.old.events < MAX_EVENTS }
        ensures { Steps false (world_of self.old) result (world_of self.new)
            (rules.rand network (world_of self.old) node value) }
    {
        let number = self.node(node)?;
        let given = self.nodes.give_random(number, value);
        Ok(self.answered(random_word(given)))
    }

    /// A meter begins to join by an agent.
    pub(crate) fn join(&mut self, node: u32, agent: u32) -> Result<Happenings<'static>, StepFault>
        requires bounds { IsBounded (world_of self.old) }
        requires events { self.old.events < MAX_EVENTS }
        ensures { Steps (has_address (world_of self.old) agent) (world_of self.old) result (world_of self.new)
            (rules.join network (world_of self.old) node agent) }
    {
        let number = self.meter_number(node)?;
        let agent = self.node(agent)?;
        let Some(address) = self.nodes.address(agent) else {
            return Ok(self.answered(Answer::NoAddress));
        };
        self.reserve()?;
        let asked = self.nodes.join(number, address, self.clock, &mut self.out);
        Ok(self.node_outcome(number, join_word(asked)))
    }

    /// A meter leaves.
    pub(crate) fn leave(&mut self, node: u32) -> Result<Happenings<'static>, StepFault>
        requires bounds { IsBounded (world_of self.old) }
        requires events { self.old.events < MAX_EVENTS }
        ensures { Steps false (world_of self.old) result (world_of self.new)
            (rules.leave network (world_of self.old) node) }
    {
        let number = self.meter_number(node)?;
        let left = self.nodes.leave(number);
        Ok(self.answered(leave_word(left)))
    }
}
