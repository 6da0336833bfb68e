//! What the operator orders at the coordinator.
ghost use Rattle.std.specs.Prelude.{◌≡◌, ◌==◌, ◌<◌, true, false, not};
ghost use Rattle.node_rules.specs.Ciphers.{network};
ghost use Rattle.line_events.specs.declared.event.TheConstants.{MAX_EVENTS};
ghost use Rattle.line_rules.specs.Answers as words;
ghost use Rattle.line_rules.specs.Steps as rules;
ghost use Rattle.line_world.specs.Bounds.{IsBounded};
ghost use Rattle.line_world.specs.Lines.{world_of};
ghost use Rattle.line_world.specs.Steps.{Steps};

use crate::joining::order_word;
use crate::line::Line;
use line_events::{Answer, Happenings, StepFault};
use node_rules::CoordinatorRefusal;
use plc_base::{Key, KeyIndex};

// The word of an order that was carried out, or refused.
fn ordered_word(word: Answer, done: Result<(), CoordinatorRefusal>) -> Answer
    ensures { result ≡ words.ordered_word word done }
{
    match done {
        Ok(()) => word,
        Err(reason) => order_word(reason),
    }
}

impl Line {
    /// The coordinator draws a key for an index.
    pub(crate) fn rekey(
        &mut self,
        index: KeyIndex,
        key: &Key,
    ) -> Result<Happenings<'static>, StepFault>
        requires bounds { IsBounded (world_of self.old) }
        requires events { self.old.events < MAX_EVENTS }
        ensures { Steps false (world_of self.old) result (world_of self.new)
            (rules.rekey network (world_of self.old) index key.now) }
    {
        if !self.has_begun() {
            return Err(StepFault::Setup);
        }
        let done = self.nodes.rekey(index, key);
        Ok(self.answered(ordered_word(Answer::Drawn, done)))
    }

    /// The coordinator challenges a meter.
    pub(crate) fn challenge(&mut self, node: u32) -> Result<Happenings<'static>, StepFault>
        requires bounds { IsBounded (world_of self.old) }
        requires events { self.old.events < MAX_EVENTS }
        ensures { Steps true (world_of self.old) result (world_of self.new)
            (rules.challenge network (world_of self.old) node) }
    {
        let number = self.meter_number(node)?;
        self.reserve()?;
        let eui = self.nodes.eui(number);
        let done = self.nodes.challenge(eui, self.clock, &mut self.out);
        Ok(self.node_outcome(0, ordered_word(Answer::Challenged, done)))
    }

    /// Another key is to seal, at the coordinator or, by an order, at a meter.
    pub(crate) fn activate(
        &mut self,
        node: u32,
        index: KeyIndex,
    ) -> Result<Happenings<'static>, StepFault>
        requires bounds { IsBounded (world_of self.old) }
        requires events { self.old.events < MAX_EVENTS }
        ensures { Steps (not (node == 0)) (world_of self.old) result (world_of self.new)
            (rules.activate network (world_of self.old) node index) }
    {
        let number = self.node(node)?;
        if number == 0 {
            let done = self.nodes.activate_self(index);
            return Ok(self.answered(ordered_word(Answer::Activated, done)));
        }
        self.reserve()?;
        let eui = self.nodes.eui(number);
        let done = self.nodes.activate(eui, index, self.clock, &mut self.out);
        Ok(self.node_outcome(0, ordered_word(Answer::Ordered, done)))
    }

    /// The coordinator shuts a meter out.
    pub(crate) fn kick(&mut self, node: u32) -> Result<Happenings<'static>, StepFault>
        requires bounds { IsBounded (world_of self.old) }
        requires events { self.old.events < MAX_EVENTS }
        ensures { Steps true (world_of self.old) result (world_of self.new)
            (rules.kick network (world_of self.old) node) }
    {
        let number = self.meter_number(node)?;
        self.reserve()?;
        let eui = self.nodes.eui(number);
        let done = self.nodes.kick(eui, &mut self.out);
        Ok(self.node_outcome(0, ordered_word(Answer::Kicked, done)))
    }
}
