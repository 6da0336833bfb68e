//! Time, losses of power, restarts, and what a node shows.
ghost use Rattle.std.specs.Prelude.{◌≡◌, ◌<◌, ◌≤◌, false, length, map};
ghost use Rattle.node_rules.specs.Ciphers.{network};
ghost use Rattle.line_events.specs.declared.event.TheConstants.{MAX_EVENTS};
ghost use Rattle.line_rules.specs.Further as further;
ghost use Rattle.line_rules.specs.Logs.{LogsKept};
ghost use Rattle.line_rules.specs.Steps as rules;
ghost use Rattle.reach_rules.specs.ReachingNodes.{tick_beside};
ghost use Rattle.line_world.specs.Bounds.{IsBounded, NoneChecked};
ghost use Rattle.line_world.specs.Lines.{world_of};
ghost use Rattle.line_world.specs.Steps.{Steps};

use crate::line::Line;
use crate::world::Buffers;
use line_events::{Answer, Happenings, StepFault};
use node_rules::ShownRef;

impl Line {
    /// The clock goes on by this many seconds, for every node.
    pub(crate) fn tick(&mut self, seconds: u32) -> Result<Happenings<'static>, StepFault>
        requires bounds { IsBounded (world_of self.old) }
        requires checks { NoneChecked (world_of self.old) }
        requires events { self.old.events < MAX_EVENTS }
        ensures { Steps false (world_of self.old) result (world_of self.new)
            (further.ticks (world_of self.old) seconds) }
    {
        if !self.has_begun() {
            return Err(StepFault::Setup);
        }
        self.clock += u64::from(seconds);
        self.nodes.tick(self.clock);
        self.tick_beside();
        Ok(self.answered(Answer::Ticked))
    }

    // Ends what is old in the checks of each node. Where neighbours are not checked there is none, so no node is visited.
    fn tick_beside(&mut self)
        requires checks { NoneChecked (world_of self.old) }
        ensures { world_of self.new ≡ record (world_of self.old) { beside = map (tick_beside self.old.clock) self.old.beside.items } }
    {
        if !self.checks_on {
            return;
        }
        let now = self.clock;
        for place in 0..self.beside.len() {
            self.beside[place].tick(now);
        }
    }

    /// A node restarts.
    pub(crate) fn restart(&mut self, node: u32) -> Result<Happenings<'static>, StepFault>
        requires bounds { IsBounded (world_of self.old) }
        requires beside { length self.old.beside.items ≡ length self.old.nodes }
        requires logs { LogsKept (world_of self.old) }
        requires events { self.old.events < MAX_EVENTS }
        ensures { Steps false (world_of self.old) result (world_of self.new)
            (further.restarts_further network (world_of self.old) node) }
    {
        let number = self.node(node)?;
        let Ok(()) = self.nodes.reload_beside(number, &mut self.beside[number]) else {
            unreachable!()
        };
        let answer = self.nodes.restart(number);
        Ok(self.answered(answer))
    }

    /// A node will lose power at its nth write from now on.
    pub(crate) fn cut(
        &mut self,
        node: u32,
        nth: u16,
        keeps_new: bool,
    ) -> Result<Happenings<'static>, StepFault>
        requires bounds { IsBounded (world_of self.old) }
        requires events { self.old.events < MAX_EVENTS }
        requires nth { 1 ≤ nth }
        ensures { Steps false (world_of self.old) result (world_of self.new)
            (rules.cut network (world_of self.old) node nth keeps_new) }
    {
        let number = self.node(node)?;
        self.nodes.cut(number, nth, keeps_new);
        Ok(self.answered(Answer::Set))
    }

    /// A node shows what it holds.
    pub(crate) fn show<'a>(
        &mut self,
        node: u32,
        buffers: &'a mut Buffers,
    ) -> Result<Happenings<'a>, StepFault>
        requires bounds { IsBounded (world_of self.old) }
        requires events { self.old.events < MAX_EVENTS }
        ensures { Steps false (world_of self.old) result (world_of self.new)
            (rules.show (world_of self.old) node) }
    {
        let number = self.node(node)?;
        self.nodes.show(number, &mut buffers.shown);
        let mut happenings: Happenings<'a> = self.answered(Answer::Shown);
        happenings.shown = Some(ShownRef::new(&buffers.shown));
        Ok(happenings)
    }
}
