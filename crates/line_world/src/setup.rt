//! The events that set up a line.
ghost use Rattle.std.specs.Prelude.{◌≡◌, ◌<◌, ◌≤◌, ◌||◌, ◌++◌, ◌∷◌, [], true, false, not, length, IfSome, slice_get, vec_len, vec_capacity};
ghost use Rattle.node_rules.specs.Calls as calls;
ghost use Rattle.node_rules.specs.Ciphers.{network};
ghost use Rattle.line_events.specs.declared.event.TheConstants.{MAX_EVENTS};
ghost use Rattle.line_rules.specs.Steps as rules;
ghost use Rattle.line_world.specs.Bounds.{IsBounded};
ghost use Rattle.line_world.specs.Lines.{world_of};
ghost use Rattle.line_world.specs.Steps.{Steps};

use crate::beside::Beside;
use crate::line::{Line, MAX_NODES};
use line_events::{Answer, Happenings, StepFault};
use plc_base::{Eui, Key, LinkCost, Short};

impl Line {
    // A node that is made stands on the stack for a while: these two stay functions of their own, so that other events need no room for it.

    /// Makes the coordinator.
    #[inline(never)]
    pub(crate) fn coordinator(
        &mut self,
        eui: Eui,
        key: &Key,
    ) -> Result<Happenings<'static>, StepFault>
        requires bounds { IsBounded (world_of self.old) }
        requires events { self.old.events < MAX_EVENTS }
        ensures { Steps true (world_of self.old) result (world_of self.new)
            (rules.coordinator (world_of self.old) eui key.now) }
    {
        if self.has_begun() {
            return Err(StepFault::Setup);
        }
        if self.beside.reserve(1).is_err() {
            return Err(StepFault::Memory);
        }
        let Ok(beside) = Beside::new(self.alloc) else {
            return Err(StepFault::Memory);
        };
        if self.nodes.make_coordinator(self.alloc, eui, key).is_err() {
            return Err(StepFault::Memory);
        }
        self.hold_beside(beside);
        self.set_up();
        Ok(self.happenings(Answer::Made))
    }

    /// What the next node holds beside its memory. Room for it was reserved.
    fn hold_beside(&mut self, beside: Beside)
        requires { vec_len self.old.beside < vec_capacity self.old.beside }
        ensures { world_of self.new ≡ record (world_of self.old) { beside = self.old.beside.items ++ beside ∷ [] } }
    {
        self.beside.push(beside).unwrap();
    }

    /// Makes the next meter.
    #[inline(never)]
    pub(crate) fn meter(&mut self, eui: Eui, psk: Key) -> Result<Happenings<'static>, StepFault>
        requires bounds { IsBounded (world_of self.old) }
        requires events { self.old.events < MAX_EVENTS }
        ensures { Steps true (world_of self.old) result (world_of self.new)
            (rules.meter (world_of self.old) eui psk) }
    {
        if !self.takes_setup() {
            return Err(StepFault::Setup);
        }
        if self.nodes.len() >= MAX_NODES {
            return Err(StepFault::Setup);
        }
        if self.nodes.has(eui) {
            return Err(StepFault::Setup);
        }
        if self.beside.reserve(1).is_err() {
            return Err(StepFault::Memory);
        }
        let Ok(beside) = Beside::new(self.alloc) else {
            return Err(StepFault::Memory);
        };
        if self.nodes.make_meter(self.alloc, eui, psk).is_err() {
            return Err(StepFault::Memory);
        }
        self.hold_beside(beside);
        self.set_up();
        Ok(self.happenings(Answer::Made))
    }

    /// Joins a meter in the workshop.
    pub(crate) fn depot(&mut self, node: u32) -> Result<Happenings<'static>, StepFault>
        requires bounds { IsBounded (world_of self.old) }
        requires events { self.old.events < MAX_EVENTS }
        ensures { Steps false (world_of self.old) result (world_of self.new)
            (rules.depot network (world_of self.old) node) }
    {
        if !self.takes_setup() {
            return Err(StepFault::Setup);
        }
        let number = self.node(node)?;
        if number == 0 {
            return Err(StepFault::Setup);
        }
        if self.nodes.address(number).is_some() {
            return Err(StepFault::Setup);
        }
        let (eui, psk) = (self.nodes.eui(number), self.nodes.psk(number));
        let Ok(grant) = self.nodes.depot(eui, &psk) else {
            return Err(StepFault::Setup);
        };
        let _ = self.nodes.provision(number, &grant);
        self.set_up();
        Ok(self.happenings(Answer::Joined))
    }

    /// Whether two nodes can be made neighbours: the first keeps no rank of the second one's address, and both have room
    /// for a rank. Nothing changes.
    fn can_meet(&mut self, x: usize, y: usize, address: Short) -> bool
        requires x { x < length self.old.nodes }
        requires y { y < length self.old.nodes }
        ensures value { IfSome (slice_get self.old.nodes x) (λ m. IfSome (slice_get self.old.nodes y) (λ n.
            result ≡ not (rules.keeps_rank m address || (rules.ranks_full m || rules.ranks_full n)))) }
        ensures same { self.new ≡ self.old }
    {
        if self.nodes.keeps_rank(x, address) {
            return false;
        }
        if self.nodes.ranks_full(x) {
            return false;
        }
        !self.nodes.ranks_full(y)
    }

    /// Makes two joined nodes neighbours.
    pub(crate) fn near(
        &mut self,
        a: u32,
        b: u32,
        cost: LinkCost,
    ) -> Result<Happenings<'static>, StepFault>
        requires bounds { IsBounded (world_of self.old) }
        requires events { self.old.events < MAX_EVENTS }
        ensures { Steps false (world_of self.old) result (world_of self.new)
            (rules.near network (world_of self.old) a b cost) }
    {
        if !self.takes_setup() {
            return Err(StepFault::Setup);
        }
        let x = self.node(a)?;
        let y = self.node(b)?;
        let Some(p) = self.nodes.address(x) else {
            return Err(StepFault::Setup);
        };
        let Some(q) = self.nodes.address(y) else {
            return Err(StepFault::Setup);
        };
        if a == b {
            return Err(StepFault::Setup);
        }
        if !self.can_meet(x, y, q) {
            return Err(StepFault::Setup);
        }
        let _ = self.nodes.preset_near(x, q, cost, self.clock);
        let _ = self.nodes.preset_near(y, p, cost, self.clock);
        self.set_up();
        Ok(self.happenings(Answer::Set))
    }

    /// Sets the next frame counter of a node.
    pub(crate) fn counter(
        &mut self,
        node: u32,
        value: u32,
    ) -> Result<Happenings<'static>, StepFault>
        requires bounds { IsBounded (world_of self.old) }
        requires events { self.old.events < MAX_EVENTS }
        ensures { Steps false (world_of self.old) result (world_of self.new)
            (rules.preset network (world_of self.old) node (λ l. calls.preset_counter l value)) }
    {
        if !self.takes_setup() {
            return Err(StepFault::Setup);
        }
        let number = self.node(node)?;
        let _ = self.nodes.preset_counter(number, value);
        self.set_up();
        Ok(self.happenings(Answer::Set))
    }

    /// Sets the last own number of a node.
    pub(crate) fn number(&mut self, node: u32, value: u16) -> Result<Happenings<'static>, StepFault>
        requires bounds { IsBounded (world_of self.old) }
        requires events { self.old.events < MAX_EVENTS }
        requires value { 1 ≤ value }
        ensures { Steps false (world_of self.old) result (world_of self.new)
            (rules.preset network (world_of self.old) node (λ l. calls.preset_number l value)) }
    {
        if !self.takes_setup() {
            return Err(StepFault::Setup);
        }
        let number = self.node(node)?;
        let _ = self.nodes.preset_number(number, value);
        self.set_up();
        Ok(self.happenings(Answer::Set))
    }
}
