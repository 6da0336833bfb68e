//! What is said of an event, and what a node's call changes in the world.
ghost use Rattle.std.specs.Prelude.{◌≡◌, ◌+◌, ◌++◌, ◌<◌, ◌≤◌, true, length, map, OnOk, OnErr};
ghost use Rattle.line_events.specs.declared.event.TheConstants.{MAX_EVENTS};
ghost use Rattle.line_events.specs.declared.event.StepFault.TheVariants as faults;
ghost use Rattle.line_rules.specs.Steps as rules;
ghost use Rattle.line_world.specs.NamedNodes.{found, found_meter};
ghost use Rattle.line_world.specs.Lines.{HasRoom, world_of};
ghost use Rattle.plc_base.specs.declared.limits.TheConstants.{MOST_FRAMES};

use crate::line::Line;
use line_events::{Answer, Happenings, StepFault};
use plc_base::{LONGEST_FRAME, MOST_FRAMES};

/// The most octets that they have together.
const MAX_OCTETS: usize = MOST_FRAMES * LONGEST_FRAME;

/// The most pair tags that a node makes at one event.
const MAX_TAGS: usize = 2;

impl Line {
    /// Nothing but an answer.
    pub(crate) fn happenings(&self, answer: Answer) -> Happenings<'static>
        requires flights { length self.now.flights.flights < u32.MAX }
        ensures { result ≡ rules.happenings (world_of self.now) answer }
    {
        Happenings {
            answer,
            forged: false,
            up: None,
            bup: None,
            agent: None,
            path: None,
            grant: None,
            took: None,
            done: None,
            shown: None,
            first_flight: self.flights.len() as u32 + 1,
            flights: 0,
        }
    }

    /// Counts an event of a setup kind that was taken.
    pub(crate) fn set_up(&mut self)
        requires events { self.old.events < MAX_EVENTS }
        ensures { self.new ≡ record self.old { events = self.old.events + 1 } }
    {
        self.events += 1;
    }

    /// Counts an event of another kind than setup, which changed nothing else, or nothing but nodes and the clock.
    pub(crate) fn answered(&mut self, answer: Answer) -> Happenings<'static>
        requires events { self.old.events < MAX_EVENTS }
        requires flights { length self.old.flights.flights < u32.MAX }
        ensures line { self.new ≡ record self.old { events = self.old.events + 1; running = true } }
        ensures reported { result ≡ rules.happenings (world_of self.old) answer }
    {
        self.events += 1;
        self.running = true;
        self.happenings(answer)
    }

    /// Reserves the memory for what an event may add to flights and tags. Nothing changes of the world.
    pub(crate) fn reserve(&mut self) -> Result<(), StepFault>
        ensures world { world_of self.new ≡ world_of self.old }
        ensures ok { OnOk result (HasRoom self.new) }
        ensures err { OnErr result (result ≡ Err faults.Memory) }
    {
        if self.flights.reserve(MOST_FRAMES, MAX_OCTETS).is_err() {
            return Err(StepFault::Memory);
        }
        if self.made.reserve(MAX_TAGS).is_err() {
            return Err(StepFault::Memory);
        }
        Ok(())
    }

    /// The frames that a node gave out fly, and its pair tags are made. Answers how many frames there are.
    pub(crate) fn fly(&mut self, node: usize) -> u8
        requires room { HasRoom self.old }
        requires node { node < 1000 }
        requires flights { length self.old.flights.flights + MOST_FRAMES ≤ u32.MAX }
        requires made { length self.old.made.tags + 2 ≤ u32.MAX }
        ensures world { world_of self.new ≡ record (world_of self.old) {
          flights = self.old.flights.flights ++ map (rules.flight_by node) self.old.out.frames;
          made = self.old.made.tags ++ self.old.out.tags.made;
        } }
        ensures count { result ≡ length self.old.out.frames }
        ensures frames { length self.old.out.frames ≤ MOST_FRAMES }
        ensures tags { length self.old.out.tags.made ≤ 2 }
    {
        let flights = self.out.frames.len() as u8;
        let _tags = self.out.tags.made.len();
        self.flights.send_off(node as u16, self.out.frames.frames());
        self.made.note(self.out.tags.made.tags());
        flights
    }

    /// Records what a node did: in the world, and in the happenings for the report.
    pub(crate) fn node_outcome(&mut self, node: usize, answer: Answer) -> Happenings<'static>
        requires room { HasRoom self.old }
        requires node { node < 1000 }
        requires events { self.old.events < MAX_EVENTS }
        requires flights { length self.old.flights.flights + MOST_FRAMES ≤ u32.MAX }
        requires made { length self.old.made.tags + 2 ≤ u32.MAX }
        ensures world { world_of self.new ≡ record (rules.running_world (world_of self.old)) {
          flights = self.old.flights.flights ++ map (rules.flight_by node) self.old.out.frames;
          made = self.old.made.tags ++ self.old.out.tags.made;
        } }
        ensures reported { result ≡ record (rules.happenings (world_of self.old) answer) {
          flights = length self.old.out.frames;
        } }
        ensures frames { length self.old.out.frames ≤ MOST_FRAMES }
        ensures tags { length self.old.out.tags.made ≤ 2 }
    {
        let mut happenings = self.answered(answer);
        happenings.flights = self.fly(node);
        happenings
    }

    /// Whether there is a coordinator.
    pub(crate) fn has_begun(&self) -> bool
        ensures { result ≡ rules.has_begun (world_of self.now) }
    {
        !self.nodes.is_empty()
    }

    /// Whether setup still lasts.
    pub(crate) fn takes_setup(&self) -> bool
        ensures { result ≡ rules.takes_setup (world_of self.now) }
    {
        self.has_begun() && !self.running
    }

    /// The node of a number. `Setup` before there is a coordinator, `Node` where there is no such node.
    pub(crate) fn node(&self, number: u32) -> Result<usize, StepFault>
        ensures { result ≡ found (world_of self.now) number }
    {
        if self.nodes.is_empty() {
            return Err(StepFault::Setup);
        }
        let number = number as usize;
        if number < self.nodes.len() {
            return Ok(number);
        }
        Err(StepFault::Node)
    }

    /// The meter of a number: node 0 is none. It fails as [`Self::node`] does.
    pub(crate) fn meter_number(&self, node: u32) -> Result<usize, StepFault>
        ensures { result ≡ found_meter (world_of self.now) node }
    {
        if self.nodes.is_empty() {
            return Err(StepFault::Setup);
        }
        if node == 0 {
            return Err(StepFault::Node);
        }
        self.node(node)
    }
}
