//! The world, and the step that an event makes.
ghost use Rattle.std.specs.Prelude.{◌≡◌, ◌<◌, ◌≤◌, length};
ghost use Rattle.line_events.specs.declared.event.TheConstants.{MAX_EVENTS};
ghost use Rattle.line_events.specs.Events.{IsEvent};

use crate::line::Line;
use crate::nodes::Nodes;
use line_events::{Event, Happenings, StepFault};
use line_flights::{Flights, MadeTags};
use node_rules::{Shown, ShownPeers, ShownRoutes};
use plc_base::{DatagramBuf, FrameBuf, Key, Out};
use std::alloc::{AllocError, Global};
use std::marker::Model;

/// What was counted so far.
#[derive(Clone, Copy, Debug, PartialEq, Eq)]
pub struct Counts {
    /// The events that were taken.
    pub events: u32,
    /// The flights that went out.
    pub flights: u32,
    /// The sends that were answered Sent or Waiting.
    pub sends: u32,
    /// The datagrams that were handed up.
    pub ups: u32,
    /// The events that were forged.
    pub forged: u32,
    /// The joinings that are done.
    pub done: u32,
}

/// Where an event puts what it hands out: a datagram, or what is shown of a node.
#[derive(Drop)]
pub struct Buffers {
    /// What is inside the last frame that was opened.
    pub payload: FrameBuf,
    /// The last datagram that came in pieces, whole.
    pub datagram: DatagramBuf,
    /// What was shown last.
    pub shown: Shown,
}

impl Buffers {
    ghost use Rattle.std.specs.Prelude.{[]};
    ghost use Rattle.node_rules.specs.ShownNodes.{nothing_shown};

    /// No octets, and what a halted node shows.
    pub fn new() -> Buffers
        ensures { result ≡ record { payload = []; datagram = []; shown = nothing_shown } }
    {
        Buffers {
            payload: FrameBuf::new(),
            datagram: DatagramBuf::new(),
            shown: Shown {
                halted: true,
                address: None,
                active: None,
                next_counter: 0,
                last_number: 0,
                key0: None,
                key1: None,
                routes: ShownRoutes::new(),
                floors: [0; 16],
                peers: ShownPeers::new(),
            },
        }
    }
}

/// The nodes of a line, and every frame that ever went out.
///
/// Each world has a history: a run of the rules from the world without nodes that ends in it (`reached` of `counts`). What the laws of runs
/// say holds of it, for whoever steps it: `line_rules::histories_go_on` says which entry each event adds.
#[derive(Drop)]
pub struct World {
    pub(crate) line: Line,
}

impl Model for World {
    ghost use Rattle.line_rules.specs.Logs.{LogsKept};
    ghost use Rattle.line_rules.specs.Runs.{IsReached};
    ghost use Rattle.line_rules.specs.Worlds.{World};
    ghost use Rattle.line_world.specs.WorldCodes.{world_code};
    ghost use Rattle.line_world.specs.Bounds.{IsBounded, NoneChecked};
    ghost use Rattle.line_world.specs.Lines.{world_of};

    ghost Value = { World };

    ghost coded = { world_code };

    ghost view = { λ w. world_of w.line };

    ghost invariant = { λ w. IsBounded (world_of w.line) × LogsKept (world_of w.line) × NoneChecked (world_of w.line)
        × IsReached (world_of w.line) };
}

impl World {
    ghost use Rattle.std.specs.Prelude.{IfOk, IfSome, is_some};
    ghost use Rattle.std.specs.Option.{option_and_then, option_copied, option_map};
    ghost use Rattle.node_rules.specs.Ciphers.{network};
    ghost use Rattle.node_rules.specs.ShownNodes.{shown_of};
    ghost use Rattle.line_rules.specs.Worlds.{start, flight_at, node_at};
    ghost use Rattle.line_rules.specs.Runs.{IsReached};
    ghost use Rattle.line_rules.specs.Further.{line_step};
    ghost use Rattle.line_world.specs.Steps.{Gives, HasMemory, takes_memory};

    /// A world with no node, and memory for what one step of a node gives out. It fails only where there is none.
    pub fn new(alloc: Global) -> Result<World, AllocError>
        ensures { IfOk result (λ world. world ≡ start) }
    {
        let out = Out::new(alloc)?;
        Ok(World {
            line: Line {
                alloc,
                clock: 0,
                events: 0,
                running: false,
                nodes: Nodes::new(alloc),
                flights: Flights::new(alloc),
                made: MadeTags::new(alloc),
                sends: 0,
                ups: 0,
                forged: 0,
                done: 0,
                checks_on: false,
                beside: Vec::new(alloc),
                body: FrameBuf::new(),
                out,
            },
        })
    }

    /// What was counted so far.
    pub fn counts(&self) -> Counts
        ensures events { result.events ≡ self.now.events }
        ensures flights { result.flights ≡ length self.now.flights }
        ensures sends { result.sends ≡ self.now.sends }
        ensures ups { result.ups ≡ self.now.ups }
        ensures forged { result.forged ≡ self.now.forged }
        ensures done { result.done ≡ self.now.done }
        ensures bound { self.now.events ≤ MAX_EVENTS }
        ensures reached { IsReached self.now }
    {
        Counts {
            events: self.line.events,
            flights: self.line.flights.len() as u32,
            sends: self.line.sends,
            ups: self.line.ups,
            forged: self.line.forged,
            done: self.line.done,
        }
    }

    /// The octets of a flight, lost or not. None exactly where no flight has that number.
    pub fn flight(&self, flight: u32) -> Option<&[u8]>
        ensures { option_copied result ≡ option_map (λ f. f.octets) (flight_at self.now flight) }
    {
        self.line.flights.octets(flight)
    }

    /// The node that sent a flight, lost or not. None exactly where no flight has that number.
    pub fn flight_sender(&self, flight: u32) -> Option<u16>
        ensures { result ≡ option_map (λ f. f.from) (flight_at self.now flight) }
    {
        self.line.flights.sender(flight)
    }

    /// The number of the send that a flight carries, a whole or in part: 0 where it carries none. None exactly where no flight has that number.
    pub fn flight_note(&self, flight: u32) -> Option<u32>
        ensures { result ≡ option_map (λ f. f.note) (flight_at self.now flight) }
    {
        let flight = self.line.flights.get(flight)?;
        Some(flight.note)
    }

    /// The group key that sealed a flight, if one did. None where the flight is plain, and where no flight has that number.
    pub fn flight_key(&self, flight: u32) -> Option<Key>
        ensures { result ≡ option_and_then (λ f. f.key) (flight_at self.now flight) }
    {
        let flight = self.line.flights.get(flight)?;
        flight.key
    }

    /// The clock, in seconds.
    pub fn clock(&self) -> u64
        ensures { result ≡ self.now.clock }
    {
        self.line.clock
    }

    /// Fills in what is shown of a node. It is no event. False exactly where there is no such node; nothing changes then.
    pub fn show(&mut self, node: u32, shown: &mut Shown) -> bool
        ensures there { result ≡ is_some (node_at self.old node) }
        ensures shown { IfSome (node_at self.old node) (λ n. shown.new ≡ shown_of n) }
        ensures same { self.new ≡ self.old }
    {
        let node = node as usize;
        if node >= self.line.nodes.len() {
            return false;
        }
        self.line.nodes.show(node, shown);
        true
    }

    /// Takes an event, and answers what happened: the step of the rules. Fewer than 50,000 events were taken before.
    ///
    /// `Setup`, `Node` and `Flight` come exactly where the rules say that the event is not taken for that reason. `Memory` comes only
    /// where the rules take it and it makes a node or may send frames. After each of them the world is as it was.
    ///
    /// A datagram that is handed up, and what is shown of a node, stands in `buffers`.
    pub fn step<'a>(
        &mut self,
        event: &Event<'_>,
        buffers: &'a mut Buffers,
    ) -> Result<Happenings<'a>, StepFault>
        requires events { self.old.events < MAX_EVENTS }
        requires event { IsEvent event.now }
        ensures step { Gives self.old result self.new (line_step network self.old event.now) }
        ensures memory { HasMemory (takes_memory self.old event.now) result }
    {
        self.line.nodes.short_tables();
        self.line.step(event, buffers)
    }
}
