//! A line as the program holds it: its world, the memory that is reserved for what flies, and where a node puts what it
//! gives out.
ghost use Rattle.std.specs.Prelude.{◌≡◌, ◌<◌, length, IfOk};
ghost use Rattle.node_rules.specs.Ciphers.{network};
ghost use Rattle.line_events.specs.declared.event.TheConstants.{MAX_EVENTS};
ghost use Rattle.line_events.specs.Events.{IsEvent};
ghost use Rattle.line_rules.specs.Further.{line_step};
ghost use Rattle.line_rules.specs.Logs.{LogsKept};
ghost use Rattle.line_world.specs.Arrivals.{BringsOctets};
ghost use Rattle.line_world.specs.Bounds.{IsBounded, NoneChecked};
ghost use Rattle.line_world.specs.Lines.{world_of};
ghost use Rattle.line_world.specs.Steps.{Steps, takes_memory};

use crate::beside::Beside;
use crate::nodes::Nodes;
use crate::world::Buffers;
use line_events::{Event, Happenings, StepFault};
use line_flights::{Flights, MadeTags};
use plc_base::{FrameBuf, Out};
use std::alloc::Global;

/// A line has at most this many nodes.
pub(crate) const MAX_NODES: usize = 1000;

/// The nodes of a line, and every frame that ever went out.
#[derive(Drop)]
pub(crate) struct Line {
    pub(crate) alloc: Global,
    pub(crate) clock: u64,
    pub(crate) events: u32,
    pub(crate) running: bool,
    pub(crate) nodes: Nodes,
    pub(crate) flights: Flights,
    pub(crate) made: MadeTags,
    pub(crate) sends: u32,
    pub(crate) ups: u32,
    pub(crate) forged: u32,
    pub(crate) done: u32,
    // Whether neighbours are checked, on all nodes.
    pub(crate) checks_on: bool,
    // What each node holds beside its memory, by its number.
    pub(crate) beside: Vec<Beside>,
    // Where the body of a command is written.
    pub(crate) body: FrameBuf,
    // What the node of the event gave out.
    pub(crate) out: Out,
}

impl Line {
    /// Takes an event, by its kind.
    pub(crate) fn step<'a>(
        &mut self,
        event: &Event<'_>,
        buffers: &'a mut Buffers,
    ) -> Result<Happenings<'a>, StepFault>
        requires bounds { IsBounded (world_of self.old) }
        requires beside { length self.old.beside.items ≡ length self.old.nodes }
        requires logs { LogsKept (world_of self.old) }
        requires checks { NoneChecked (world_of self.old) }
        requires events { self.old.events < MAX_EVENTS }
        requires event { IsEvent event.now }
        ensures steps { Steps (takes_memory (world_of self.old) event.now) (world_of self.old) result (world_of self.new)
            (line_step network (world_of self.old) event.now) }
        ensures octets { IfOk result (λ _. BringsOctets (world_of self.old) event.now) }
    {
        match event {
            Event::Coordinator { eui, key } => self.coordinator(*eui, key),
            Event::Meter { eui, psk } => self.meter(*eui, *psk),
            Event::Depot { node } => self.depot(*node),
            Event::Near { a, b, cost } => self.near(*a, *b, *cost),
            Event::Counter { node, value } => self.counter(*node, *value),
            Event::Number { node, value } => self.number(*node, *value),
            Event::Allow { node } => self.allow(*node),
            Event::RandomOctets { node, value } => self.rand(*node, *value),
            Event::Join { node, agent } => self.join(*node, *agent),
            Event::Leave { node } => self.leave(*node),
            Event::Send { from, to, datagram } => self.send(*from, *to, datagram.octets()),
            Event::Deliver { flight, node, cost } => self.deliver(*flight, *node, *cost, buffers),
            Event::Inject { node, cost, octets } => {
                self.inject(*node, *cost, octets.octets(), buffers)
            }
            Event::Lose { flight } => self.lose(*flight),
            Event::Break { node, next } => self.breaks(*node, *next),
            Event::Tick { seconds } => self.tick(*seconds),
            Event::Restart { node } => self.restart(*node),
            Event::Cut {
                node,
                nth,
                keeps_new,
            } => self.cut(*node, *nth, *keeps_new),
            Event::Rekey { index, key } => self.rekey(*index, key),
            Event::Challenge { node } => self.challenge(*node),
            Event::Activate { node, index } => self.activate(*node, *index),
            Event::Kick { node } => self.kick(*node),
            Event::Show { node } => self.show(*node, buffers),
            Event::Checks => self.checks(),
            Event::Bcast { node, datagram } => self.bcast(*node, datagram.octets()),
            Event::Scan { node } => self.scan(*node),
            Event::Choose { node, k } => self.choose(*node, *k),
            Event::Path { from, to } => self.path(*from, *to),
        }
    }
}
