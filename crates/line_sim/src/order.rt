//! The order of the lines of a script.
ghost use Rattle.std.specs.Prelude.{◌≡◌, IsTrue, OnOk, None, Some};
ghost use Rattle.line_sim.specs.Arrivals.{arrival_by, coming};
ghost use Rattle.line_sim.specs.Recorders.{Grows, Brings, Follows, last_of};
ghost use Rattle.line_sim.specs.Recorders.{no_order, ordered_of};
ghost use Rattle.line_sim.specs.WorldRecorder.{brings, event_turn, remark_turn, TurnsAs, turn_of};
ghost use Rattle.line_sim.specs.Times.{Remarked, is_tick, time_by};

use line_events::Event;
use line_simulation::RecordFault;
use line_world::World;
use std::alloc::Global;
use std::collections::BTreeMap;

/// A flight that comes to a node.
#[derive(Clone, Copy, Debug)]
pub struct Delivery {
    pub flight: u32,
    pub node: u32,
}

/// What the lines of a script so far ask of the next one.
///
/// The air keeps the frames of a node in their order and brings none back to its sender, and the calendar of a simulation never goes back, so a simulation
/// should never be refused here. That is tested and not proved: the proof of a script's order rests on asking.
#[derive(Drop)]
pub struct Order {
    // The flight that came last, by its sender and the node that it came to.
    pub last: BTreeMap<(u32, u32), u32>,
    // The second of the last line but `tick`.
    pub second: u64,
    // The time of the last remark, in thousandths of a second.
    pub remarked: u64,
}

fn is_tick(event: &Event<'_>) -> bool
    ensures tick { result ≡ is_tick event.now }
    ensures alone { IsTrue result → coming event.now ≡ None }
{
    match event {
        Event::Tick { .. } => true,
        _ => false,
    }
}

// The flight that an event has come to a node.
fn coming(event: &Event<'_>) -> Option<Delivery>
    ensures { result ≡ coming event.now }
{
    match event {
        Event::Deliver { flight, node, .. } => Some(Delivery {
            flight: *flight,
            node: *node,
        }),
        _ => None,
    }
}

impl Order {
    /// Of no line.
    pub fn new(alloc: Global) -> Order
        ensures { ordered_of result ≡ no_order }
    {
        Order {
            last: BTreeMap::new(alloc),
            second: 0,
            remarked: 0,
        }
    }

    // The flight of a node that came last to another, 0 where none did.
    fn last_of(&self, from: u32, node: u32) -> u32
        ensures { result ≡ last_of self.now.last from node }
    {
        self.last.get(&(from, node)).copied().unwrap_or(0)
    }

    // A flight of a node comes. Refused where it comes to its sender, or where a later one came there.
    fn bring(&mut self, from: u32, coming: Delivery) -> Result<(), RecordFault>
        ensures grows { Grows self.old self.new }
        ensures second { self.new.second ≡ self.old.second }
        ensures brings { OnOk result (Brings from coming self.old self.new) }
        ensures exact { TurnsAs result (brings from coming (ordered_of self.old)) (ordered_of self.new) }
    {
        if from == coming.node {
            return Err(RecordFault::Refused);
        }
        if coming.flight < self.last_of(from, coming.node) {
            return Err(RecordFault::Refused);
        }
        match self.last.insert((from, coming.node), coming.flight) {
            Ok(_) => Ok(()),
            Err(_) => Err(RecordFault::Memory),
        }
    }

    /// The line of an event is to come next, in a world. Refused where the order does not allow it.
    pub fn take(&mut self, world: &World, event: &Event<'_>) -> Result<(), RecordFault>
        ensures grows { Grows self.old self.new }
        ensures follows { OnOk result (Follows (arrival_by world.now event.now) (time_by world.now event.now) self.old self.new) }
        ensures exact { TurnsAs result (event_turn world.now event.now (ordered_of self.old)) (ordered_of self.new) }
    {
        if is_tick(event) {
            return Ok(());
        }
        let second = world.clock();
        if second < self.second {
            return Err(RecordFault::Refused);
        }
        self.second = second;
        let Some(coming) = coming(event) else {
            return Ok(());
        };
        let Some(from) = world.flight_sender(coming.flight) else {
            return Err(RecordFault::Refused);
        };
        self.bring(u32::from(from), coming)
    }

    /// A remark is to come next, at a time in thousandths of a second. False where the order does not allow it; nothing changes then.
    pub fn take_remark(&mut self, at: u64) -> bool
        ensures grows { Grows self.old self.new }
        ensures follows { IsTrue result → Follows None (Some (Remarked at)) self.old self.new }
        ensures exact { remark_turn at (ordered_of self.old) ≡ turn_of result (ordered_of self.new) }
    {
        if at < self.remarked || at / 1_000 < self.second {
            return false;
        }
        self.remarked = at;
        self.second = at / 1_000;
        true
    }
}
