//! A large run out of one number: meters that join over up to three hops, send readings, and change their key.
ghost use Rattle.std.specs.Prelude.{◌≡◌, ◌+◌, ◌<◌, ◌≤◌, min, length, All, IfOk, OnOk, string_bytes};
ghost use Rattle.line_events.specs.Events.{AreOctets, IsEui, IsCost, IsEvent};
ghost use Rattle.line_replay.specs.Drills.{wide, eui, parent, cost, reading, after, each, bring, bring_both, bring_round, drain, make_coordinator, make_meter};
ghost use Rattle.line_replay.specs.Drills.{make, draw, join, send, read, challenge, activate, rekey, drill_from, drill_text, drill_text_of};
ghost use Rattle.line_rules.specs.Worlds.{start};

use crate::report::totals;
use line_events::{Event, MAX_EVENTS, StepFault};
use line_script::end_text;
use line_world::{Buffers, World};
use plc_base::{Eui, Key, KeyIndex, LinkCost, OctetRef, RandomOctets};
use std::alloc::{AllocError, Global};
use std::marker::Model;

/// The most meters that join at the coordinator itself, and that join at one meter's distance.
const RING: u32 = 20;

/// A number in sixteen octets.
#[tactic(auto, unfolding(crate::specs::Drills::wide))]
fn wide(number: u32) -> [u8; 16]
    ensures value { result ≡ wide number }
    ensures octets { AreOctets 16 result }
{
    let [a, b, c, d] = number.to_be_bytes();
    [0, 0, 0, 0, 0, 0, 0, 0, 0, 0, 0, 0, a, b, c, d]
}

/// The EUI of a node.
#[tactic(auto, unfolding(crate::specs::Drills::eui))]
fn eui(node: u32) -> Eui
    requires { node ≤ 255 }
    ensures value { result ≡ eui node }
    ensures octets { IsEui result }
{
    let [a, b, c, d] = (node + 1).to_be_bytes();
    Eui([0, 0, 0, 0, a, b, c, d])
}

/// The node by which a meter joins.
#[tactic(auto, unfolding(crate::specs::Drills::parent))]
fn parent(node: u32) -> u32
    ensures { result ≡ parent node }
{
    if node <= RING { 0 } else { node - RING }
}

/// The cost of the link between two nodes.
#[tactic(auto, unfolding(crate::specs::Drills::cost))]
fn cost(a: u16, b: u32) -> LinkCost
    ensures value { result ≡ cost a b }
    ensures range { IsCost result }
{
    let sum = u64::from(a) + u64::from(b);
    LinkCost::new(1 + (sum % 7) as u8).unwrap()
}

/// The reading of a meter in a round, with this many zeros after it.
#[tactic(auto, unfolding(crate::specs::Drills::reading))]
fn reading(alloc: Global, node: u32, round: u16, zeros: usize) -> Result<Vec<u8>, AllocError>
    requires { zeros ≤ 2044 }
    ensures value { IfOk result (λ octets. octets.items ≡ reading node round zeros) }
    ensures length { IfOk result (λ octets. length octets.items ≡ 4 + zeros) }
    ensures octets { IfOk result (λ octets. All (λ x. x < 256) octets.items) }
{
    let [_, _, a, b] = node.to_be_bytes();
    let [c, d] = round.to_be_bytes();
    let mut octets = Vec::new(alloc);
    octets.extend_from_slice(&[a, b, c, d])?;
    octets.resize(4 + zeros, 0)?;
    Ok(octets)
}

/// A drill, as far as it has come. A contract sees the world, and how many flights came to the neighbours of their senders.
#[derive(Drop)]
struct Drill {
    alloc: Global,
    world: World,
    buffers: Buffers,
    drained: u32,
}

impl Model for Drill {
    ghost use Rattle.line_replay.specs.Codes.{drilling_code};
    ghost use Rattle.line_replay.specs.Drills.{Drilling};

    ghost Value = { Drilling };

    ghost coded = { drilling_code };

    ghost view = { λ d. record { world = d.world; drained = d.drained } };
}

impl Drill {
    /// Takes an event, unless a run has all its events. One that is not taken changes nothing.
    fn take(&mut self, event: &Event<'_>) -> Result<(), AllocError>
        requires { IsEvent event.now }
        ensures { OnOk result (self.new ≡ after event.now self.old) }
    {
        if self.world.counts().events >= MAX_EVENTS {
            return Ok(());
        }
        match self.world.step(event, &mut self.buffers) {
            Ok(_) => return Ok(()),
            Err(StepFault::Memory) => return Err(AllocError),
            Err(StepFault::Setup) => return Ok(()),
            Err(StepFault::Node) => return Ok(()),
            Err(StepFault::Flight) => return Ok(()),
        }
    }

    /// Brings a flight to a node over the link to its sender.
    #[tactic(auto, unfolding(crate::specs::Drills::bring))]
    fn bring(&mut self, flight: u32, from: u16, node: u32) -> Result<(), AllocError>
        ensures { OnOk result (self.new ≡ bring flight from node self.old) }
    {
        let cost = cost(from, node);
        self.take(&Event::Deliver { flight, node, cost })
    }

    /// Brings a flight of a meter to its parent, and to the meter that joins by it, if there is one.
    fn bring_both(&mut self, meters: u8, flight: u32, from: u16) -> Result<(), AllocError>
        ensures { OnOk result (self.new ≡ bring_both meters flight from self.old) }
    {
        let number = u32::from(from);
        self.bring(flight, from, parent(number))?;
        if number + RING > u32::from(meters) {
            return Ok(());
        }
        self.bring(flight, from, number + RING)
    }

    /// Brings a flight of the coordinator to the meters that join by it.
    fn bring_down(&mut self, meters: u8, flight: u32) -> Result<(), AllocError>
        ensures { OnOk result (self.new ≡ each (λ node. bring flight 0 node) (min meters 20) self.old) }
    {
        for node in 1..u32::from(meters).min(RING) + 1 {
            self.bring(flight, 0, node)?;
        }
        Ok(())
    }

    /// Brings a flight to each neighbour of its sender.
    #[tactic(auto, unfolding(crate::specs::Drills::bring_round))]
    fn bring_round(&mut self, meters: u8, flight: u32, from: u16) -> Result<(), AllocError>
        ensures { OnOk result (self.new ≡ bring_round meters flight from self.old) }
    {
        if from == 0 {
            return self.bring_down(meters, flight);
        }
        self.bring_both(meters, flight, from)
    }

    /// Brings each flight that is left to the neighbours of its sender, the least number first.
    fn drain(&mut self, meters: u8) -> Result<(), AllocError>
        ensures { OnOk result (self.new ≡ drain meters self.old) }
    {
        // No run needs more turns than it has events.
        for turn in 0..MAX_EVENTS {
            if self.drained >= self.world.counts().flights {
                return Ok(());
            }
            let flight = self.drained + 1;
            let Some(from) = self.world.flight_sender(flight) else {
                return Ok(());
            };
            self.bring_round(meters, flight, from)?;
            self.drained = flight;
        }
        Ok(())
    }

    #[tactic(auto, unfolding(crate::specs::Drills::make_coordinator))]
    fn make_coordinator(&mut self) -> Result<(), AllocError>
        ensures { OnOk result (self.new ≡ make_coordinator self.old) }
    {
        let key = Key(wide(1));
        let eui = eui(0);
        self.take(&Event::Coordinator { eui, key })
    }

    #[tactic(auto, unfolding(crate::specs::Drills::make_meter))]
    fn make_meter(&mut self, node: u32) -> Result<(), AllocError>
        requires { node ≤ 255 }
        ensures { OnOk result (self.new ≡ make_meter node self.old) }
    {
        let psk = Key(wide(1000 + node));
        let eui = eui(node);
        self.take(&Event::Meter { eui, psk })
    }

    /// Makes the nodes.
    fn make(&mut self, meters: u8) -> Result<(), AllocError>
        ensures { OnOk result (self.new ≡ make meters self.old) }
    {
        self.make_coordinator()?;
        for node in 1..u32::from(meters) + 1 {
            self.make_meter(node)?;
        }
        Ok(())
    }

    /// Gives the coordinator and a meter the next two random values, for a session.
    #[tactic(auto, unfolding(crate::specs::Drills::draw))]
    fn draw(&mut self, first: u32, node: u32) -> Result<(), AllocError>
        requires { first ≤ 65535 }
        ensures { OnOk result (self.new ≡ draw first node self.old) }
    {
        let value = RandomOctets(wide(first));
        self.take(&Event::RandomOctets { node: 0, value })?;
        let value = RandomOctets(wide(first + 1));
        self.take(&Event::RandomOctets { node, value })
    }

    /// A meter joins by its parent.
    #[tactic(auto, unfolding(crate::specs::Drills::join))]
    fn join(&mut self, meters: u8, node: u32) -> Result<(), AllocError>
        requires first { 1 ≤ node }
        requires last { node ≤ 255 }
        ensures { OnOk result (self.new ≡ join meters node self.old) }
    {
        self.take(&Event::Allow { node })?;
        self.draw(2 * node - 1, node)?;
        let agent = parent(node);
        self.take(&Event::Join { node, agent })?;
        self.drain(meters)
    }

    /// All meters join, one after the other.
    fn join_all(&mut self, meters: u8) -> Result<(), AllocError>
        ensures { OnOk result (self.new ≡ each (join meters) meters self.old) }
    {
        for node in 1..u32::from(meters) + 1 {
            self.join(meters, node)?;
        }
        Ok(())
    }

    /// A meter sends its reading of a round to the coordinator.
    #[tactic(auto, unfolding(crate::specs::Drills::send))]
    fn send(&mut self, meters: u8, round: u16, zeros: usize, node: u32) -> Result<(), AllocError>
        requires { zeros ≤ 2044 }
        ensures { OnOk result (self.new ≡ send meters round zeros node self.old) }
    {
        let octets = reading(self.alloc, node, round, zeros)?;
        let datagram = OctetRef::new(octets.as_slice());
        self.take(&Event::Send {
            from: node,
            to: 0,
            datagram,
        })?;
        self.drain(meters)
    }

    /// After an hour each meter sends its reading of a round.
    fn read(&mut self, meters: u8, round: u16, zeros: usize) -> Result<(), AllocError>
        requires { zeros ≤ 2044 }
        ensures { OnOk result (self.new ≡ read meters round zeros self.old) }
    {
        self.take(&Event::Tick { seconds: 3600 })?;
        for node in 1..u32::from(meters) + 1 {
            self.send(meters, round, zeros, node)?;
        }
        Ok(())
    }

    /// A meter is challenged, and so gets the new key.
    #[tactic(auto, unfolding(crate::specs::Drills::challenge))]
    fn challenge(&mut self, meters: u8, node: u32) -> Result<(), AllocError>
        requires first { 1 ≤ node }
        requires last { node ≤ 255 }
        ensures { OnOk result (self.new ≡ challenge meters node self.old) }
    {
        self.draw(2 * u32::from(meters) + 2 * node - 1, node)?;
        self.take(&Event::Challenge { node })?;
        self.drain(meters)
    }

    fn challenge_all(&mut self, meters: u8) -> Result<(), AllocError>
        ensures { OnOk result (self.new ≡ each (challenge meters) meters self.old) }
    {
        for node in 1..u32::from(meters) + 1 {
            self.challenge(meters, node)?;
        }
        Ok(())
    }

    /// A node is to seal with the new key.
    #[tactic(auto, unfolding(crate::specs::Drills::activate))]
    fn activate(&mut self, meters: u8, node: u32) -> Result<(), AllocError>
        ensures { OnOk result (self.new ≡ activate meters node self.old) }
    {
        self.take(&Event::Activate {
            node,
            index: KeyIndex::second(),
        })?;
        self.drain(meters)
    }

    fn activate_all(&mut self, meters: u8) -> Result<(), AllocError>
        ensures { OnOk result (self.new ≡ each (activate meters) meters self.old) }
    {
        for node in 1..u32::from(meters) + 1 {
            self.activate(meters, node)?;
        }
        Ok(())
    }

    /// Each meter gets the new key, and then each node seals with it.
    #[tactic(auto, unfolding(crate::specs::Drills::rekey))]
    fn rekey(&mut self, meters: u8) -> Result<(), AllocError>
        ensures { OnOk result (self.new ≡ rekey meters self.old) }
    {
        let key = Key(wide(2));
        self.take(&Event::Rekey {
            index: KeyIndex::second(),
            key,
        })?;
        self.challenge_all(meters)?;
        self.activate_all(meters)?;
        self.take(&Event::Activate {
            node: 0,
            index: KeyIndex::second(),
        })
    }

    /// All meters join, send two short readings and a long one, change their key and send a short one.
    #[tactic(auto, unfolding(crate::specs::Drills::drill_from))]
    fn run(&mut self, meters: u8) -> Result<(), AllocError>
        ensures { OnOk result (self.new ≡ drill_from meters self.old) }
    {
        self.make(meters)?;
        self.join_all(meters)?;
        self.read(meters, 1, 0)?;
        self.read(meters, 2, 0)?;
        self.read(meters, 3, 400)?;
        self.rekey(meters)?;
        self.read(meters, 4, 0)
    }
}

/// A drill over a line without a node. It is not inlined, so that the parts of which it is made do not stand in the frame of the call that runs it.
#[inline(never)]
fn new_drill(alloc: Global) -> Result<Drill, AllocError>
    ensures { IfOk result (λ drill. drill ≡ record { world = start; drained = 0 }) }
{
    let world = World::new(alloc)?;
    Ok(Drill {
        alloc,
        world,
        buffers: Buffers::new(),
        drained: 0,
    })
}

/// The text of a drill with this many meters that left this world: the number, how many joinings are done, and the last line of a
/// report.
fn text_of(alloc: Global, meters: u8, world: &World) -> Result<String, AllocError>
    ensures { IfOk result (λ text. string_bytes text ≡ drill_text_of meters world.now) }
{
    let done = world.counts().done;
    let end = end_text(alloc, totals(world))?;
    format!(in alloc; "drill {meters}\ndone {done}\n{end}")
}

/// Runs a drill with this many meters. Answers its text.
#[inline(never)]
fn run_text(alloc: Global, meters: u8, drill: &mut Drill) -> Result<String, AllocError>
    ensures { IfOk result (λ text. string_bytes text ≡ drill_text_of meters (drill_from meters drill.old).world) }
{
    drill.run(meters)?;
    text_of(alloc, meters, &drill.world)
}

/// The text of a drill with this many meters.
pub fn drill_text(alloc: Global, meters: u8) -> Result<String, AllocError>
    ensures { IfOk result (λ text. string_bytes text ≡ drill_text meters) }
{
    let mut drill = new_drill(alloc)?;
    run_text(alloc, meters, &mut drill)
}
