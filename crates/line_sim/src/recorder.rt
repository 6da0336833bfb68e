//! The script of a run, and the world that the run has made.
ghost use Rattle.std.specs.Prelude.{◌≡◌, ◌<◌, ◌≤◌, ◌^◌, ◌++◌, [], string_bytes, true, false, not, ltb, All, AllPairs, IsTrue, IfOk, OnOk, OnErr, length};
ghost use Rattle.line_events.specs.Events.{IsEvent, IsNumber, IsCost, IsEui, IsKey, AreOctets, IsLineOctets};
ghost use Rattle.line_rules.specs.Worlds.{start};
ghost use Rattle.line_script.specs.Lines.{line_of};
ghost use Rattle.script_lines.specs.Lines.{NoFeed};
ghost use Rattle.line_sim.specs.Arrivals.{IsCausal, InOrder, arrivals};
ghost use Rattle.line_sim.specs.Recorders.{AppendsLine, no_order};
ghost use Rattle.line_sim.specs.WorldRecorder.{are_line_octets, is_within, is_said, may_take, has_feed, appended, AppendsAs, fault_of};
ghost use Rattle.line_sim.specs.Scripts.{LeadsTo, InjectsNothing, is_injection};
ghost use Rattle.line_sim.specs.Times.{IsUpTo, times, remark_line};

use crate::order::Order;
use line_events::{Event, MAX_EVENTS, StepFault};
use line_script::{lines_are_read_back, push_line};
use line_simulation::{Counted, Facts, RecordFault, Recording};
use line_world::{Buffers, World};
use plc_base::{Eui, Key, KeyIndex, LinkCost, RandomOctets};
use script_lines::lines_of_a_script;
use std::alloc::{AllocError, Global};
use std::marker::Model;

/// A script has at most this many octets.
pub const MAX_SCRIPT: usize = 67_108_864;

/// A line has at most this many octets, without its line feed.
pub const MAX_LINE: usize = 4_096;

/// The world, and the script of the events that it has taken.
///
/// Nothing else steps the world, and nothing else writes the script: an event that is recorded is stepped, and its line is the next one of the script. Remarks
/// stand between the lines. No event injects octets where `INJECTS` is 0. A contract sees the octets of the script, and the world.
#[derive(Drop)]
pub struct Recorder<const INJECTS: usize> {
    script: Vec<u8>,
    world: World,
    order: Order,
    buffers: Buffers,
    // The line that is to come.
    line: String,
}

impl<const INJECTS: usize> Model for Recorder<INJECTS> {
    ghost use Rattle.std.specs.Prelude.{nat_lt};
    ghost use Rattle.line_sim.specs.Codes.{recorded_code};
    ghost use Rattle.line_sim.specs.Recorders.{ordered_of, Recorded, IsScriptOf};

    ghost Value = { Recorded };

    ghost coded = { recorded_code };

    ghost view = { λ r. record { script = r.script.items; world = r.world; order = ordered_of r.order } };

    ghost invariant = { λ r. IsScriptOf (nat_lt 0 INJECTS) r.script.items r.world r.order };
}

impl<const INJECTS: usize> Recorder<INJECTS> {
    /// A world without a node, and an empty script. It fails only where there is no memory for it.
    pub fn new(alloc: Global) -> Result<Recorder<INJECTS>, AllocError>
        ensures { IfOk result (λ recorder. recorder ≡ record { script = []; world = start; order = no_order }) }
    {
        let world = World::new(alloc)?;
        Ok(Recorder {
            script: Vec::new(alloc),
            world,
            order: Order::new(alloc),
            buffers: Buffers::new(),
            line: String::new(alloc),
        })
    }

    /// The script so far. A replay of it has no bad line and ends in the world; where no octets may be injected, no line injects some. Flights come to nodes
    /// after they were sent and in their order, and no line is at an earlier time than those before it.
    pub fn script(&self) -> &[u8]
        ensures value { result.now ≡ self.now.script }
        ensures leads { LeadsTo self.now.script self.now.world }
        ensures quiet { INJECTS ≡ 0 → InjectsNothing self.now.script }
        ensures causal { All IsCausal (arrivals self.now.script) }
        ensures in_order { AllPairs InOrder (arrivals self.now.script) }
        ensures clock { AllPairs IsUpTo (times self.now.script) }
        ensures fits { length self.now.script ≤ 67108864 }
    {
        lines_of_a_script();
        self.script.as_slice()
    }

    /// How many events were forged.
    pub fn forged(&self) -> u32
        ensures { result ≡ self.now.world.forged }
    {
        self.world.counts().forged
    }
}

impl<const INJECTS: usize> Recording for Recorder<INJECTS> {
    ghost use Rattle.std.specs.Prelude.{nat_lt};
    ghost use Rattle.line_sim.specs.WorldRecorder.{world_recorder};

    ghost recorder = { world_recorder (nat_lt 0 INJECTS) };

    fn record(&mut self, event: &Event<'_>) -> Result<Facts, RecordFault> {
        if self.world.counts().events >= MAX_EVENTS {
            return Err(RecordFault::Full);
        }
        if !may_take(INJECTS > 0, event) {
            return Err(RecordFault::Refused);
        }
        self.order.take(&self.world, event)?;
        lines_are_read_back();
        let before = self.script.len();
        append_event(&mut self.script, &mut self.line, event)?;
        match self.world.step(event, &mut self.buffers) {
            Ok(happenings) => Ok(Facts::of(&happenings)),
            Err(fault) => {
                self.script.truncate(before);
                Err(fault_of(fault))
            }
        }
    }

    fn remark(&mut self, at: u64, remark: &str) -> Result<(), RecordFault> {
        if !self.order.take_remark(at) {
            return Err(RecordFault::Refused);
        }
        append_remark(&mut self.script, &mut self.line, at, remark)
    }

    fn flight(&self, flight: u32) -> Option<&[u8]> {
        self.world.flight(flight)
    }

    fn flight_sender(&self, flight: u32) -> Option<u32> {
        let node = self.world.flight_sender(flight)?;
        Some(u32::from(node))
    }

    fn counted(&self) -> Counted {
        let counts = self.world.counts();
        Counted {
            events: counts.events,
            flights: counts.flights,
            forged: counts.forged,
        }
    }

    fn clock(&self) -> u64 {
        self.world.clock()
    }

    fn room(&self) -> u32 {
        MAX_EVENTS - self.world.counts().events
    }
}

// Whether octets hold no line feed.
fn has_no_feed(octets: &[u8]) -> bool
    ensures none { IsTrue result → NoFeed octets.now }
    ensures exact { result ≡ not (has_feed octets.now) }
{
    for octet in octets {
        if *octet == b'\n' {
            return false;
        }
    }
    true
}

// Appends a line and its line feed to a script, where both have room and it is one line. Nothing changes otherwise.
fn append(script: &mut Vec<u8>, line: &[u8]) -> Result<(), RecordFault>
    requires { length script.old.items ≤ 67108864 }
    ensures ok { OnOk result (AppendsLine script.old.items line.now script.new.items) }
    ensures err { OnErr result (script.new.items ≡ script.old.items) }
    ensures exact { AppendsAs result (appended script.old.items line.now) script.new.items }
{
    if line.len() > MAX_LINE || !has_no_feed(line) {
        return Err(RecordFault::Full);
    }
    if line.len() >= MAX_SCRIPT - script.len() {
        return Err(RecordFault::Full);
    }
    let before = script.len();
    if script.extend_from_slice(line).is_err() {
        return Err(RecordFault::Memory);
    }
    if script.push(b'\n').is_err() {
        script.truncate(before);
        return Err(RecordFault::Memory);
    }
    Ok(())
}

// Appends the line of an event to a script.
fn append_event(
    script: &mut Vec<u8>,
    line: &mut String,
    event: &Event<'_>,
) -> Result<(), RecordFault>
    requires { length script.old.items ≤ 67108864 }
    ensures ok { OnOk result (AppendsLine script.old.items (line_of event.now) script.new.items) }
    ensures err { OnErr result (script.new.items ≡ script.old.items) }
    ensures exact { AppendsAs result (appended script.old.items (line_of event.now)) script.new.items }
{
    line.clear();
    if push_line(line, event).is_err() {
        return Err(RecordFault::Memory);
    }
    let octets = line.as_bytes();
    append(script, &octets[..octets.len() - 1])
}

// Appends the line of a remark at a time in thousandths of a second, without its line feed.
fn push_remark(line: &mut String, at: u64, remark: &str) -> Result<(), AllocError>
    ensures { OnOk result (string_bytes line.new ≡ string_bytes line.old ++ remark_line at remark.now) }
{
    let seconds = at / 1_000;
    let tenths = at / 100 % 10;
    let hundredths = at / 10 % 10;
    let thousandths = at % 10;
    match write!(
        line,
        "#@ {seconds}.{tenths}{hundredths}{thousandths} {remark}"
    ) {
        Ok(()) => Ok(()),
        Err(_) => Err(AllocError),
    }
}

// Appends a remark to a script, at a time in thousandths of a second.
fn append_remark(
    script: &mut Vec<u8>,
    line: &mut String,
    at: u64,
    remark: &str,
) -> Result<(), RecordFault>
    requires { length script.old.items ≤ 67108864 }
    ensures ok { OnOk result (AppendsLine script.old.items (remark_line at remark.now) script.new.items) }
    ensures err { OnErr result (script.new.items ≡ script.old.items) }
    ensures exact { AppendsAs result (appended script.old.items (remark_line at remark.now)) script.new.items }
{
    line.clear();
    if push_remark(line, at, remark).is_err() {
        return Err(RecordFault::Memory);
    }
    append(script, line.as_bytes())
}

// Whether octets are as many as a line may have in hexadecimal.
fn are_line_octets(octets: &[u8]) -> bool
    ensures octets { IsTrue result → IsLineOctets octets.now }
    ensures exact { result ≡ are_line_octets octets.now }
{
    !octets.is_empty() && octets.len() <= 2_048
}

fn is_number(number: u32) -> bool
    ensures said { IsTrue result → IsNumber number }
    ensures exact { result ≡ true }
{
    true
}

// Whether a number is at least 1, and at most the bound.
fn is_within(number: u32, bound: u32) -> bool
    ensures within { IsTrue result → (1 ≤ number) × (number ≤ bound) }
    ensures exact { result ≡ is_within number bound }
{
    number > 0 && number <= bound
}

fn is_count(number: u16) -> bool
    ensures count { IsTrue result → (1 ≤ number) × (number < 2 ^ 16) }
    ensures exact { result ≡ ltb 0 number }
{
    number > 0
}

fn is_cost(cost: LinkCost) -> bool
    ensures said { IsTrue result → IsCost cost }
    ensures exact { result ≡ true }
{
    let _number = cost.number();
    true
}

fn is_index(index: KeyIndex) -> bool
    ensures said { IsTrue result → index ≤ 1 }
    ensures exact { result ≡ true }
{
    let _number = index.number();
    true
}

fn is_eui(eui: Eui) -> bool
    ensures said { IsTrue result → IsEui eui }
    ensures exact { result ≡ true }
{
    true
}

fn are_octets(octets: &[u8]) -> bool
    ensures said { IsTrue result → All (λ x. x < 256) octets.now }
    ensures exact { result ≡ true }
{
    true
}

fn is_key(key: Key) -> bool
    ensures said { IsTrue result → IsKey key }
    ensures exact { result ≡ true }
{
    key.0.len() == 16 && are_octets(&key.0)
}

fn is_rand(value: RandomOctets) -> bool
    ensures said { IsTrue result → AreOctets 16 value.0 }
    ensures exact { result ≡ true }
{
    value.0.len() == 16 && are_octets(&value.0)
}

// Whether a line can say an event. All but lengths and a few numbers follow from its types.
fn is_event(event: &Event<'_>) -> bool
    ensures event { IsTrue result → IsEvent event.now }
    ensures exact { result ≡ is_said event.now }
{
    match event {
        Event::Coordinator { eui, key } => is_eui(*eui) && is_key(*key),
        Event::Meter { eui, psk } => is_eui(*eui) && is_key(*psk),
        Event::Depot { node } => is_number(*node),
        Event::Near { a, b, cost } => is_number(*a) && is_number(*b) && is_cost(*cost),
        Event::Counter { node, value } => is_number(*node) && is_number(*value),
        Event::Number { node, value } => is_number(*node) && is_count(*value),
        Event::Allow { node } => is_number(*node),
        Event::RandomOctets { node, value } => is_number(*node) && is_rand(*value),
        Event::Join { node, agent } => is_number(*node) && is_number(*agent),
        Event::Leave { node } => is_number(*node),
        Event::Send { from, to, datagram } => {
            is_number(*from) && is_number(*to) && are_line_octets(datagram.octets())
        }
        Event::Deliver { flight, node, cost } => {
            is_number(*flight) && is_number(*node) && is_cost(*cost)
        }
        Event::Inject { node, cost, octets } => {
            is_number(*node) && is_cost(*cost) && are_line_octets(octets.octets())
        }
        Event::Lose { flight } => is_number(*flight),
        Event::Break { node, next } => is_number(*node) && is_number(*next),
        Event::Tick { seconds } => is_within(*seconds, 86_400),
        Event::Restart { node } => is_number(*node),
        Event::Cut { node, nth, .. } => is_number(*node) && is_within(u32::from(*nth), 1_000),
        Event::Rekey { index, key } => is_index(*index) && is_key(*key),
        Event::Challenge { node } => is_number(*node),
        Event::Activate { node, index } => is_number(*node) && is_index(*index),
        Event::Kick { node } => is_number(*node),
        Event::Show { node } => is_number(*node),
        Event::Checks => true,
        Event::Bcast { node, datagram } => is_number(*node) && are_line_octets(datagram.octets()),
        Event::Scan { node } => is_number(*node),
        Event::Choose { node, k } => is_number(*node) && is_within(u32::from(*k), 16),
        Event::Path { from, to } => is_number(*from) && is_number(*to),
    }
}

fn is_injection(event: &Event<'_>) -> bool
    ensures { result ≡ is_injection event.now }
{
    match event {
        Event::Inject { .. } => true,
        _ => false,
    }
}

// Whether a recorder takes an event.
fn may_take(injects: bool, event: &Event<'_>) -> bool
    ensures event { IsTrue result → IsEvent event.now }
    ensures quiet { IsTrue result → injects ≡ false → is_injection event.now ≡ false }
    ensures exact { result ≡ may_take injects event.now }
{
    if !injects && is_injection(event) {
        return false;
    }
    is_event(event)
}

// Why an event is not recorded that the world does not take.
fn fault_of(fault: StepFault) -> RecordFault
    ensures { result ≡ fault_of fault }
{
    match fault {
        StepFault::Memory => RecordFault::Memory,
        StepFault::Setup => RecordFault::Refused,
        StepFault::Node => RecordFault::Refused,
        StepFault::Flight => RecordFault::Refused,
    }
}
