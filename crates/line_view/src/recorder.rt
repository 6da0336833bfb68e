//! A run, recorded while it is made: the world, and the record of what its events did.
ghost use Rattle.std.specs.Prelude.{◌≡◌, ◌≤◌, ◌<◌, ◌+◌, ◌^◌, IfOk, OnOk, Some, length, nat_lt};
ghost use Rattle.std.specs.Option.{ForSome, option_copied};
ghost use Rattle.plc_base.specs.declared.limits.TheConstants.{LONGEST_FRAME};
ghost use Rattle.line_events.specs.Events.{IsEvent};
ghost use Rattle.frame_facts.specs.Payloads.{held};
ghost use Rattle.script_runs.specs.TakenLines.{event_taking};
ghost use Rattle.line_view.specs.Recordings as recordings;

use aes_modes::Aes;
use frame_facts::{FlightMore, decrypt_octets, frame_target, more_of};
use line_events::{Answer, Event, Happenings, MAX_EVENTS, StepFault};
use line_record::{Counters, RunRecord};
use line_script::Reason;
use line_world::{Buffers, World};
use plc_base::{Eui, FrameBuf, Key};
use sentence_parts::device_of;
use std::alloc::{AllocError, Global};
use std::marker::Model;

/// A run and its record. A contract sees all but the schedule and the buffer.
#[derive(Drop)]
pub struct Recorder {
    /// The world after the last event.
    pub world: World,
    /// What the events did.
    pub run_record: RunRecord,
    /// What the flights carry that no story goes by, by their numbers from 1.
    pub more: Vec<FlightMore>,
    /// Which flight was sealed with which counter.
    pub counters: Counters,
    /// The EUI-64 of each node.
    pub euis: Vec<Eui>,
    // The schedule of the last key, and the payload that was decrypted last.
    aes: Aes,
    opened: FrameBuf,
}

impl Model for Recorder {
    ghost use Rattle.std.specs.Coded.{codes};
    ghost use Rattle.line_world.specs.WorldCodes.{world_code};
    ghost use Rattle.line_view.specs.Recordings.{Recording};

    ghost Value = { Recording };

    ghost coded = { Prim.hlevel (codes, world_code) };

    ghost view = { λ r. record {
      world = r.world;
      events = r.run_record.events.items;
      flights = r.run_record.flights.items;
      more = r.more.items;
      counters = r.counters;
      euis = r.euis.items;
    } };
}

// The EUI-64 of a node that an event makes.
fn made_eui(event: &Event<'_>) -> Option<Eui>
    ensures { result ≡ recordings.made_eui event.now }
{
    match event {
        Event::Coordinator { eui, .. } => Some(*eui),
        Event::Meter { eui, .. } => Some(*eui),
        _ => None,
    }
}

fn push_eui(euis: &mut Vec<Eui>, made: Option<Eui>) -> Result<(), AllocError>
    ensures { OnOk result (euis.new.items ≡ recordings.with_eui made euis.old.items) }
{
    let Some(eui) = made else {
        return Ok(());
    };
    euis.push(eui)?;
    Ok(())
}

/// Whether an answer says that a group key is drawn, or may be: a write that fails may have left it.
pub fn is_drawn(answer: Answer) -> bool
    ensures { result ≡ recordings.is_drawn answer }
{
    match answer {
        Answer::Drawn => true,
        Answer::Store => true,
        _ => false,
    }
}

fn number_if(flown: &[u8], octets: &[u8], number: u32) -> u32
    ensures { result ≡ recordings.number_if (Some flown.now) octets.now number }
{
    if flown == octets {
        return number;
    }
    0
}

// The payload of a frame, where the buffer holds it.
fn payload_in(is_open: bool, opened: &FrameBuf) -> Option<&[u8]>
    ensures payload { option_copied result ≡ held is_open opened.now }
    ensures fits { ForSome result (λ p. length p.now ≤ LONGEST_FRAME) }
{
    if is_open {
        return Some(opened.octets());
    }
    None
}

impl Recorder {
    /// The run of no event. It fails only where there is no memory for it.
    pub fn new(alloc: Global) -> Result<Recorder, AllocError>
        ensures { IfOk result (λ recorder. recorder ≡ recordings.no_recording) }
    {
        let world = World::new(alloc)?;
        Ok(Recorder {
            world,
            run_record: RunRecord::new(alloc),
            more: Vec::new(alloc),
            counters: Counters::new(alloc),
            euis: Vec::new(alloc),
            aes: Aes::new(&Key([0; 16])),
            opened: FrameBuf::new(),
        })
    }

    /// Whether an event was forged.
    pub fn is_forged(&self) -> bool
        ensures { result ≡ nat_lt 0 self.now.world.forged }
    {
        0 < self.world.counts().forged
    }

    /// The clock after the last event, in seconds.
    pub fn clock(&self) -> u64
        ensures { result ≡ self.now.world.clock }
    {
        self.world.clock()
    }

    // Adds the flight of this number to the record, if there is one.
    #[tactic(auto, unfolding(crate::specs::Recordings::flight_recorded))]
    fn push_flight(&mut self, number: u32) -> Result<(), AllocError>
        ensures { OnOk result (self.new ≡ recordings.flight_recorded number self.old) }
    {
        let Some(octets) = self.world.flight(number) else {
            return Ok(());
        };
        let from = self.world.flight_sender(number).unwrap_or(0);
        let note = self.world.flight_note(number).unwrap_or(0);
        let key = self.world.flight_key(number);
        let is_open = decrypt_octets(octets, &key, &mut self.aes, &mut self.opened);
        let payload = payload_in(is_open, &self.opened);
        let device = device_of(&frame_target(octets), payload, self.euis.as_slice());
        self.run_record
            .push_flight(from, note, octets, payload, device)?;
        let more = more_of(octets, payload);
        self.more.push(more)?;
        self.counters.push(number, &more)
    }

    // Adds this many flights after the one of this number.
    fn push_flights(&mut self, before: u32, count: u32) -> Result<(), AllocError>
        requires { before + count < 2 ^ 32 }
        ensures { OnOk result (self.new ≡ recordings.flights_recorded before count self.old) }
    {
        for i in 0..count {
            self.push_flight(before + i + 1)?;
        }
        Ok(())
    }

    // The sealed flight that has some octets, 0 where none has.
    fn flight_of(&self, octets: &[u8], more: &FlightMore) -> u32
        ensures { result ≡ recordings.flight_of octets.now more.now self.now }
    {
        if !more.sealed {
            return 0;
        }
        let number = self.counters.flight(more.from, more.counter);
        match self.world.flight(number) {
            None => 0,
            Some(flown) => number_if(flown, octets, number),
        }
    }

    // The flight whose octets an event injects, 0 where none has them.
    fn same_flight(&self, event: &Event<'_>) -> u32
        ensures { result ≡ recordings.same_flight event.now self.now }
    {
        match event {
            Event::Inject { octets, .. } => {
                self.flight_of(octets.octets(), &more_of(octets.octets(), None))
            }
            _ => 0,
        }
    }

    // Adds the event that made the world what it is, and the flights after this many.
    #[tactic(auto, unfolding(crate::specs::Recordings::event_recorded))]
    fn record(
        &mut self,
        row: u32,
        event: &Event<'_>,
        happenings: &Happenings<'_>,
        before: u32,
    ) -> Result<(), AllocError>
        ensures { OnOk result (self.new ≡ recordings.event_recorded row event.now happenings.now before self.old) }
    {
        let same = self.same_flight(event);
        push_eui(&mut self.euis, made_eui(event))?;
        let clock = self.world.clock();
        self.run_record
            .push_event(row, event, happenings, clock, same)?;
        let count = self.world.counts().flights.saturating_sub(before);
        self.push_flights(before, count)
    }

    /// Takes an event that a line of this number asks for, or answers why the line is bad; nothing changes then.
    ///
    /// It fails only where memory runs out; what is left then is not said. What the event hands up is in `space`.
    pub fn step(
        &mut self,
        row: u32,
        event: &Event<'_>,
        space: &mut Buffers,
    ) -> Result<Option<Reason>, AllocError>
        requires { IsEvent event.now }
        ensures { IfOk result (recordings.Recorded row event.now self.old self.new (event_taking self.old.world event.now)) }
    {
        let counts = self.world.counts();
        if counts.events >= MAX_EVENTS {
            return Ok(Some(Reason::Events));
        }
        let happenings = match self.world.step(event, space) {
            Ok(happenings) => happenings,
            Err(StepFault::Memory) => return Err(AllocError),
            Err(StepFault::Setup) => return Ok(Some(Reason::Setup)),
            Err(StepFault::Node) => return Ok(Some(Reason::Node)),
            Err(StepFault::Flight) => return Ok(Some(Reason::Flight)),
        };
        self.record(row, event, &happenings, counts.flights)?;
        Ok(None)
    }
}
