//! `capture`, `keys` and `addresses`: a run for Wireshark.
ghost use Rattle.std.specs.Prelude.{◌≡◌, ◌↔◌, ◌++◌, ◌∷◌, ◌≤◌, All, IfOk, OnOk, [], length, Some, option_to_list, true};
ghost use Rattle.std.specs.Option.{option_copied};
ghost use Rattle.line_capture.specs.Captures.{IsFrame, run_of};
ghost use Rattle.line_capture.specs.Places.{AreEvents, HasAct, IsAct};
ghost use Rattle.line_record.specs.RunRecords.{numbered};
ghost use Rattle.line_record.specs.declared.recorded.RecordedEvent.{RecordedEvent};
ghost use Rattle.line_view.specs.CaptureRuns as capture_runs;

use crate::bad_line::{BadLine, bad_words};
use crate::recorder::{Recorder, is_drawn};
use crate::run_machine::{Finding, RunMachine, forged_if};
use line_capture::{DrawnKeys, Recording, addresses_text, capture_file, keys_text};
use line_events::{Answer, Event, MAX_EVENTS};
use line_record::{Act, RecordedEvent};
use line_script::{Reason, Totals};
use line_world::{Buffers, World};
use octet_log::OctetLog;
use plc_base::{Key, KeyIndex, OctetRef};
use std::alloc::{AllocError, Global};
use std::marker::Model;

// The octets of a line. A frame has fewer.
const LONGEST: usize = 2048;

/// What of a run is written.
#[derive(Clone, Copy, Debug, PartialEq, Eq)]
pub enum Wanted {
    /// The frames, as a capture.
    Frames {
        /// Whether what is heard is written too.
        heard: bool,
    },
    /// The keys that were drawn.
    Keys,
    /// The short addresses of all that sent a frame.
    Addresses,
}

fn totals_of(world: &World) -> Totals
    ensures { result ≡ capture_runs.totals_of world.now }
{
    let counts = world.counts();
    Totals {
        events: counts.events,
        flights: counts.flights,
        sends: counts.sends,
        ups: counts.ups,
        forged: counts.forged,
    }
}

// Adds octets, if they are there. Octets that are longer than a line are as if memory ran out: no run has them.
fn push_frame<'a>(list: &mut Vec<OctetRef<'a>>, octets: Option<&'a [u8]>) -> Result<(), AllocError>
    ensures octets { OnOk result (list.new.items ≡ list.old.items ++ option_to_list (option_copied octets.entry)) }
    ensures frames { OnOk result (All IsFrame list.old.items → All IsFrame list.new.items) }
{
    let Some(octets) = octets else {
        return Ok(());
    };
    if octets.len() > LONGEST {
        return Err(AllocError);
    }
    list.push(OctetRef::new(octets))?;
    Ok(())
}

// The octets of the flights, by their numbers from 1.
fn flown<'a>(alloc: Global, world: &'a World) -> Result<Vec<OctetRef<'a>>, AllocError>
    ensures octets { IfOk result (λ list. list.items ≡ capture_runs.octets_of world.now) }
    ensures frames { IfOk result (λ list. All IsFrame list.items) }
{
    let mut list = Vec::new(alloc);
    for i in 0..world.counts().flights {
        push_frame(&mut list, world.flight(i + 1))?;
    }
    Ok(list)
}

fn strings_of<'a>(alloc: Global, log: &'a OctetLog) -> Result<Vec<OctetRef<'a>>, AllocError>
    ensures octets { IfOk result (λ list. list.items ≡ log.now.strings) }
    ensures frames { IfOk result (λ list. All IsFrame list.items) }
{
    let mut list = Vec::new(alloc);
    for place in 0..log.len() {
        push_frame(&mut list, log.get(place))?;
    }
    Ok(list)
}

fn keep_octets(log: &mut OctetLog, octets: &[u8]) -> Result<(), AllocError>
    ensures { OnOk result (log.new.strings ≡ log.old.strings ++ (octets.now ∷ [])) }
{
    if log.len() >= u32::MAX as usize {
        return Err(AllocError);
    }
    log.reserve(1, octets.len())?;
    log.push(octets);
    Ok(())
}

// Keeps the octets of an event that no node sent, if it brings some.
fn keep_injected(log: &mut OctetLog, event: &Event<'_>) -> Result<(), AllocError>
    ensures { OnOk result (log.new.strings ≡ capture_runs.injected_with event.now log.old.strings) }
{
    match event {
        Event::Inject { octets, .. } => keep_octets(log, octets.octets()),
        _ => Ok(()),
    }
}

fn is_act(act: &Act) -> bool
    ensures { result ≡ true ↔ IsAct act.now }
{
    match act {
        Act::Tick { seconds } => *seconds >= 1 && *seconds <= 86_400,
        _ => true,
    }
}

fn are_acts(events: &[RecordedEvent]) -> bool
    ensures { result ≡ true ↔ All HasAct events.now }
{
    for recorded in events {
        if !is_act(&recorded.act) {
            return false;
        }
    }
    true
}

// Whether events are in the ranges of a script. Those of a run are.
fn are_events(events: &[RecordedEvent]) -> bool
    ensures { result ≡ true ↔ AreEvents events.now }
{
    events.len() <= MAX_EVENTS as usize && are_acts(events)
}

fn draw_key(keys: &mut DrawnKeys, index: KeyIndex, key: &Key) -> Result<(), AllocError>
    ensures { OnOk result (keys.new ≡ capture_runs.with_key (index ∷ key.now.0) keys.old) }
{
    keys.draw(index, key)?;
    Ok(())
}

fn draw_key_if(
    keys: &mut DrawnKeys,
    holds: bool,
    index: KeyIndex,
    key: &Key,
) -> Result<(), AllocError>
    ensures { OnOk result (keys.new ≡ capture_runs.key_if holds (index ∷ key.now.0) keys.old) }
{
    if !holds {
        return Ok(());
    }
    draw_key(keys, index, key)
}

// Keeps the key that an event draws, which was answered so.
fn keep_key(keys: &mut DrawnKeys, event: &Event<'_>, answer: Answer) -> Result<(), AllocError>
    ensures { OnOk result (keys.new ≡ capture_runs.keys_with event.now answer keys.old) }
{
    match event {
        Event::Coordinator { key, .. } => draw_key(keys, KeyIndex::first(), key),
        Event::Rekey { index, key } => draw_key_if(keys, is_drawn(answer), *index, key),
        _ => Ok(()),
    }
}

// Keeps the key that the last event of a run drew, which this is.
fn keep_drawn(keys: &mut DrawnKeys, run: &Recorder, event: &Event<'_>) -> Result<(), AllocError>
    ensures { OnOk result ((recorded : RecordedEvent) → numbered run.now.events (length run.now.events) ≡ Some recorded
        → keys.new ≡ capture_runs.keys_with event.now recorded.answer keys.old) }
{
    let Some(recorded) = run.run_record.event(run.run_record.events.len()) else {
        return Ok(());
    };
    keep_key(keys, event, recorded.answer)
}

/// The run of a script, and what of it the record does not have: the octets that no node sent, and the keys. It writes at its end what Wireshark reads
/// of the run.
#[derive(Drop)]
pub struct Capture {
    alloc: Global,
    wanted: Wanted,
    run: Recorder,
    injected: OctetLog,
    keys: DrawnKeys,
}

impl Model for Capture {
    ghost use Rattle.std.specs.Coded.{codes};
    ghost use Rattle.line_world.specs.WorldCodes.{world_code};
    ghost use Rattle.line_view.specs.CaptureRuns.{CaptureRun};

    ghost Value = { CaptureRun };

    ghost coded = { Prim.hlevel (codes, world_code) };

    ghost view = { λ c. record { wanted = c.wanted; run = c.run; injected = c.injected.strings; keys = c.keys } };
}

impl Capture {
    /// No line so far. It fails only where there is no memory for it.
    pub fn new(alloc: Global, wanted: Wanted) -> Result<Capture, AllocError>
        ensures { IfOk result (λ capture. capture ≡ capture_runs.nothing_captured wanted) }
    {
        let run = Recorder::new(alloc)?;
        Ok(Capture {
            alloc,
            wanted,
            run,
            injected: OctetLog::new(alloc),
            keys: DrawnKeys::new(alloc),
        })
    }

    // What a capture shows of the run, with the octets of its flights and those that no node sent.
    fn recording<'a>(
        &'a self,
        octets: &'a [OctetRef<'a>],
        injected: &'a [OctetRef<'a>],
    ) -> Recording<'a>
        ensures run { run_of result ≡ record { events = self.now.run.events; flights = self.now.run.flights; octets = octets.now; injected = injected.now } }
        ensures totals { result.totals ≡ capture_runs.totals_of self.now.run.world }
        ensures euis { result.euis.now ≡ self.now.run.euis }
    {
        Recording {
            totals: totals_of(&self.run.world),
            euis: self.run.euis.as_slice(),
            run_record: &self.run.run_record,
            octets,
            injected,
        }
    }

    // The capture of the run, with a remark where it is not empty.
    fn frames(&self, heard: bool, remark: &str) -> Result<Vec<u8>, AllocError>
        requires { length remark.now ≤ 2000 }
        ensures { IfOk result (λ octets. octets.items
            ≡ capture_runs.output_by (Wanted.Frames heard) self.now remark.now) }
    {
        let octets = flown(self.alloc, &self.run.world)?;
        let injected = strings_of(self.alloc, &self.injected)?;
        if !are_events(self.run.run_record.events.as_slice()) {
            return Err(AllocError);
        }
        let recording = self.recording(octets.as_slice(), injected.as_slice());
        let file = capture_file(self.alloc, heard, &recording, remark)?;
        Ok(file)
    }

    // The addresses of all that sent a frame.
    fn addresses(&self) -> Result<Vec<u8>, AllocError>
        ensures { IfOk result (λ octets. octets.items ≡ capture_runs.output_by Wanted.Addresses self.now []) }
    {
        let octets = flown(self.alloc, &self.run.world)?;
        let injected = strings_of(self.alloc, &self.injected)?;
        let recording = self.recording(octets.as_slice(), injected.as_slice());
        let text = addresses_text(self.alloc, &recording)?;
        Ok(text.into_bytes())
    }

    fn keys(&self) -> Result<Vec<u8>, AllocError>
        ensures { IfOk result (λ octets. octets.items ≡ capture_runs.output_by Wanted.Keys self.now []) }
    {
        let text = keys_text(self.alloc, &self.keys)?;
        Ok(text.into_bytes())
    }

    // What is written, with a remark where it is not empty.
    #[tactic(auto, unfolding(crate::specs::CaptureRuns::output_of))]
    fn written(&self, remark: &str) -> Result<Vec<u8>, AllocError>
        requires { length remark.now ≤ 2000 }
        ensures { IfOk result (λ octets. octets.items ≡ capture_runs.output_of self.now remark.now) }
    {
        match self.wanted {
            Wanted::Frames { heard } => self.frames(heard, remark),
            Wanted::Keys => self.keys(),
            Wanted::Addresses => self.addresses(),
        }
    }
}

impl RunMachine for Capture {
    ghost rules = { capture_runs.rules };

    // What the event adds is kept.
    fn step(
        &mut self,
        row: u32,
        event: &Event<'_>,
        space: &mut Buffers,
    ) -> Result<Option<Reason>, AllocError> {
        let refusal = self.run.step(row, event, space)?;
        if refusal.is_some() {
            return Ok(refusal);
        }
        keep_injected(&mut self.injected, event)?;
        keep_drawn(&mut self.keys, &self.run, event)?;
        Ok(None)
    }

    fn take_quiet(&mut self, _line: &[u8]) -> Result<(), AllocError> {
        Ok(())
    }

    fn output(&self, bad: Option<BadLine>) -> Result<Vec<u8>, AllocError> {
        let remark = bad_words(self.alloc, bad)?;
        self.written(remark.as_str())
    }

    // Whether the frames are written, and an event was forged.
    fn finding(&self) -> Finding {
        match self.wanted {
            Wanted::Frames { .. } => forged_if(self.run.is_forged()),
            Wanted::Keys => Finding::Nothing,
            Wanted::Addresses => Finding::Nothing,
        }
    }
}
