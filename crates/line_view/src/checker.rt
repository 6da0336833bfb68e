//! What `check` keeps of a script, and what it writes of a line.
ghost use Rattle.std.specs.Prelude.{◌≡◌, ◌==◌, ◌<◌, ◌^◌, ◌++◌, ◌∷◌, [], IfOk, OnOk, codes, if◌then◌else◌, length, string_bytes};
ghost use Rattle.line_events.specs.Events.{IsEvent};
ghost use Rattle.line_script.specs.declared.word.TheConstants.{LINE_OCTETS};
ghost use Rattle.line_script.specs.LineReader.{reading};
ghost use Rattle.script_faults.specs.EventFindings.{event_finding};
ghost use Rattle.line_view.specs.Checked.{Looked, LooksLast, Stepped};
ghost use Rattle.line_view.specs.CheckRuns as spec_check_runs;
ghost use Rattle.script_runs.specs.TakenLines.{event_taking};

use line_events::{Event, MAX_EVENTS, StepFault};
use line_record::{RecordedEvent, act_of, is_setup, recorded_event};
use line_script::{Reading, Reason, read_line};
use line_world::{Buffers, World};
use plc_base::Eui;
use script_faults::{
    BadEvent, Finding, FirstOther, Made, line_finding, push_finding, push_object, push_unseen,
    word_of_reason,
};
use sentence_parts::{count_of, number, push_parts, words};
use std::alloc::{AllocError, Global};
use std::marker::Model;

// The most faults that the form for people has.
const MOST_TOLD: u32 = 20;

/// Where a check stands. A contract sees all but the buffers.
#[derive(Drop)]
pub struct Checker {
    alloc: Global,
    // Whether faults are written as objects of JSON.
    json: bool,
    // The world up to the first bad line, its nodes and its events.
    world: World,
    made: Vec<Made>,
    events: Vec<RecordedEvent>,
    other: FirstOther,
    // The lines so far, and those that are bad.
    rows: u32,
    bad: u32,
    // The first bad line, 0 if there is none, and why it is bad.
    first: u32,
    reason: Reason,
    // What the last event handed up.
    space: Buffers,
}

impl Model for Checker {
    ghost use Rattle.std.specs.Coded.{codes};
    ghost use Rattle.line_world.specs.WorldCodes.{world_code};
    ghost use Rattle.line_view.specs.CheckRuns.{CheckRun};

    ghost Value = { CheckRun };

    ghost coded = { Prim.hlevel (codes, world_code) };

    ghost view = { λ c. record {
      json = c.json;
      world = c.world;
      made = c.made.items;
      events = c.events.items;
      other = c.other;
      rows = c.rows;
      bad = c.bad;
      first = c.first;
      reason = c.reason;
    } };
}

fn has_no_octets(reason: Reason) -> bool
    ensures { result ≡ spec_check_runs.has_no_octets reason }
{
    match reason {
        Reason::Long => true,
        Reason::Input => true,
        _ => false,
    }
}

#[tactic(auto, unfolding(crate::specs::CheckRuns::long_finding))]
fn long_finding(alloc: Global) -> Result<Finding, AllocError>
    ensures { IfOk result (λ f. f ≡ spec_check_runs.long_finding) }
{
    let found = Finding::new(
        alloc,
        4096,
        4097,
        &[words("the line has more than 4,096 octets")],
        &[words("from here on")],
    )?;
    found.with(
        alloc,
        &[words("a datagram has at most 1,280 octets, 2,560 digits")],
    )
}

#[tactic(auto, unfolding(crate::specs::CheckRuns::input_finding))]
fn input_finding(alloc: Global) -> Result<Finding, AllocError>
    ensures { IfOk result (λ f. f ≡ spec_check_runs.input_finding) }
{
    let found = Finding::new(
        alloc,
        0,
        1,
        &[words("the script has more than 67,108,864 octets")],
        &[words("octet 67,108,865 stands in this line")],
    )?;
    found.with(alloc, &[words("cut the script in two")])
}

fn push_people(
    text: &mut String,
    alloc: Global,
    reason: Reason,
    row: u32,
    line: &[u8],
    found: &Finding,
) -> Result<(), AllocError>
    ensures { OnOk result (string_bytes text.new ≡ string_bytes text.old ++ spec_check_runs.people_text reason row line.now found.now) }
{
    let word = word_of_reason(reason);
    if has_no_octets(reason) {
        return push_unseen(text, alloc, word, row, found);
    }
    push_finding(text, alloc, word, row, line, found)
}

// Appends what is written of a bad line after this many others.
#[tactic(auto, unfolding(crate::specs::CheckRuns::bad_text))]
fn push_bad(
    text: &mut String,
    alloc: Global,
    json: bool,
    before: u32,
    row: u32,
    line: &[u8],
    reason: Reason,
    found: &Finding,
) -> Result<(), AllocError>
    ensures { OnOk result
        (string_bytes text.new ≡ string_bytes text.old ++ spec_check_runs.bad_text json before row line.now reason found.now) }
{
    if json {
        return push_object(text, alloc, word_of_reason(reason), row, found);
    }
    if before < MOST_TOLD {
        return push_people(text, alloc, reason, row, line, found);
    }
    Ok(())
}

fn push_made(made: &mut Vec<Made>, eui: Eui, row: u32) -> Result<(), AllocError>
    ensures { OnOk result (made.new.items ≡ made.old.items ++ (record { eui = eui; row = row }) ∷ []) }
{
    made.push(Made { eui, row })?;
    Ok(())
}

// Keeps a node that an event makes.
fn keep_made(made: &mut Vec<Made>, event: &Event<'_>, row: u32) -> Result<(), AllocError>
    ensures { OnOk result (made.new.items ≡ spec_check_runs.made_after event.now row made.old.items) }
{
    match event {
        Event::Coordinator { eui, .. } => push_made(made, *eui, row),
        Event::Meter { eui, .. } => push_made(made, *eui, row),
        _ => Ok(()),
    }
}

// Keeps the first event that is not part of the setup.
fn keep_other(
    other: &mut FirstOther,
    event: &Event<'_>,
    row: u32,
    line: &[u8],
) -> Result<(), AllocError>
    ensures { OnOk result (other.new ≡ spec_check_runs.other_after event.now row line.now other.old) }
{
    if 0 < other.row() {
        return Ok(());
    }
    if is_setup(&act_of(event)) {
        return Ok(());
    }
    other.keep(row, &line[..line.len().min(60)])
}

#[tactic(auto, unfolding(crate::specs::CheckRuns::more_text))]
fn push_more(text: &mut String, alloc: Global, more: u32) -> Result<(), AllocError>
    ensures { OnOk result (string_bytes text.new ≡ string_bytes text.old ++ spec_check_runs.more_text more) }
{
    if more == 0 {
        return Ok(());
    }
    let what = more_words(more);
    push_parts(
        text,
        alloc,
        &[words("; "), number(more as usize), words(what)],
    )
}

fn more_words(more: u32) -> &'static str
    ensures { result.now ≡ (if more == 1 then codes " more line has no reading" else codes " more lines have no reading") }
{
    if more == 1 {
        return " more line has no reading";
    }
    " more lines have no reading"
}

#[tactic(auto, unfolding(crate::specs::CheckRuns::shown_text))]
fn push_shown(text: &mut String, bad: u32) -> Result<(), AllocError>
    ensures { OnOk result (string_bytes text.new ≡ string_bytes text.old ++ spec_check_runs.shown_text bad) }
{
    if MOST_TOLD < bad {
        return text.push_str("(the first 20 are shown)\n");
    }
    Ok(())
}

#[tactic(auto, unfolding(crate::specs::CheckRuns::first_text))]
fn push_first(
    text: &mut String,
    alloc: Global,
    first: u32,
    reason: Reason,
) -> Result<(), AllocError>
    ensures { OnOk result (string_bytes text.new ≡ string_bytes text.old ++ spec_check_runs.first_text first reason) }
{
    let word = word_of_reason(reason);
    push_parts(
        text,
        alloc,
        &[
            words("script: line "),
            number(first as usize),
            words(" ends the run with reason `"),
            words(word),
            words("`"),
        ],
    )
}

impl Checker {
    /// No line so far. It fails only where there is no memory for it.
    pub fn new(alloc: Global, json: bool) -> Result<Checker, AllocError>
        ensures { IfOk result (λ checker. checker ≡ spec_check_runs.checking json) }
    {
        let world = World::new(alloc)?;
        Ok(Checker {
            alloc,
            json,
            world,
            made: Vec::new(alloc),
            events: Vec::new(alloc),
            other: FirstOther::new(alloc),
            rows: 0,
            bad: 0,
            first: 0,
            reason: Reason::Form,
            space: Buffers::new(),
        })
    }

    /// Whether a line is bad.
    pub fn is_bad(&self) -> bool
        ensures { result ≡ spec_check_runs.is_bad self.now }
    {
        0 < self.bad
    }

    // Counts a line that is bad.
    fn count_bad(&mut self, row: u32, reason: Reason)
        ensures { self.new ≡ spec_check_runs.bad_after row reason self.old }
    {
        if self.bad == 0 {
            self.first = row;
            self.reason = reason;
        }
        self.rows = row;
        self.bad = self.bad.saturating_add(1);
    }

    // Appends what is wrong with a line.
    fn write_finding(
        &mut self,
        text: &mut String,
        row: u32,
        line: &[u8],
        reason: Reason,
        found: &Finding,
    ) -> Result<(), AllocError>
        ensures checking { OnOk result (self.new ≡ spec_check_runs.bad_after row reason self.old) }
        ensures text { OnOk result
            (string_bytes text.new
            ≡ string_bytes text.old ++ spec_check_runs.bad_text self.old.json self.old.bad row line.now reason found.now) }
    {
        push_bad(
            text, self.alloc, self.json, self.bad, row, line, reason, found,
        )?;
        self.count_bad(row, reason);
        Ok(())
    }

    // Counts a line with nothing wrong.
    fn see(&mut self, row: u32)
        ensures { self.new ≡ spec_check_runs.seen row self.old }
    {
        self.rows = row;
    }

    // Keeps an event that was taken.
    fn keep(
        &mut self,
        row: u32,
        line: &[u8],
        event: &Event<'_>,
        recorded: RecordedEvent,
    ) -> Result<(), AllocError>
        ensures { OnOk result (self.new ≡ spec_check_runs.kept row line.now event.now recorded self.old) }
    {
        keep_made(&mut self.made, event, row)?;
        keep_other(&mut self.other, event, row, line)?;
        self.events.push(recorded)?;
        self.rows = row;
        Ok(())
    }

    // Takes the event of a line, or answers why it is not taken.
    fn step(
        &mut self,
        row: u32,
        line: &[u8],
        event: &Event<'_>,
    ) -> Result<Option<Reason>, AllocError>
        requires { IsEvent event.now }
        ensures { IfOk result (Stepped self.old self.new row line.now (event_taking self.old.world event.now)) }
    {
        if self.world.counts().events >= MAX_EVENTS {
            return Ok(Some(Reason::Events));
        }
        let happenings = match self.world.step(event, &mut self.space) {
            Ok(happenings) => happenings,
            Err(StepFault::Memory) => return Err(AllocError),
            Err(StepFault::Setup) => return Ok(Some(Reason::Setup)),
            Err(StepFault::Node) => return Ok(Some(Reason::Node)),
            Err(StepFault::Flight) => return Ok(Some(Reason::Flight)),
        };
        let recorded = recorded_event(row, event, &happenings, self.world.clock(), 0);
        self.keep(row, line, event, recorded)?;
        Ok(None)
    }

    // The node that sent the last flight.
    fn last_sender(&self) -> u16
        ensures { result ≡ spec_check_runs.last_sender self.now.world }
    {
        let last = self.world.counts().flights;
        self.world.flight_sender(last).unwrap_or(0)
    }

    // What is wrong with a line whose event is not taken.
    fn event_finding(
        &self,
        line: &[u8],
        event: &Event<'_>,
        reason: Reason,
    ) -> Result<Finding, AllocError>
        ensures { IfOk result (λ f. f ≡ event_finding reason (spec_check_runs.bad_event self.now line.now event.now)) }
    {
        let bad = BadEvent {
            line,
            event,
            made: self.made.as_slice(),
            events: self.events.as_slice(),
            flights: self.world.counts().flights,
            sender: self.last_sender(),
            other_row: self.other.row(),
            other_text: self.other.text(),
        };
        bad.finding(self.alloc, reason)
    }

    // A line that is an event.
    fn look_at_event(
        &mut self,
        text: &mut String,
        row: u32,
        line: &[u8],
        event: &Event<'_>,
    ) -> Result<(), AllocError>
        requires { IsEvent event.now }
        ensures { OnOk result (Looked (string_bytes text.old) (string_bytes text.new) self.old self.new row line.now
            (spec_check_runs.event_look self.old line.now event.now (event_taking self.old.world event.now))) }
    {
        let Some(reason) = self.step(row, line, event)? else {
            return Ok(());
        };
        let found = self.event_finding(line, event, reason)?;
        self.write_finding(text, row, line, reason, &found)
    }

    // A line by its words alone.
    fn look_at_form(
        &mut self,
        octets: &mut [u8],
        text: &mut String,
        row: u32,
        line: &[u8],
    ) -> Result<(), AllocError>
        requires octets { length octets.old ≡ LINE_OCTETS }
        requires place { length line.now < 2 ^ 63 }
        ensures { OnOk result (Looked (string_bytes text.old) (string_bytes text.new) self.old self.new row line.now
            (spec_check_runs.form_look line.now)) }
    {
        match line_finding(self.alloc, line, octets)? {
            None => {
                self.see(row);
                Ok(())
            }
            Some(found) => self.write_finding(text, row, line, Reason::Form, &found),
        }
    }

    // A line after which none was bad.
    fn read(
        &mut self,
        octets: &mut [u8],
        text: &mut String,
        row: u32,
        line: &[u8],
    ) -> Result<(), AllocError>
        requires octets { length octets.old ≡ LINE_OCTETS }
        requires place { length line.now < 2 ^ 63 }
        ensures { OnOk result (Looked (string_bytes text.old) (string_bytes text.new) self.old self.new row line.now
            (spec_check_runs.reading_look self.old line.now (reading line.now))) }
    {
        match read_line(line, octets) {
            Reading::Quiet => {
                self.see(row);
                Ok(())
            }
            Reading::NoForm => self.look_at_form(octets, text, row, line),
            Reading::Reads(event) => self.look_at_event(text, row, line, &event),
        }
    }

    /// Looks at a line of this number, and appends what is written of it. It fails only where memory runs out; the checker is not used again
    /// then.
    ///
    /// `octets` is written to in passing.
    pub fn look(
        &mut self,
        octets: &mut [u8],
        text: &mut String,
        row: u32,
        line: &[u8],
    ) -> Result<(), AllocError>
        requires octets { length octets.old ≡ LINE_OCTETS }
        requires place { length line.now < 2 ^ 63 }
        ensures { OnOk result (Looked (string_bytes text.old) (string_bytes text.new) self.old self.new row line.now
            (spec_check_runs.text_look self.old line.now)) }
    {
        if 0 < self.bad {
            return self.look_at_form(octets, text, row, line);
        }
        self.read(octets, text, row, line)
    }

    /// The same for a line with too many octets.
    pub fn look_at_long(&mut self, text: &mut String, row: u32) -> Result<(), AllocError>
        ensures { OnOk result (Looked (string_bytes text.old) (string_bytes text.new) self.old self.new row []
            (spec_check_runs.Tells Reason.Long spec_check_runs.long_finding)) }
    {
        let found = long_finding(self.alloc)?;
        self.write_finding(text, row, &[], Reason::Long, &found)
    }

    /// The same for the octet that is too much, with the last lines.
    pub fn look_at_too_much(&mut self, text: &mut String, row: u32) -> Result<(), AllocError>
        ensures { OnOk result (LooksLast (string_bytes text.old) (string_bytes text.new) self.old row
            (spec_check_runs.Tells Reason.Input spec_check_runs.input_finding)) }
    {
        let found = input_finding(self.alloc)?;
        self.write_finding(text, row, &[], Reason::Input, &found)?;
        self.push_end(text)
    }

    #[tactic(auto, unfolding(crate::specs::CheckRuns::bad_end))]
    fn push_bad_end(&self, text: &mut String) -> Result<(), AllocError>
        ensures { OnOk result (string_bytes text.new ≡ string_bytes text.old ++ spec_check_runs.bad_end self.now) }
    {
        push_first(text, self.alloc, self.first, self.reason)?;
        push_more(text, self.alloc, self.bad.saturating_sub(1))?;
        text.push_str("\n")?;
        push_shown(text, self.bad)
    }

    #[tactic(auto, unfolding(crate::specs::CheckRuns::fine_end))]
    fn push_fine_end(&self, text: &mut String) -> Result<(), AllocError>
        ensures { OnOk result (string_bytes text.new ≡ string_bytes text.old ++ spec_check_runs.fine_end self.now) }
    {
        let rows = self.rows as usize;
        let events = self.events.len();
        push_parts(
            text,
            self.alloc,
            &[
                words("script: "),
                count_of(rows, "line"),
                words(", "),
                count_of(events, "event"),
                words(", no bad line\n"),
            ],
        )
    }

    /// Appends the last lines: which line ends the run, or that none does.
    pub fn push_end(&self, text: &mut String) -> Result<(), AllocError>
        ensures { OnOk result (string_bytes text.new ≡ string_bytes text.old ++ spec_check_runs.end_of self.now) }
    {
        if self.json {
            return Ok(());
        }
        if 0 < self.bad {
            return self.push_bad_end(text);
        }
        self.push_fine_end(text)
    }
}
