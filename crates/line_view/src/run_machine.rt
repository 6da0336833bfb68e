//! A machine that records the run of a script, and writes where the run ends.
ghost use Rattle.std.specs.Prelude.{◌≡◌, IfOk, OnOk, List, ℕ, []};
ghost use Rattle.line_events.specs.Events.{IsEvent};
ghost use Rattle.script_lines.specs.Clauses.{GoesOn, StopsWith, Turned};
ghost use Rattle.script_lines.specs.Lines.{Content, Text};
ghost use Rattle.script_runs.specs.TakenLines.{Skipped, event_taking};
ghost use Rattle.line_view.specs.RunMachines.{RunRules, Stepped, end_of, forged_if, found_status, refused_text, stops_at_too_much, turn_by, turn_of};

use crate::bad_line::{BadLine, bad_line};
use crate::octet_output::write_octets;
use line_events::Event;
use line_script::{LINE_OCTETS, Reading, Reason, read_line};
use line_world::Buffers;
use plc_base::Sink;
use script_lines::{LineKind, LineMachine, StopReason};
use script_runs::Status;
use std::alloc::AllocError;
use std::marker::Model;

/// What the status says of a run that came to its end.
#[derive(Clone, Copy, Debug, PartialEq, Eq)]
pub enum Finding {
    /// Nothing more.
    Nothing,
    /// An event was forged, and what is written shows it.
    Forged,
    /// The run does not have what was asked for, and what is written says so.
    NotThere,
}

/// That an event was forged, if one was.
pub fn forged_if(forged: bool) -> Finding
    ensures { result ≡ forged_if forged }
{
    if forged {
        return Finding::Forged;
    }
    Finding::Nothing
}

/// The status of a run that came to its end.
pub fn found_status(finding: Finding) -> Status
    ensures { result ≡ found_status finding }
{
    match finding {
        Finding::Nothing => Status::Fine,
        Finding::Forged => Status::Forged,
        Finding::NotThere => Status::Usage,
    }
}

/// What differs between the commands that record a run, and write where it ends.
pub trait RunMachine: Drop {
    /// What it makes of a script.
    ghost rules: { RunRules Self };

    /// Takes an event that a line of this number asks for, and keeps what it adds, or answers why the line is bad; nothing changes then.
    ///
    /// It fails only where memory runs out; what is left then is not said. What the event hands up is in `space`.
    fn step(
        &mut self,
        row: u32,
        event: &Event<'_>,
        space: &mut Buffers,
    ) -> Result<Option<Reason>, AllocError>
        requires { IsEvent event.now }
        ensures { IfOk result (Stepped rules row self.old self.new (event_taking (rules.world self.old) event.now)) };

    /// Takes a line that has no event. It fails only where memory runs out.
    fn take_quiet(&mut self, line: &[u8]) -> Result<(), AllocError>
        ensures { OnOk result (GoesOn [] self.old self.new (rules.quiet_turn self.old (Text line.now))) };

    /// What is written where the run ends, with the bad line, if there is one. It fails only where memory runs out.
    fn output(&self, bad: Option<BadLine>) -> Result<Vec<u8>, AllocError>
        ensures { IfOk result (λ octets. octets.items ≡ rules.text self.now bad) };

    /// What the status says of the run, where it came to its end.
    fn finding(&self) -> Finding
        ensures { result ≡ rules.finding self.now };
}

/// What is written where the run came to its end: a text of which a property is known, and not each octet.
pub trait LastText: Drop {
    /// What is known of it.
    ghost says: { Self → List ℕ → Type 0 };

    /// The text. It fails only where memory runs out.
    fn last_text(&self) -> Result<Vec<u8>, AllocError>
        ensures { IfOk result (λ octets. says self.now octets.items) };
}

/// Gives the lines of a script to a machine. A contract sees the machine.
#[derive(Drop)]
pub struct Lines<M> {
    machine: M,
    // What the last event handed up.
    space: Buffers,
    // Where the octets are that a line holds in hexadecimal.
    octets: [u8; LINE_OCTETS],
}

impl<M> Model for Lines<M> {
    ghost Value = { M };

    ghost view = { λ l. l.machine };
}

impl<M: RunMachine> Lines<M> {
    /// No line so far.
    pub fn new(machine: M) -> Lines<M>
        ensures { result ≡ machine }
    {
        Lines {
            machine,
            space: Buffers::new(),
            octets: [0; LINE_OCTETS],
        }
    }

    /// What the status says of the run, where it came to its end.
    pub fn finding(&self) -> Finding
        ensures { result ≡ M.rules.finding self.now }
    {
        self.machine.finding()
    }
}

impl<M: LastText> Lines<M> {
    /// What is written where the run came to its end. It fails only where memory runs out.
    pub fn last_text(&self) -> Result<Vec<u8>, AllocError>
        ensures { IfOk result (λ octets. M.says self.now octets.items) }
    {
        self.machine.last_text()
    }
}

// Writes what there is, with the bad line at which the run ends.
fn refuse<M: RunMachine, K: Sink>(
    machine: &M,
    row: u32,
    reason: Reason,
    sink: &mut K,
) -> Result<(), StopReason>
    ensures { StopsWith (K.state sink.old) (K.state sink.new) (refused_text M.rules machine.now row reason) result }
{
    bad_line(write_octets(sink, machine.output(Some(BadLine { row, reason }))))
}

// The turn of a line of this number that asks for an event.
fn take_event<M: RunMachine, K: Sink>(
    machine: &mut M,
    space: &mut Buffers,
    row: u32,
    event: &Event<'_>,
    sink: &mut K,
) -> Result<(), StopReason>
    requires { IsEvent event.now }
    ensures { (content : Content) → Turned (K.state sink.old) (K.state sink.new) machine.old machine.new
        (turn_by M.rules machine.old row content (event_taking (M.rules.world machine.old) event.now)) result }
{
    let Ok(refusal) = machine.step(row, event, space) else {
        return Err(StopReason::Memory);
    };
    let Some(reason) = refusal else {
        return Ok(());
    };
    refuse(machine, row, reason, sink)
}

// The turn of a line that asks for none.
fn take_quiet<M: RunMachine, K: Sink>(
    machine: &mut M,
    line: &[u8],
    sink: &mut K,
) -> Result<(), StopReason>
    ensures { (row : ℕ) → Turned (K.state sink.old) (K.state sink.new) machine.old machine.new
        (turn_by M.rules machine.old row (Text line.now) Skipped) result }
{
    let Ok(()) = machine.take_quiet(line) else {
        return Err(StopReason::Memory);
    };
    Ok(())
}

impl<M: RunMachine> LineMachine for Lines<M> {
    ghost turn = { turn_of M.rules };

    ghost end_text = { end_of M.rules };

    ghost stops = { stops_at_too_much M.rules };

    #[tactic(auto, unfolding(script_runs::specs::TakenLines::taking), using(script_lines::proofs::Turned::stopped))]
    fn take<K: Sink>(
        &mut self,
        number: u32,
        kind: LineKind,
        line: &[u8],
        sink: &mut K,
    ) -> Result<(), StopReason> {
        match kind {
            LineKind::TooMuch => refuse(&self.machine, number, Reason::Input, sink),
            LineKind::Long => refuse(&self.machine, number, Reason::Long, sink),
            LineKind::Text => match read_line(line, &mut self.octets) {
                Reading::Quiet => take_quiet(&mut self.machine, line, sink),
                Reading::NoForm => refuse(&self.machine, number, Reason::Form, sink),
                Reading::Reads(event) => take_event(
                    &mut self.machine,
                    &mut self.space,
                    number,
                    &event,
                    sink,
                ),
            },
        }
    }

    fn finish<K: Sink>(&self, sink: &mut K) -> Result<(), StopReason> {
        write_octets(sink, self.machine.output(None))
    }
}
