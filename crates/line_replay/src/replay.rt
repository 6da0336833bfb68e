//! A world that takes the lines of a script and reports what they do.
ghost use Rattle.std.specs.Prelude.{◌≡◌, ◌++◌, IfOk, OnOk, string_bytes};
ghost use Rattle.script_lines.specs.Clauses.{Turned};
ghost use Rattle.line_events.specs.Events.{IsEvent};
ghost use Rattle.line_rules.specs.Worlds.{start};
ghost use Rattle.line_script.specs.Texts.{happened_text};
ghost use Rattle.line_replay.specs.Texts.{sent_text};
ghost use Rattle.line_replay.specs.Replay.{Playing, is_forged, event_taking, turn_by, turn_of, end_of, stops_at_too_much};

use crate::report::{push_sent, refuse, totals};
use line_events::{Event, Happenings, MAX_EVENTS, StepFault};
use line_script::{LINE_OCTETS, Reading, Reason, end_text, push_happened, read_line};
use line_world::{Buffers, World};
use plc_base::Sink;
use script_lines::{LineKind, LineMachine, StopReason, write_made, write_text};
use std::alloc::{AllocError, Global};
use std::marker::Model;

/// The world that a script acts on. A contract sees it, and whether its report is quiet.
#[derive(Drop)]
struct Player {
    alloc: Global,
    quiet: bool,
    world: World,
    // Where the datagram stands that was handed up last, and what was shown last.
    buffers: Buffers,
    // The report of the event that was taken last.
    text: String,
}

impl Model for Player {
    ghost use Rattle.line_replay.specs.Codes.{playing_code};
    ghost use Rattle.line_replay.specs.Replay.{Playing};

    ghost Value = { Playing };

    ghost coded = { playing_code };

    ghost view = { λ p. record { quiet = p.quiet; world = p.world } };
}

/// Appends the lines of an event of this number that was taken.
fn push_entry(
    text: &mut String,
    alloc: Global,
    quiet: bool,
    world: &World,
    number: u32,
    event: &Event<'_>,
    happenings: &Happenings<'_>,
) -> Result<(), AllocError>
    ensures { OnOk result (string_bytes text.new
        ≡ string_bytes text.old
        ++ (happened_text number event.now happenings.now ++ sent_text quiet world.now happenings.now.first_flight)) }
{
    push_happened(text, alloc, number, event, happenings)?;
    push_sent(text, quiet, world, happenings.first_flight)
}

impl Player {
    /// Takes an event that a line can say, and reports it.
    #[tactic(auto, using(script_lines::proofs::Turned::stopped))]
    fn take_event<K: Sink>(
        &mut self,
        number: u32,
        event: &Event<'_>,
        sink: &mut K,
    ) -> Result<(), StopReason>
        requires { IsEvent event.now }
        ensures { Turned (K.state sink.old) (K.state sink.new) self.old self.new
            (turn_by self.old.quiet number (event_taking self.old.world event.now)) result }
    {
        let taken = self.world.counts().events;
        if taken >= MAX_EVENTS {
            return refuse(self.alloc, number, Reason::Events, sink);
        }
        let happenings = match self.world.step(event, &mut self.buffers) {
            Ok(happenings) => happenings,
            Err(StepFault::Memory) => return Err(StopReason::Memory),
            Err(StepFault::Setup) => return refuse(self.alloc, number, Reason::Setup, sink),
            Err(StepFault::Node) => return refuse(self.alloc, number, Reason::Node, sink),
            Err(StepFault::Flight) => return refuse(self.alloc, number, Reason::Flight, sink),
        };
        self.text.clear();
        let made = push_entry(
            &mut self.text,
            self.alloc,
            self.quiet,
            &self.world,
            taken + 1,
            event,
            &happenings,
        );
        write_made(sink, made, self.text.as_str())
    }
}

/// Takes the lines of a script and reports what they do. A contract sees the world, and whether the report is quiet.
#[derive(Drop)]
pub struct Replay {
    alloc: Global,
    player: Player,
    // Where the octets are that the line holds in hexadecimal.
    buffers: [u8; LINE_OCTETS],
}

impl Model for Replay {
    ghost use Rattle.line_replay.specs.Codes.{playing_code};
    ghost use Rattle.line_replay.specs.Replay.{Playing};

    ghost Value = { Playing };

    ghost coded = { playing_code };

    ghost view = { λ r. r.player };
}

impl Replay {
    /// The world before the first line. It fails only where there is no memory for it.
    #[inline(never)]
    pub fn new(alloc: Global, quiet: bool) -> Result<Replay, AllocError>
        ensures { IfOk result (λ replay. replay ≡ record { quiet = quiet; world = start }) }
    {
        let world = World::new(alloc)?;
        Ok(Replay {
            alloc,
            player: Player {
                alloc,
                quiet,
                world,
                buffers: Buffers::new(),
                text: String::new(alloc),
            },
            buffers: [0; LINE_OCTETS],
        })
    }

    /// Whether an event was forged.
    pub fn is_forged(&self) -> bool
        ensures { result ≡ is_forged self.now }
    {
        self.player.world.counts().forged > 0
    }
}

impl LineMachine for Replay {
    ghost turn = { turn_of };

    ghost end_text = { end_of };

    ghost stops = { stops_at_too_much };

    #[tactic(auto, unfolding(crate::specs::Replay::taking), using(script_lines::proofs::Turned::stopped))]
    fn take<K: Sink>(
        &mut self,
        number: u32,
        kind: LineKind,
        line: &[u8],
        sink: &mut K,
    ) -> Result<(), StopReason> {
        let alloc = self.alloc;
        match kind {
            LineKind::TooMuch => refuse(alloc, number, Reason::Input, sink),
            LineKind::Long => refuse(alloc, number, Reason::Long, sink),
            LineKind::Text => match read_line(line, &mut self.buffers) {
                Reading::Quiet => Ok(()),
                Reading::NoForm => refuse(alloc, number, Reason::Form, sink),
                Reading::Reads(event) => self.player.take_event(number, &event, sink),
            },
        }
    }

    fn finish<K: Sink>(&self, sink: &mut K) -> Result<(), StopReason> {
        write_text(
            sink,
            end_text(self.player.alloc, totals(&self.player.world)),
        )
    }
}
