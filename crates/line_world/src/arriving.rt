//! Octets that come to a node, and flights that are lost.
ghost use Rattle.std.specs.Prelude.{◌≡◌, ◌<◌, ◌≤◌, ◌||◌, true, false, length, is_some, slice_get, Ok, IfSome, IfOk};
ghost use Rattle.std.specs.List.{list_any};
ghost use Rattle.node_rules.specs.Ciphers.{network};
ghost use Rattle.plc_base.specs.Fields.{AreOctets};
ghost use Rattle.line_events.specs.declared.event.Event.TheVariants as events;
ghost use Rattle.line_events.specs.declared.event.TheConstants.{MAX_EVENTS};
ghost use Rattle.line_rules.specs.Answers as words;
ghost use Rattle.line_rules.specs.Steps as rules;
ghost use Rattle.line_rules.specs.Further as further;
ghost use Rattle.line_rules.specs.Logs.{LogsKept};
ghost use Rattle.line_rules.specs.Worlds.{is_forged_tag};
ghost use Rattle.line_world.specs.Receptions.{MayHear};
ghost use Rattle.line_world.specs.Arrivals.{outcome_of_arrival, done_in, forged_in, handed_in, outcome_of_hearing, in_run, left_of, note_in};
ghost use Rattle.line_world.specs.Arrivals.{reception_happenings, taker_in, BringsOctets};
ghost use Rattle.line_world.specs.Bounds.{IsBounded};
ghost use Rattle.line_world.specs.Lines.{HasRoom, world_of};
ghost use Rattle.line_world.specs.Steps.{Steps};
ghost use Rattle.plc_base.specs.declared.limits.TheConstants.{MOST_FRAMES};

use crate::discovery::is_discovery;
use crate::line::Line;
use crate::nodes::{HandedUp, Reception};
use crate::world::Buffers;
use line_events::{Answer, Handed, Happenings, StepFault};
use line_flights::{Flights, Origin};
use node_rules::{FrameRefusal, Path};
use pan_discovery::read_discovery;
use plc_base::{DatagramBuf, Eui, LinkCost, OctetRef};
use plc_station::Accepted;

fn frame_word(reason: FrameRefusal) -> Answer
    ensures { result ≡ words.frame_word reason }
{
    match reason {
        FrameRefusal::Halted => Answer::Halted,
        FrameRefusal::Malformed => Answer::Malformed,
        FrameRefusal::NotForMe => Answer::NotForMe,
        FrameRefusal::NoKey => Answer::NoKey,
        FrameRefusal::BadTag => Answer::BadTag,
        FrameRefusal::Replayed => Answer::Replayed,
        FrameRefusal::PeersFull => Answer::PeersFull,
        FrameRefusal::Store => Answer::Store,
    }
}

// Where octets come from that a node accepted: only a sealed frame can be forged, and only it carries a datagram.
fn origin_by(flights: &Flights, octets: &[u8], path: &Path) -> Origin
    ensures forged { result.is_forged ≡ forged_in flights.now.flights octets.now path.now }
    ensures note { result.note ≡ note_in flights.now.flights octets.now path.now }
{
    match path {
        Path::Sealed { key, .. } => flights.origin(octets, key),
        Path::Up { .. } | Path::Down { .. } => Origin {
            is_forged: false,
            note: 0,
        },
    }
}

// Where the octets come from that a node looked at: not forged, and with note 0, where it refused them.
fn origin(flights: &Flights, octets: &[u8], accepted: &Result<Accepted<'_>, FrameRefusal>) -> Origin
    ensures forged { IfOk accepted.now (λ got. result.is_forged ≡ forged_in flights.now.flights octets.now got.path) }
    ensures note { IfOk accepted.now (λ got. result.note ≡ note_in flights.now.flights octets.now got.path) }
{
    match accepted {
        Ok(got) => origin_by(flights, octets, &got.path()),
        Err(_) => Origin {
            is_forged: false,
            note: 0,
        },
    }
}

// Octets are octets.
fn are_octets(octets: &[u8])
    ensures { AreOctets octets.now }
{}

// What an accepted frame carries is octets, as its type says.
fn payload_octets(accepted: &Result<Accepted<'_>, FrameRefusal>)
    ensures { IfOk accepted.now (λ got. AreOctets got.payload) }
{
    let Ok(got) = accepted else {
        return;
    };
    are_octets(got.payload());
}

// A datagram that was handed up, for the report.
fn handed<'a>(node: usize, up: &Option<HandedUp<'a>>) -> Option<Handed<'a>>
    requires node { node < 1000 }
    ensures { result ≡ handed_in node up.now }
{
    match up {
        Some(up) => Some(Handed {
            node: node as u16,
            note: up.note,
            octets: OctetRef::new(up.octets.octets()),
        }),
        None => None,
    }
}

// The node, where it took a grant.
fn taker(node: usize, took: bool) -> Option<u16>
    requires node { node < 1000 }
    ensures { result ≡ taker_in node took }
{
    if took {
        return Some(node as u16);
    }
    None
}

impl Line {
    // The number of the meter whose joining is done.
    fn number_done(&self, done: Option<Eui>) -> Option<u16>
        requires nodes { length self.now.nodes ≤ 1000 }
        ensures { result ≡ done_in (world_of self.now) done }
    {
        let eui = done?;
        let number = self.nodes.number_of_eui(eui).unwrap_or(0);
        Some(number as u16)
    }

    // Whether the octets are forged, or a tag that the node found right was made by nobody.
    pub(crate) fn is_forged(&self, origin: Origin) -> bool
        ensures { result ≡ (origin.is_forged || list_any (is_forged_tag self.now.made.tags) self.now.out.tags.opened) }
    {
        if origin.is_forged {
            return true;
        }
        self.made.has_forged(self.out.tags.opened.tags())
    }

    // Counts what came of a frame.
    fn count(&mut self, reported: &Reception<'_>, forged: bool)
        requires ups { self.old.ups < MAX_EVENTS }
        requires forged { self.old.forged < MAX_EVENTS }
        requires done { self.old.done < MAX_EVENTS }
        ensures { self.new ≡ record self.old {
          ups = rules.number_if (is_some reported.now.up) self.old.ups;
          forged = rules.number_if forged self.old.forged;
          done = rules.number_if (is_some reported.now.done) self.old.done;
        } }
    {
        self.ups += u32::from(reported.up.is_some());
        self.forged += u32::from(forged);
        self.done += u32::from(reported.done.is_some());
    }

    // What a frame led to, for the world and for the report.
    pub(crate) fn received<'a>(
        &mut self,
        node: usize,
        forged: bool,
        reported: &Reception<'a>,
    ) -> Happenings<'a>
        requires room { HasRoom self.old }
        requires node { node < 1000 }
        requires bounds { IsBounded (in_run (world_of self.old)) }
        requires events { self.old.events < MAX_EVENTS }
        ensures world { world_of self.new ≡ left_of (world_of self.old) node self.old.out forged reported.now }
        ensures reported { result ≡ reception_happenings (world_of self.old) node self.old.out forged reported.now }
        ensures frames { length self.old.out.frames ≤ MOST_FRAMES }
        ensures tags { length self.old.out.tags.made ≤ 2 }
    {
        let done = self.number_done(reported.done);
        let happenings = self.node_outcome(node, reported.answer);
        self.count(reported, forged);
        // Written out, since `..happenings` would copy it for each frame that comes.
        Happenings {
            answer: reported.answer,
            forged,
            up: handed(node, &reported.up),
            bup: None,
            agent: None,
            path: None,
            grant: None,
            took: taker(node, reported.took),
            done,
            shown: None,
            first_flight: happenings.first_flight,
            flights: happenings.flights,
        }
    }

    /// A node hears a frame that it accepted, under the note with which its octets were sent.
    pub(crate) fn heard<'a>(
        &mut self,
        node: usize,
        got: Accepted<'a>,
        origin: Origin,
        cost: LinkCost,
        datagram: &'a mut DatagramBuf,
    ) -> Happenings<'a>
        requires room { HasRoom self.old }
        requires there { node < length self.old.nodes }
        requires accepted { IfSome (slice_get self.old.nodes node) (λ x. MayHear x got) }
        requires bounds { IsBounded (in_run (world_of self.old)) }
        requires events { self.old.events < MAX_EVENTS }
        ensures { IfSome (slice_get self.old.nodes node) (λ x. Steps true (world_of self.old) (Ok result)
            (world_of self.new) (Ok (outcome_of_hearing network (world_of self.old) node x got.entry origin cost))) }
    {
        let reported = self.nodes.hear(
            node,
            got,
            cost,
            origin.note,
            self.clock,
            datagram,
            &mut self.out,
        );
        let forged = self.is_forged(origin);
        self.received(node, forged, &reported)
    }

    // What becomes of octets that a node looked at: a refused frame leads to nothing.
    fn arrived<'a>(
        &mut self,
        node: usize,
        accepted: Result<Accepted<'a>, FrameRefusal>,
        origin: Origin,
        cost: LinkCost,
        datagram: &'a mut DatagramBuf,
    ) -> Happenings<'a>
        requires room { HasRoom self.old }
        requires there { node < length self.old.nodes }
        requires accepted { IfOk accepted (λ got. IfSome (slice_get self.old.nodes node) (λ x. MayHear x got)) }
        requires beside { length self.old.beside.items ≡ length self.old.nodes }
        requires logs { LogsKept (world_of self.old) }
        requires bounds { IsBounded (in_run (world_of self.old)) }
        requires events { self.old.events < MAX_EVENTS }
        ensures { IfSome (slice_get self.old.nodes node) (λ x. Steps true (world_of self.old) (Ok result)
            (world_of self.new) (Ok (outcome_of_arrival network (world_of self.old) node x accepted.entry origin cost))) }
    {
        match accepted {
            Ok(got) => self.heard_further(node, got, origin, cost, datagram),
            Err(reason) => self.answered(frame_word(reason)),
        }
    }

    /// A flight comes to a node over a link of this cost.
    pub(crate) fn deliver<'a>(
        &mut self,
        flight: u32,
        node: u32,
        cost: LinkCost,
        buffers: &'a mut Buffers,
    ) -> Result<Happenings<'a>, StepFault>
        requires bounds { IsBounded (world_of self.old) }
        requires beside { length self.old.beside.items ≡ length self.old.nodes }
        requires logs { LogsKept (world_of self.old) }
        requires events { self.old.events < MAX_EVENTS }
        ensures steps { Steps true (world_of self.old) result (world_of self.new)
            (further.delivers network (world_of self.old) flight node cost) }
        ensures octets { IfOk result (λ _. BringsOctets (world_of self.old) (events.Deliver flight node cost)) }
    {
        let number = self.node(node)?;
        if self.flights.flying(flight).is_none() {
            return Err(StepFault::Flight);
        }
        // What is reserved moves the octets.
        self.reserve()?;
        let Some(octets) = self.flights.flying(flight) else {
            return Err(StepFault::Flight);
        };
        if is_discovery(octets) {
            let frame = read_discovery(octets);
            return Ok(self.discovered(number, frame, cost));
        }
        self.nodes.short_tables();
        let accepted = self.nodes.accept(number, octets, &mut buffers.payload);
        payload_octets(&accepted);
        let origin = origin(&self.flights, octets, &accepted);
        Ok(self.arrived(number, accepted, origin, cost, &mut buffers.datagram))
    }

    /// Octets of the script come to a node over a link of this cost.
    pub(crate) fn inject<'a>(
        &mut self,
        node: u32,
        cost: LinkCost,
        octets: &[u8],
        buffers: &'a mut Buffers,
    ) -> Result<Happenings<'a>, StepFault>
        requires bounds { IsBounded (world_of self.old) }
        requires beside { length self.old.beside.items ≡ length self.old.nodes }
        requires logs { LogsKept (world_of self.old) }
        requires events { self.old.events < MAX_EVENTS }
        ensures steps { Steps true (world_of self.old) result (world_of self.new)
            (further.injects network (world_of self.old) node cost octets.now) }
        ensures octets { IfOk result (λ _. BringsOctets (world_of self.old) (events.Inject node cost octets.now)) }
    {
        let number = self.node(node)?;
        self.reserve()?;
        if is_discovery(octets) {
            let frame = read_discovery(octets);
            return Ok(self.discovered(number, frame, cost));
        }
        self.nodes.short_tables();
        let accepted = self.nodes.accept(number, octets, &mut buffers.payload);
        payload_octets(&accepted);
        let origin = origin(&self.flights, octets, &accepted);
        Ok(self.arrived(number, accepted, origin, cost, &mut buffers.datagram))
    }

    /// A flight is lost.
    pub(crate) fn lose(&mut self, flight: u32) -> Result<Happenings<'static>, StepFault>
        requires bounds { IsBounded (world_of self.old) }
        requires events { self.old.events < MAX_EVENTS }
        ensures { Steps false (world_of self.old) result (world_of self.new)
            (rules.lose (world_of self.old) flight) }
    {
        if !self.has_begun() {
            return Err(StepFault::Setup);
        }
        if !self.flights.lose(flight) {
            return Err(StepFault::Flight);
        }
        Ok(self.answered(Answer::Lost))
    }
}
