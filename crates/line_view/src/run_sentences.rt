//! The sentences of a run, made while it goes on.
ghost use Rattle.std.specs.Prelude.{◌≡◌, IfOk, OnOk, is_some, slice_get, string_bytes};
ghost use Rattle.node_rules.specs.ShownNodes.{nothing_shown};
ghost use Rattle.event_sentences.specs.Texts.{event_text};
ghost use Rattle.line_rules.specs.Worlds.{node_at};
ghost use Rattle.line_view.specs.Sentences as spec_sentences;

use crate::recorder::{Recorder, is_drawn};
use event_sentences::{DrawnKey, Heard, Moment, Watch, heard_flight, heard_octets};
use line_events::{Answer, Event};
use line_record::{Act, RecordedEvent, actor_of, is_for_another, made_by, makes_node, push_home};
use line_world::World;
use node_rules::{Shown, ShownPeer, ShownPeers, ShownRoute, ShownRoutes};
use plc_base::{FrameBuf, Key};
use sentence_parts::{Who, who_of};
use std::alloc::{AllocError, Global};
use std::marker::Model;
use story_accounts::{Marks, numbered};

/// A line has at most this many nodes.
pub const MOST_NODES: usize = 1000;

/// The sentences of a run, and what they go by. A contract sees all but the buffers.
#[derive(Drop)]
pub struct RunSentences {
    alloc: Global,
    /// The sentence of each event, by its number from 1. What came to a node that it is not for has no words.
    pub sentences: Vec<String>,
    // The node of each short address.
    homes: Vec<u32>,
    keys: Vec<DrawnKey>,
    watches: Vec<Watch>,
    /// The marks that each node showed last.
    pub marks: Vec<Marks>,
    // What a node shows that was looked at last, and the payload that was opened last.
    shown: Shown,
    opened: FrameBuf,
}

impl Model for RunSentences {
    ghost use Rattle.std.specs.Prelude.{map, string_bytes};
    ghost use Rattle.line_view.specs.Sentences.{Sentences};

    ghost Value = { Sentences };

    ghost view = { λ t. record {
      sentences = map string_bytes t.sentences.items;
      homes = t.homes.items;
      keys = t.keys.items;
      watches = t.watches.items;
      marks = t.marks.items;
    } };
}

/// What is shown of no node.
pub fn nothing_shown() -> Shown
    ensures { result ≡ nothing_shown }
{
    Shown {
        halted: true,
        address: None,
        active: None,
        next_counter: 0,
        last_number: 0,
        key0: None,
        key1: None,
        routes: ShownRoutes::new(),
        floors: [0; 16],
        peers: ShownPeers::new(),
    }
}

fn push_key(keys: &mut Vec<DrawnKey>, event: &Event<'_>, answer: Answer) -> Result<(), AllocError>
    ensures { OnOk result (keys.new.items ≡ spec_sentences.keys_after event.now answer keys.old.items) }
{
    match event {
        Event::Coordinator { key, .. } => push_key_if(keys, true, 0, *key),
        Event::Rekey { index, key } => { push_key_if(keys, is_drawn(answer), index.number(), *key) }
        _ => Ok(()),
    }
}

fn push_key_if(keys: &mut Vec<DrawnKey>, holds: bool, index: u8, key: Key) -> Result<(), AllocError>
    ensures { OnOk result (keys.new.items ≡ spec_sentences.key_if holds (record { index = index; key = key }) keys.old.items) }
{
    if holds {
        keys.push(DrawnKey { index, key })?;
    }
    Ok(())
}

fn is_at(who: &Who, place: u32) -> bool
    ensures { result ≡ spec_sentences.is_at who.now place }
{
    match who {
        Who::Node { node } => *node == place,
        _ => false,
    }
}

// Whether a frame came to a node that it is not for.
fn is_hushed(heard: &Option<Heard>, recorded: &RecordedEvent) -> bool
    ensures { result ≡ spec_sentences.is_hushed heard.now recorded.now }
{
    match heard {
        None => false,
        Some(heard) => is_for_another(recorded.answer)
            && !is_at(&heard.to, actor_of(&recorded.act)),
    }
}

// Whether a flight came to a node that it is not for, as most do: by whom it is for alone.
#[tactic(auto, unfolding(crate::specs::Sentences::flight_heard))]
fn is_flight_hushed(run: &Recorder, number: u32, homes: &[u32], recorded: &RecordedEvent) -> bool
    ensures { result ≡ spec_sentences.is_hushed (spec_sentences.flight_heard number run.now homes.now) recorded.now }
{
    if !is_for_another(recorded.answer) {
        return false;
    }
    let Some(_) = run.world.flight(number) else {
        return false;
    };
    let Some(flight) = run.run_record.flight(number as usize) else {
        return false;
    };
    let Some(_) = numbered(run.more.as_slice(), number as usize) else {
        return false;
    };
    let to = who_of(&flight.target, homes, run.euis.as_slice());
    !is_at(&to, actor_of(&recorded.act))
}

// The flight of a number, as it comes to a node.
#[tactic(auto, unfolding(crate::specs::Sentences::flight_heard))]
fn flight_heard(run: &Recorder, number: u32, homes: &[u32]) -> Option<Heard>
    ensures { result ≡ spec_sentences.flight_heard number run.now homes.now }
{
    let Some(octets) = run.world.flight(number) else {
        return None;
    };
    let Some(flight) = run.run_record.flight(number as usize) else {
        return None;
    };
    let Some(more) = numbered(run.more.as_slice(), number as usize) else {
        return None;
    };
    let key = run.world.flight_key(number);
    let euis = run.euis.as_slice();
    Some(heard_flight(number, octets, key, flight, more, homes, euis))
}

fn push_watch(watches: &mut Vec<Watch>, alloc: Global, makes: bool) -> Result<(), AllocError>
    ensures { OnOk result (watches.new.items ≡ spec_sentences.watches_with makes watches.old.items) }
{
    if makes {
        watches.push(Watch::new(alloc))?;
    }
    Ok(())
}

fn push_marks(marks: &mut Vec<Marks>, alloc: Global, makes: bool) -> Result<(), AllocError>
    ensures { OnOk result (marks.new.items ≡ spec_sentences.marks_with makes marks.old.items) }
{
    if makes {
        marks.push(Marks::new(alloc))?;
    }
    Ok(())
}

// The marks that a node shows after an event.
fn set_marks(marks: &mut Vec<Marks>, node: u32, peers: &[ShownPeer]) -> Result<(), AllocError>
    ensures { OnOk result (marks.new.items ≡ spec_sentences.marks_set node peers.now marks.old.items) }
{
    let place = node as usize;
    if place >= marks.len() {
        return Ok(());
    }
    marks[place].set(peers)
}

fn note_at(
    watches: &mut Vec<Watch>,
    event: usize,
    recorded: &RecordedEvent,
) -> Result<(), AllocError>
    ensures { OnOk result (watches.new.items ≡ spec_sentences.noted_at event recorded.now watches.old.items) }
{
    let place = actor_of(&recorded.act) as usize;
    if place >= watches.len() {
        return Ok(());
    }
    watches[place].note(event, recorded)
}

// What a node shows, where there is such a node.
#[tactic(auto, using(crate::proofs::ShownNodes::shown_there, crate::proofs::ShownNodes::shown_nowhere))]
fn show(world: &mut World, node: u32, shown: &mut Shown) -> bool
    ensures there { result ≡ is_some (node_at world.old node) }
    ensures shown { shown.new ≡ spec_sentences.shown_by (node_at world.old node) }
    ensures same { world.new ≡ world.old }
{
    if world.show(node, shown) {
        return true;
    }
    *shown = nothing_shown();
    false
}

// Looks at the routes that a node shows after an event. Answers whether one of them ended.
fn look_in(
    watches: &mut Vec<Watch>,
    alloc: Global,
    event: usize,
    node: u32,
    routes: &[ShownRoute],
) -> Result<bool, AllocError>
    ensures watches { OnOk result (watches.new.items ≡ spec_sentences.looked_in event routes.now node watches.old.items) }
    ensures ended { IfOk result (λ ended. ended ≡ spec_sentences.ended_in (slice_get watches.old.items node) routes.now) }
{
    let place = node as usize;
    if place >= watches.len() {
        return Ok(false);
    }
    watches[place].look(alloc, event, routes)
}

// Looks at a node after an event: at what it shows, and at its routes. Answers whether one of them ended.
#[tactic(auto, unfolding(crate::specs::Sentences::look_at))]
fn look(
    watches: &mut Vec<Watch>,
    shown: &mut Shown,
    alloc: Global,
    world: &mut World,
    event: usize,
    node: u32,
) -> Result<bool, AllocError>
    ensures shown { shown.new ≡ spec_sentences.shown_by (node_at world.old node) }
    ensures watches { OnOk result (watches.new.items ≡ spec_sentences.look_at event world.old node watches.old.items) }
    ensures ended { IfOk result (λ ended. ended ≡ spec_sentences.ended_at world.old node watches.old.items) }
    ensures same { world.new ≡ world.old }
{
    if show(world, node, shown) {
        return look_in(watches, alloc, event, node, shown.routes.routes());
    }
    Ok(false)
}

// Looks at this many nodes.
fn look_at_all(
    watches: &mut Vec<Watch>,
    shown: &mut Shown,
    alloc: Global,
    world: &mut World,
    event: usize,
    count: u32,
) -> Result<(), AllocError>
    ensures watches { OnOk result (watches.new.items ≡ spec_sentences.look_at_all event world.old count watches.old.items) }
    ensures same { world.new ≡ world.old }
{
    for node in 0..count {
        look(watches, shown, alloc, world, event, node)?;
    }
    Ok(())
}

// Looks at the nodes that an event may have changed beside the one that it is about.
fn look_around(
    watches: &mut Vec<Watch>,
    shown: &mut Shown,
    alloc: Global,
    world: &mut World,
    event: usize,
    act: &Act,
) -> Result<(), AllocError>
    ensures watches { OnOk result (watches.new.items ≡ spec_sentences.look_around event act.now world.old watches.old.items) }
    ensures same { world.new ≡ world.old }
{
    match act {
        Act::Tick { .. } => {
            let count = watches.len().min(MOST_NODES) as u32;
            look_at_all(watches, shown, alloc, world, event, count)
        }
        Act::Near { b, .. } => {
            look(watches, shown, alloc, world, event, *b)?;
            Ok(())
        }
        _ => Ok(()),
    }
}

impl RunSentences {
    /// No sentence. It takes no memory.
    pub fn new(alloc: Global) -> RunSentences
        ensures { result ≡ spec_sentences.no_sentences }
    {
        RunSentences {
            alloc,
            sentences: Vec::new(alloc),
            homes: Vec::new(alloc),
            keys: Vec::new(alloc),
            watches: Vec::new(alloc),
            marks: Vec::new(alloc),
            shown: nothing_shown(),
            opened: FrameBuf::new(),
        }
    }

    // What an event says of addresses, nodes and keys.
    #[tactic(auto, unfolding(crate::specs::Sentences::learned))]
    fn learn(&mut self, event: &Event<'_>, recorded: &RecordedEvent) -> Result<(), AllocError>
        ensures { OnOk result (self.new ≡ spec_sentences.learned event.now recorded.now self.old) }
    {
        push_home(&mut self.homes, recorded)?;
        push_key(&mut self.keys, event, recorded.answer)?;
        push_watch(&mut self.watches, self.alloc, makes_node(&recorded.act))?;
        push_marks(&mut self.marks, self.alloc, makes_node(&recorded.act))
    }

    // The frame that came at an event.
    fn heard(&mut self, run: &Recorder, event: &Event<'_>) -> Option<Heard>
        ensures heard { result ≡ spec_sentences.heard_by event.now run.now self.old }
        ensures same { self.new ≡ self.old }
    {
        match event {
            Event::Deliver { flight, .. } => flight_heard(run, *flight, self.homes.as_slice()),
            Event::Inject { octets, .. } => Some(heard_octets(
                octets.octets(),
                self.keys.as_slice(),
                self.homes.as_slice(),
                run.euis.as_slice(),
                &mut self.opened,
            )),
            _ => None,
        }
    }

    // Whether an event brought a frame to a node that it is not for.
    fn is_hushed(&mut self, run: &Recorder, event: &Event<'_>, recorded: &RecordedEvent) -> bool
        ensures hushed { result ≡ spec_sentences.is_hushed (spec_sentences.heard_by event.now run.now self.old) recorded.now }
        ensures same { self.new ≡ self.old }
    {
        match event {
            Event::Deliver { flight, .. } => {
                is_flight_hushed(run, *flight, self.homes.as_slice(), recorded)
            }
            _ => is_hushed(&self.heard(run, event), recorded),
        }
    }

    // Adds the words of an event, which is noted.
    #[tactic(auto, unfolding(crate::specs::Sentences::ending))]
    fn end(
        &mut self,
        words: String,
        event: usize,
        recorded: &RecordedEvent,
    ) -> Result<(), AllocError>
        ensures { OnOk result (self.new ≡ spec_sentences.ending (string_bytes words) event recorded.now self.old) }
    {
        note_at(&mut self.watches, event, recorded)?;
        self.sentences.push(words)?;
        Ok(())
    }

    // The sentence of an event, after the looks at the nodes: by what its node shows, and whether a route of that ended.
    fn text(
        &self,
        run: &Recorder,
        recorded: &RecordedEvent,
        heard: &Option<Heard>,
        shown: &Shown,
        ended: bool,
    ) -> Result<String, AllocError>
        ensures { IfOk result (λ text. string_bytes text
            ≡ event_text (spec_sentences.scene recorded.now heard.now shown.now ended run.now self.now)) }
    {
        let node = actor_of(&recorded.act);
        let moment = Moment {
            alloc: self.alloc,
            recorded: *recorded,
            flights: made_by(recorded, run.run_record.flights.as_slice()),
            heard: heard.as_ref(),
            node,
            shown,
            watch: self.watches.get(node as usize),
            ended,
            counters: &run.counters,
            homes: self.homes.as_slice(),
            euis: run.euis.as_slice(),
        };
        moment.text()
    }

    // Looks at the nodes that an event may have changed, and adds its sentence.
    #[tactic(auto, unfolding(crate::specs::Sentences::worded))]
    fn word(
        &mut self,
        run: &mut Recorder,
        event: usize,
        recorded: &RecordedEvent,
        heard: &Option<Heard>,
    ) -> Result<(), AllocError>
        ensures words { OnOk result (self.new ≡ spec_sentences.worded event recorded.now heard.now
            (spec_sentences.look_around event recorded.now.act run.old.world self.old.watches) run.old self.old) }
        ensures same { run.new ≡ run.old }
    {
        look_around(
            &mut self.watches,
            &mut self.shown,
            self.alloc,
            &mut run.world,
            event,
            &recorded.act,
        )?;
        let ended = look(
            &mut self.watches,
            &mut self.shown,
            self.alloc,
            &mut run.world,
            event,
            actor_of(&recorded.act),
        )?;
        let node = actor_of(&recorded.act);
        set_marks(&mut self.marks, node, self.shown.peers.peers())?;
        let words = self.text(run, recorded, heard, &self.shown, ended)?;
        self.end(words, event, recorded)
    }

    // Adds the sentence of an event of this number, which the run took last.
    #[tactic(auto, unfolding(crate::specs::Sentences::event_worded))]
    fn add_event(
        &mut self,
        run: &mut Recorder,
        number: usize,
        event: &Event<'_>,
        recorded: &RecordedEvent,
    ) -> Result<(), AllocError>
        ensures worded { OnOk result (self.new ≡ spec_sentences.event_worded number event.now recorded.now run.old self.old) }
        ensures same { run.new ≡ run.old }
    {
        self.learn(event, recorded)?;
        if self.is_hushed(run, event, recorded) {
            let no_words = String::new(self.alloc);
            return self.end(no_words, number, recorded);
        }
        let heard = self.heard(run, event);
        self.word(run, number, recorded, &heard)
    }

    /// Adds the sentence of the event that a run took last.
    ///
    /// It fails only where memory runs out; what is left then is not said. The run is as it was.
    #[tactic(auto, unfolding(crate::specs::Sentences::with_sentence))]
    pub fn add_sentence(&mut self, run: &mut Recorder, event: &Event<'_>) -> Result<(), AllocError>
        ensures sentence { OnOk result (self.new ≡ spec_sentences.with_sentence event.now run.old self.old) }
        ensures same { run.new ≡ run.old }
    {
        let number = run.run_record.events.len();
        let Some(recorded) = run.run_record.event(number).copied() else {
            return Ok(());
        };
        self.add_event(run, number, event, &recorded)
    }
}
