//! What of a run helps to say why it does not take an event.
ghost use Rattle.std.specs.Prelude.{◌≡◌, ◌<◌, ◌≤◌, IfSome, if◌then◌else◌, length, position};
ghost use Rattle.line_events.specs.declared.event.Answer.{Answer};
ghost use Rattle.script_faults.specs.Runs as runs;

use line_events::{Answer, Event};
use line_record::{Act, RecordedEvent, is_refused};
use plc_base::Eui;
use std::alloc::{AllocError, Global};
use std::marker::Model;

/// A node that was made: its EUI-64, and the line that made it.
#[derive(Clone, Copy)]
pub struct Made {
    /// Its EUI-64.
    pub eui: Eui,
    /// The number of the line.
    pub row: u32,
}

/// The first event that is not part of the setup. A contract sees its line and its octets.
#[derive(Drop)]
pub struct FirstOther {
    // The number of its line, 0 if there is none.
    row: u32,
    // Its octets, at most 60.
    text: Vec<u8>,
}

impl Model for FirstOther {
    ghost use Rattle.script_faults.specs.Runs.{Other};

    ghost Value = { Other };

    ghost view = { λ o. record { row = o.row; text = o.text.items } };
}

impl FirstOther {
    ghost use Rattle.std.specs.Prelude.{[], OnOk};

    /// None so far. It takes no memory.
    pub fn new(alloc: Global) -> FirstOther
        ensures { result ≡ record { row = 0; text = [] } }
    {
        FirstOther {
            row: 0,
            text: Vec::new(alloc),
        }
    }

    /// The number of its line, 0 if there is none.
    pub fn row(&self) -> u32
        ensures { result ≡ self.now.row }
    {
        self.row
    }

    /// Its octets.
    pub fn text(&self) -> &[u8]
        ensures { result.now ≡ self.now.text }
    {
        self.text.as_slice()
    }

    /// Keeps the octets of the line of this number.
    pub fn keep(&mut self, row: u32, text: &[u8]) -> Result<(), AllocError>
        ensures { OnOk result (self.new ≡ record { row = row; text = text.now }) }
    {
        self.row = row;
        self.text.clear();
        self.text.extend_from_slice(text)
    }
}

/// A word of a line, by its number.
#[derive(Clone, Copy)]
pub enum Place {
    /// The word that says what the line asks for.
    First,
    /// The word after it.
    Second,
    /// The one after that.
    Third,
}

/// A node that an event names, with its word.
#[derive(Clone, Copy)]
pub struct Named {
    /// The word.
    pub place: Place,
    /// The number of the node.
    pub node: u32,
}

fn naming(place: Place, node: u32) -> Option<Named>
    ensures { result ≡ runs.naming place node }
{
    Some(Named { place, node })
}

/// The first node that an event names.
pub fn first_named(event: &Event<'_>) -> Option<Named>
    ensures { result ≡ runs.first_named event.now }
{
    match event {
        Event::Depot { node } => naming(Place::Second, *node),
        Event::Near { a, .. } => naming(Place::Second, *a),
        Event::Counter { node, .. } => naming(Place::Second, *node),
        Event::Number { node, .. } => naming(Place::Second, *node),
        Event::Allow { node } => naming(Place::Second, *node),
        Event::RandomOctets { node, .. } => naming(Place::Second, *node),
        Event::Join { node, .. } => naming(Place::Second, *node),
        Event::Leave { node } => naming(Place::Second, *node),
        Event::Send { from, .. } => naming(Place::Second, *from),
        Event::Deliver { node, .. } => naming(Place::Third, *node),
        Event::Inject { node, .. } => naming(Place::Second, *node),
        Event::Break { node, .. } => naming(Place::Second, *node),
        Event::Restart { node } => naming(Place::Second, *node),
        Event::Cut { node, .. } => naming(Place::Second, *node),
        Event::Challenge { node } => naming(Place::Second, *node),
        Event::Activate { node, .. } => naming(Place::Second, *node),
        Event::Kick { node } => naming(Place::Second, *node),
        Event::Show { node } => naming(Place::Second, *node),
        Event::Bcast { node, .. } => naming(Place::Second, *node),
        Event::Scan { node } => naming(Place::Second, *node),
        Event::Choose { node, .. } => naming(Place::Second, *node),
        Event::Path { from, .. } => naming(Place::Second, *from),
        _ => None,
    }
}

/// The second node that an event names.
pub fn second_named(event: &Event<'_>) -> Option<Named>
    ensures { result ≡ runs.second_named event.now }
{
    match event {
        Event::Near { b, .. } => naming(Place::Third, *b),
        Event::Join { agent, .. } => naming(Place::Third, *agent),
        Event::Send { to, .. } => naming(Place::Third, *to),
        Event::Break { next, .. } => naming(Place::Third, *next),
        Event::Path { to, .. } => naming(Place::Third, *to),
        _ => None,
    }
}

/// The flight that an event names; 0 is no flight.
pub fn flight_named(event: &Event<'_>) -> u32
    ensures { result ≡ runs.flight_named event.now }
{
    match event {
        Event::Deliver { flight, .. } => *flight,
        Event::Lose { flight } => *flight,
        _ => 0,
    }
}

/// The line that made a node, 0 where none did.
pub fn made_row(made: &[Made], node: usize) -> u32
    ensures { result ≡ runs.made_row made.now node }
{
    match made.get(node) {
        None => 0,
        Some(found) => found.row,
    }
}

/// The node with an EUI-64.
pub fn node_with(made: &[Made], eui: Eui) -> Option<usize>
    ensures { result ≡ runs.node_with made.now eui }
{
    made.iter().position(|found| found.eui == eui)
}

/// What is looked for among the events.
#[derive(Clone, Copy)]
pub enum Wanted {
    /// That a meter was joined in the workshop.
    Joined { meter: u32 },
    /// That two nodes were given the route to each other.
    Near { a: u32, b: u32 },
    /// That a flight was lost.
    Lost { flight: u32 },
}

fn is_lost(answer: Answer) -> bool
    ensures { result ≡ runs.is_lost answer }
{
    match answer {
        Answer::Lost => true,
        _ => false,
    }
}

fn are(a: u32, b: u32, x: u32, y: u32) -> bool
    ensures { result ≡ runs.are a b x y }
{
    (a == x && b == y) || (a == y && b == x)
}

fn is_joined(act: &Act, meter: u32) -> bool
    ensures { (answer : Answer) → result ≡ runs.act_is act.now answer (Wanted.Joined meter) }
{
    match act {
        Act::Depot { node } => *node == meter,
        _ => false,
    }
}

fn is_near(act: &Act, x: u32, y: u32) -> bool
    ensures { (answer : Answer) → result ≡ runs.act_is act.now answer (Wanted.Near x y) }
{
    match act {
        Act::Near { a, b } => are(*a, *b, x, y),
        _ => false,
    }
}

fn loses(act: &Act, answer: Answer, number: u32) -> bool
    ensures { result ≡ runs.act_is act.now answer (Wanted.Lost number) }
{
    match act {
        Act::Lose { flight } => *flight == number && is_lost(answer),
        _ => false,
    }
}

fn act_is(act: &Act, answer: Answer, wanted: &Wanted) -> bool
    ensures { result ≡ runs.act_is act.now answer wanted.now }
{
    match wanted {
        Wanted::Joined { meter } => is_joined(act, *meter),
        Wanted::Near { a, b } => is_near(act, *a, *b),
        Wanted::Lost { flight } => loses(act, answer, *flight),
    }
}

/// The line of the first such event, 0 if there is none.
pub fn row_of(wanted: &Wanted, events: &[RecordedEvent]) -> u32
    ensures { result ≡ runs.row_of wanted.now events.now }
{
    for event in events {
        if act_is(&event.act, event.answer, wanted) {
            return event.line;
        }
    }
    0
}

/// The line that joined a node, 0 where none did.
pub fn joined_row(made: &[Made], events: &[RecordedEvent], meter: u32) -> u32
    ensures { result ≡ runs.joined_row made.now events.now meter }
{
    if meter == 0 {
        return made_row(made, 0);
    }
    row_of(&Wanted::Joined { meter }, events)
}

fn is_neighbour(node: u32, act: &Act) -> bool
    ensures { result ≡ runs.is_neighbour node act.now }
{
    match act {
        Act::Near { a, b } => *a == node || *b == node,
        _ => false,
    }
}

fn one_if(test: bool) -> usize
    ensures one { result ≡ (if test then 1 else 0) }
    ensures within { result ≤ 1 }
{
    if test { 1 } else { 0 }
}

/// How many neighbours a node was given.
pub fn neighbours(events: &[RecordedEvent], node: u32) -> usize
    ensures { result ≡ runs.neighbours events.now node }
{
    let mut count = 0;
    for event in events {
        count = count + one_if(is_neighbour(node, &event.act));
    }
    count
}

fn sent_it(flight: u32, event: &RecordedEvent) -> bool
    ensures { result ≡ runs.sent_it flight event.now }
{
    event.first_flight <= flight && flight - event.first_flight < u32::from(event.flights)
}

/// The place of the event that sent a flight.
pub fn sending_of(events: &[RecordedEvent], flight: u32) -> Option<usize>
    ensures sending { result ≡ position (runs.sent_it flight) events.now }
    ensures within { IfSome result (λ place. place < length events.now) }
{
    events.iter().position(|event| sent_it(flight, event))
}

fn later(is: bool, number: usize, last: usize) -> usize
    ensures { result ≡ (if is then number else last) }
{
    if is { number } else { last }
}

/// The number of the last event that was refused, from 1. 0 where none was.
#[tactic(auto, unfolding(crate::specs::Runs::last_refusal))]
pub fn last_refusal(events: &[RecordedEvent]) -> usize
    ensures { result ≡ runs.last_refusal events.now }
{
    let mut last = 0;
    let mut at = 0;
    for event in events {
        last = later(is_refused(event.answer), at + 1, last);
        at = at + 1;
    }
    last
}
