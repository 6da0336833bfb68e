//! What a node keeps of a story for a while: a datagram or a message that waits for a route, a piece that is gathered.
ghost use Rattle.std.specs.Prelude.{◌≡◌, ◌&&◌};
ghost use Rattle.line_record.specs.KeptItems as kept_items;

use crate::act::Act;
use crate::kind::actor_of;
use crate::recorded::RecordedEvent;
use fragment_buffers::{REASSEMBLY_TIME, WAITING_TIME};
use line_events::Answer;

/// How an event ended what a node kept, by the number of the event from 1.
#[derive(Clone, Copy, Debug, PartialEq, Eq)]
pub enum KeptEnd {
    /// It did not.
    Still,
    /// It was dropped at a tick, this many seconds after it was taken in.
    Aged { event: usize, seconds: u64 },
    /// Its node started anew.
    Restarted { event: usize },
    /// Its node left.
    Left { event: usize },
    /// Its node lost power in a write to its store.
    Halted { event: usize },
}

/// What a node keeps of a story. Nodes have numbers from 0, stories, events and flights from 1.
#[derive(Clone, Copy, Debug, PartialEq, Eq)]
pub struct Kept {
    /// The story.
    pub story: usize,
    /// The node.
    pub node: u32,
    /// The meter that a message is about, 0 where it is no message.
    pub about: u32,
    /// Whether it is a piece that is gathered; else it waits for a route.
    pub gathered: bool,
    /// The event since which it is kept.
    pub event: usize,
    /// The clock after that event, in seconds.
    pub clock: u64,
    /// The flight that brought it, 0 where none did.
    pub flight: u32,
    /// How it ended.
    pub end: KeptEnd,
}

fn is_tick(act: &Act) -> bool
    ensures { result ≡ kept_items.is_tick act.now }
{
    match act {
        Act::Tick { .. } => true,
        _ => false,
    }
}

fn is_restart(node: u32, act: &Act) -> bool
    ensures { result ≡ kept_items.is_restart node act.now }
{
    match act {
        Act::Restart { node: other } => *other == node,
        _ => false,
    }
}

fn is_left(answer: Answer) -> bool
    ensures { result ≡ kept_items.is_left answer }
{
    match answer {
        Answer::Left => true,
        _ => false,
    }
}

fn is_power_lost(answer: Answer) -> bool
    ensures { result ≡ kept_items.is_power_lost answer }
{
    match answer {
        Answer::Store => true,
        _ => false,
    }
}

fn at_node(holds: bool, recorded: &RecordedEvent, node: u32) -> bool
    ensures { result ≡ kept_items.at_node holds recorded.now node }
{
    holds && actor_of(&recorded.act) == node
}

// For how long a node keeps it.
fn time_of(gathered: bool) -> u64
    ensures { result ≡ kept_items.time_of gathered }
{
    if gathered {
        return REASSEMBLY_TIME;
    }
    WAITING_TIME
}

/// How an event of this number ends what is kept.
pub fn end_of(number: usize, recorded: &RecordedEvent, kept: &Kept) -> KeptEnd
    ensures { result ≡ kept_items.end_of number recorded.now kept.now }
{
    let seconds = recorded.clock.saturating_sub(kept.clock);
    if is_tick(&recorded.act) && seconds >= time_of(kept.gathered) {
        return KeptEnd::Aged {
            event: number,
            seconds,
        };
    }
    if is_restart(kept.node, &recorded.act) {
        return KeptEnd::Restarted { event: number };
    }
    if at_node(is_left(recorded.answer), recorded, kept.node) {
        return KeptEnd::Left { event: number };
    }
    if at_node(is_power_lost(recorded.answer), recorded, kept.node) {
        return KeptEnd::Halted { event: number };
    }
    KeptEnd::Still
}

/// Whether an event may end what some node keeps.
pub fn may_end(recorded: &RecordedEvent) -> bool
    ensures { result ≡ kept_items.may_end recorded.now }
{
    if is_tick(&recorded.act) || is_left(recorded.answer) || is_power_lost(recorded.answer) {
        return true;
    }
    match recorded.act {
        Act::Restart { .. } => true,
        _ => false,
    }
}

/// Whether something is kept still.
pub fn is_still(end: &KeptEnd) -> bool
    ensures { result ≡ kept_items.is_still end.now }
{
    match end {
        KeptEnd::Still => true,
        _ => false,
    }
}

/// The same with its end.
pub fn ended_so(end: &KeptEnd, kept: &Kept) -> Kept
    ensures { result ≡ record kept.now { end = end.now } }
{
    Kept {
        story: kept.story,
        node: kept.node,
        about: kept.about,
        gathered: kept.gathered,
        event: kept.event,
        clock: kept.clock,
        flight: kept.flight,
        end: *end,
    }
}

/// Whether an answer says that a joining message was made, which flies or waits for a route.
pub fn makes_message(answer: Answer) -> bool
    ensures { result ≡ kept_items.makes_message answer }
{
    match answer {
        Answer::Challenged => true,
        Answer::Replied => true,
        Answer::Keyed => true,
        Answer::Took => true,
        Answer::Carried => true,
        Answer::Ordered => true,
        _ => false,
    }
}

fn is_thing(gathered: bool, kept: bool) -> bool
    ensures { result ≡ kept_items.is_thing gathered kept }
{
    if gathered {
        return kept;
    }
    !kept
}

/// Whether it is what a node keeps of a story: a piece, or what waits for a route.
pub fn is_kept_of(gathered: bool, story: usize, node: u32, kept: &Kept) -> bool
    ensures { result ≡ kept_items.is_kept_of gathered story node kept.now }
{
    is_thing(gathered, kept.gathered) && kept.story == story && kept.node == node
}

/// Whether it is a message about a meter that waits at a node.
pub fn is_message(node: u32, about: u32, kept: &Kept) -> bool
    ensures { result ≡ kept_items.is_message node about kept.now }
{
    !kept.gathered && kept.about > 0 && kept.node == node && kept.about == about
}
