//! A story, and what its events say of it.
ghost use Rattle.std.specs.Prelude.{◌≡◌, ◌&&◌};
ghost use Rattle.line_record.specs.Kinds.{is_heeded, obeys_at};
ghost use Rattle.line_record.specs.Marks as story_marks;

use crate::kept::{Kept, is_still};
use crate::kind::{StoryKind, is_declined, is_heeded, is_path, obeys_at};
use crate::recorded::RecordedEvent;

/// What somebody asked of the line, and what became of it. Events are meant by their numbers from 1.
#[derive(Clone, Copy)]
pub struct Story {
    /// What it is about.
    pub kind: StoryKind,
    /// The event that it begins with.
    pub first: usize,
    /// The node that it is about: the one that sends, joins or gets an order, or to which octets come; 0 for others.
    pub person: u32,
    /// The event at which it reached its end: the datagram was handed up first, the joining was done last, the node first
    /// obeyed, the answer to the path request came first.
    pub reached: Option<usize>,
    /// The last event at which the meter that joins took its grant.
    pub took: Option<usize>,
    /// The first event at which the meter that joins was declined.
    pub declined: Option<usize>,
    /// What of it waits for a route, or waited and ended; None where the last that waited has left, or none did.
    pub waits: Option<Kept>,
    /// The piece of it that a node gathers, the last where there are several. None where it has ended.
    pub gathers: Option<Kept>,
    /// The first piece that a node had gathered of it and that ended before the datagram was whole.
    pub ended: Option<Kept>,
}

/// A story without a further event.
pub fn new_story(kind: StoryKind, first: usize, person: u32) -> Story
    ensures { result ≡ story_marks.new_story kind first person }
{
    Story {
        kind,
        first,
        person,
        reached: None,
        took: None,
        declined: None,
        waits: None,
        gathers: None,
        ended: None,
    }
}

/// Whether the node that is named, if one is, is this one.
pub fn is_node(named: Option<u32>, node: u32) -> bool
    ensures { result ≡ story_marks.is_node named node }
{
    match named {
        None => false,
        Some(x) => x == node,
    }
}

fn is_meter(named: Option<u16>, node: u32) -> bool
    ensures { result ≡ story_marks.is_node named node }
{
    match named {
        None => false,
        Some(x) => u32::from(x) == node,
    }
}

fn or_first(before: Option<usize>, holds: bool, number: usize) -> Option<usize>
    ensures { result ≡ story_marks.or_first before holds number }
{
    match before {
        Some(first) => Some(first),
        None => or_last(None, holds, number),
    }
}

fn or_last(before: Option<usize>, holds: bool, number: usize) -> Option<usize>
    ensures { result ≡ story_marks.or_last before holds number }
{
    if holds {
        return Some(number);
    }
    before
}

fn joining_marked(number: usize, event: &RecordedEvent, story: &Story) -> Story
    ensures { result ≡ story_marks.joining_marked number event.now story.now }
{
    Story {
        kind: story.kind,
        first: story.first,
        person: story.person,
        reached: or_last(story.reached, is_meter(event.done, story.person), number),
        took: or_last(story.took, is_meter(event.took, story.person), number),
        declined: or_first(story.declined, is_declined(event.answer), number),
        waits: story.waits,
        gathers: story.gathers,
        ended: story.ended,
    }
}

// Whether the node of a story obeys.
fn is_obeyed(event: &RecordedEvent, person: u32) -> bool
    ensures { result ≡ (is_heeded event.now.answer && story_marks.is_node (obeys_at event.now.act) person) }
{
    if !is_heeded(event.answer) {
        return false;
    }
    is_node(obeys_at(&event.act), person)
}

fn reached_at(number: usize, holds: bool, story: &Story) -> Story
    ensures { result ≡ record story.now { reached = story_marks.or_first story.now.reached holds number } }
{
    Story {
        kind: story.kind,
        first: story.first,
        person: story.person,
        reached: or_first(story.reached, holds, number),
        took: story.took,
        declined: story.declined,
        waits: story.waits,
        gathers: story.gathers,
        ended: story.ended,
    }
}

/// A story after one of its events, the one of this number.
pub fn marked(number: usize, event: &RecordedEvent, story: &Story) -> Story
    ensures { result ≡ story_marks.marked number event.now story.now }
{
    match story.kind {
        StoryKind::Joining => joining_marked(number, event, story),
        StoryKind::Renewal => joining_marked(number, event, story),
        StoryKind::Order => reached_at(number, is_obeyed(event, story.person), story),
        StoryKind::Walk => reached_at(number, is_path(event.answer), story),
        _ => *story,
    }
}

/// A story whose datagram is handed up at the event of this number.
pub fn came(number: usize, story: &Story) -> Story
    ensures { result ≡ story_marks.came number story.now }
{
    reached_at(number, true, story)
}

fn with_waiting(waits: Option<Kept>, story: &Story) -> Story
    ensures { result ≡ record story.now { waits = waits } }
{
    Story {
        kind: story.kind,
        first: story.first,
        person: story.person,
        reached: story.reached,
        took: story.took,
        declined: story.declined,
        waits,
        gathers: story.gathers,
        ended: story.ended,
    }
}

fn or_kept(before: &Option<Kept>, kept: &Kept) -> Option<Kept>
    ensures { result ≡ story_marks.or_kept before.now kept.now }
{
    match before {
        None => Some(*kept),
        Some(old) => Some(*old),
    }
}

fn with_pieces(gathers: Option<Kept>, ended: Option<Kept>, story: &Story) -> Story
    ensures { result ≡ record story.now { gathers = gathers; ended = ended } }
{
    Story {
        kind: story.kind,
        first: story.first,
        person: story.person,
        reached: story.reached,
        took: story.took,
        declined: story.declined,
        waits: story.waits,
        gathers,
        ended,
    }
}

fn with_gathered(kept: &Kept, story: &Story) -> Story
    ensures { result ≡ story_marks.with_gathered kept.now story.now }
{
    if is_still(&kept.end) {
        return with_pieces(Some(*kept), story.ended, story);
    }
    with_pieces(None, or_kept(&story.ended, kept), story)
}

/// A story of which something is kept, or has ended.
pub fn with_kept(kept: &Kept, story: &Story) -> Story
    ensures { result ≡ story_marks.with_kept kept.now story.now }
{
    if kept.gathered {
        return with_gathered(kept, story);
    }
    with_waiting(Some(*kept), story)
}

/// A story of which nothing waits any more, since it left.
pub fn left(story: &Story) -> Story
    ensures { result ≡ story_marks.left story.now }
{
    with_waiting(None, story)
}
