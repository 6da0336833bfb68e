//! What nodes keep of stories: what waits for a route, what is gathered.
ghost use Rattle.std.specs.Prelude.{◌≡◌, ◌++◌, IfOk, OnOk};
ghost use Rattle.std.specs.List.{find, list_any};
ghost use Rattle.std.specs.Option.{option_copied};
ghost use Rattle.line_record.specs.Lists.{changed_at};
ghost use Rattle.line_record.specs.Marks as story_marks;
ghost use Rattle.line_record.specs.NodeItems as node_items;

use crate::{
    Act, Course, Kept, KeptEnd, RecordedEvent, RecordedFlight, Story, actor_of, end_of, ended_so,
    is_kept_of, is_message, is_piece_held, is_still, left, makes_message, sends, with_kept,
};
use frame_facts::Gist;
use line_events::Answer;
use std::alloc::{AllocError, Global};

// What begins to be kept at an event, by the node that the event is about.
fn new_kept(
    story: usize,
    recorded: &RecordedEvent,
    number: usize,
    about: u32,
    gathered: bool,
) -> Kept
    ensures { result ≡ node_items.new_kept story recorded.now number about gathered }
{
    Kept {
        story,
        node: actor_of(&recorded.act),
        about,
        gathered,
        event: number,
        clock: recorded.clock,
        flight: recorded.came,
        end: KeptEnd::Still,
    }
}

fn is_waiting(answer: Answer) -> bool
    ensures { result ≡ node_items.is_waiting answer }
{
    match answer {
        Answer::Waiting => true,
        _ => false,
    }
}

/// The datagram that begins to wait for a route at an event of a story, if one does.
pub fn waiting_kept(recorded: &RecordedEvent, number: usize, story: usize) -> Option<Kept>
    ensures { result ≡ node_items.waiting_kept recorded.now number story }
{
    if sends(&recorded.act, recorded.answer) && is_waiting(recorded.answer) {
        return Some(new_kept(story, recorded, number, 0, false));
    }
    None
}

fn has_kept(keeping: &[Kept], gathered: bool, story: usize, node: u32) -> bool
    ensures { result ≡ node_items.has_kept gathered story node keeping.now }
{
    keeping
        .iter()
        .any(|kept| is_kept_of(gathered, story, node, kept))
}

fn piece_by(
    course: &Course,
    recorded: &RecordedEvent,
    number: usize,
    keeping: &[Kept],
) -> Option<Kept>
    ensures { result ≡ node_items.piece_by course.now recorded.now number keeping.now }
{
    if course.bears && !has_kept(keeping, true, course.story, actor_of(&recorded.act)) {
        return Some(new_kept(course.story, recorded, number, 0, true));
    }
    None
}

/// The piece that begins to be gathered at an event, by what is kept so far, if one does.
pub fn piece_kept(
    recorded: &RecordedEvent,
    number: usize,
    courses: &[Course],
    keeping: &[Kept],
) -> Option<Kept>
    ensures { result ≡ node_items.piece_kept recorded.now number courses.now keeping.now }
{
    if !is_piece_held(recorded.answer) || recorded.came == 0 {
        return None;
    }
    match courses.get(recorded.came as usize - 1) {
        None => None,
        Some(course) => piece_by(course, recorded, number, keeping),
    }
}

// The meter that the joining message of an event is about which somebody asked for.
fn asked_about(act: &Act) -> Option<u32>
    ensures { result ≡ node_items.asked_about act.now }
{
    match act {
        Act::Challenge { node } => Some(*node),
        Act::Activate { node, .. } => Some(*node),
        Act::Kick { node } => Some(*node),
        _ => None,
    }
}

/// Whether a payload is a joining message.
pub fn is_joining(gist: &Gist) -> bool
    ensures { result ≡ node_items.is_joining gist.now }
{
    match gist {
        Gist::Joins { .. } => true,
        _ => false,
    }
}

fn flight_about(flight: &RecordedFlight) -> Option<u32>
    ensures { result ≡ node_items.flight_about flight.now }
{
    if is_joining(&flight.gist) {
        return flight.device;
    }
    None
}

/// The meter that the joining message is about which an event makes, if it makes one.
pub fn message_about(recorded: &RecordedEvent, flights: &[RecordedFlight]) -> Option<u32>
    ensures { result ≡ node_items.message_about recorded.now flights.now }
{
    if !makes_message(recorded.answer) {
        return None;
    }
    if recorded.came == 0 {
        return asked_about(&recorded.act);
    }
    match flights.get(recorded.came as usize - 1) {
        None => None,
        Some(flight) => flight_about(flight),
    }
}

/// Whether a node is named, and is this one.
pub fn is_about(named: Option<u32>, node: u32) -> bool
    ensures { result ≡ story_marks.is_node named node }
{
    match named {
        None => false,
        Some(x) => x == node,
    }
}

fn is_message_about(about: u32, flight: &RecordedFlight) -> bool
    ensures { result ≡ node_items.is_message_about about flight.now }
{
    is_about(flight_about(flight), about)
}

// Whether one of these flights is a joining message about a meter.
fn has_message(about: u32, made: &[RecordedFlight]) -> bool
    ensures { result ≡ list_any (node_items.is_message_about about) made.now }
{
    made.iter().any(|flight| is_message_about(about, flight))
}

/// The message of a story about a meter that begins to wait at an event, if none of the flights of the event is that.
pub fn message_kept(
    about: Option<u32>,
    recorded: &RecordedEvent,
    number: usize,
    story: usize,
    made: &[RecordedFlight],
) -> Option<Kept>
    ensures { result ≡ node_items.message_kept about recorded.now number story made.now }
{
    let Some(about) = about else {
        return None;
    };
    if has_message(about, made) {
        return None;
    }
    Some(new_kept(story, recorded, number, about, false))
}

fn first_message(node: u32, about: u32, keeping: &[Kept]) -> Option<&Kept>
    ensures { option_copied result ≡ find (node_items.is_waiting_message node about) keeping.now }
{
    keeping.iter().find(|kept| is_message(node, about, kept))
}

/// The story of the first message about a meter that waits at a node, if one does.
pub fn waiting_story(node: u32, about: Option<u32>, keeping: &[Kept]) -> Option<usize>
    ensures { result ≡ node_items.waiting_story node about keeping.now }
{
    let Some(about) = about else {
        return None;
    };
    match first_message(node, about, keeping) {
        None => None,
        Some(kept) => Some(kept.story),
    }
}

// Something is kept of its story, or has ended.
fn keep_in(stories: &mut Vec<Story>, kept: &Kept)
    ensures { stories.new.items ≡ changed_at kept.now.story (story_marks.with_kept kept.now) stories.old.items }
{
    if kept.story == 0 {
        return;
    }
    let Some(old) = stories.get(kept.story - 1) else {
        return;
    };
    let new = with_kept(kept, old);
    stories[kept.story - 1] = new;
}

// What waited of a story has left.
fn leave_in(stories: &mut Vec<Story>, story: usize)
    ensures { stories.new.items ≡ changed_at story story_marks.left stories.old.items }
{
    if story == 0 {
        return;
    }
    let Some(old) = stories.get(story - 1) else {
        return;
    };
    let new = left(old);
    stories[story - 1] = new;
}

/// Begins to keep something, if there is such a thing.
///
/// It fails only where memory runs out.
pub fn begin(
    stories: &mut Vec<Story>,
    keeping: &mut Vec<Kept>,
    kept: Option<Kept>,
) -> Result<(), AllocError>
    ensures stories { OnOk result (stories.new.items ≡ node_items.stories_begun kept stories.old.items) }
    ensures keeping { OnOk result (keeping.new.items ≡ node_items.keeping_begun kept keeping.old.items) }
{
    let Some(kept) = kept else {
        return Ok(());
    };
    keep_in(stories, &kept);
    keeping.push(kept)?;
    Ok(())
}

fn end_in(stories: &mut Vec<Story>, number: usize, recorded: &RecordedEvent, kept: &Kept)
    ensures { stories.new.items ≡ node_items.story_ended number recorded.now kept.now stories.old.items }
{
    let end = end_of(number, recorded, kept);
    if is_still(&end) {
        return;
    }
    keep_in(stories, &ended_so(&end, kept));
}

/// Ends what an event of this number ends, in the stories of that.
pub fn end_stories(
    stories: &mut Vec<Story>,
    number: usize,
    recorded: &RecordedEvent,
    keeping: &[Kept],
)
    ensures { stories.new.items ≡ node_items.stories_ended number recorded.now keeping.now stories.old.items }
{
    for kept in keeping {
        end_in(stories, number, recorded, kept);
    }
}

fn push_if(list: &mut Vec<Kept>, holds: bool, kept: &Kept) -> Result<(), AllocError>
    ensures { OnOk result (list.new.items ≡ list.old.items ++ node_items.kept_if holds kept.now) }
{
    if holds {
        list.push(*kept)?;
    }
    Ok(())
}

/// What is kept still after an event of this number.
///
/// It fails only where memory runs out.
pub fn still_kept(
    alloc: Global,
    number: usize,
    recorded: &RecordedEvent,
    keeping: &[Kept],
) -> Result<Vec<Kept>, AllocError>
    ensures { IfOk result (λ list. list.items ≡ node_items.still_kept number recorded.now keeping.now) }
{
    let mut list = Vec::new(alloc);
    for kept in keeping {
        push_if(&mut list, is_still(&end_of(number, recorded, kept)), kept)?;
    }
    Ok(list)
}

/// What is kept beside that of a story at a node.
///
/// It fails only where memory runs out.
pub fn others_kept(
    alloc: Global,
    gathered: bool,
    story: usize,
    node: u32,
    keeping: &[Kept],
) -> Result<Vec<Kept>, AllocError>
    ensures { IfOk result (λ list. list.items ≡ node_items.others_kept gathered story node keeping.now) }
{
    let mut list = Vec::new(alloc);
    for kept in keeping {
        push_if(&mut list, !is_kept_of(gathered, story, node, kept), kept)?;
    }
    Ok(list)
}

/// Lets leave what waits of a story at a node, if something does.
///
/// It fails only where memory runs out.
pub fn leave(
    stories: &mut Vec<Story>,
    keeping: &mut Vec<Kept>,
    alloc: Global,
    story: usize,
    node: u32,
) -> Result<(), AllocError>
    ensures stories { OnOk result (stories.new.items ≡ node_items.stories_left story node keeping.old.items stories.old.items) }
    ensures keeping { OnOk result (keeping.new.items ≡ node_items.keeping_left story node keeping.old.items) }
{
    if !has_kept(keeping.as_slice(), false, story, node) {
        return Ok(());
    }
    let rest = others_kept(alloc, false, story, node, keeping.as_slice())?;
    *keeping = rest;
    leave_in(stories, story);
    Ok(())
}

/// Takes away what a node gathered of a story, whose datagram it hands up.
///
/// It fails only where memory runs out.
pub fn hand_up(
    keeping: &mut Vec<Kept>,
    alloc: Global,
    story: usize,
    node: u32,
) -> Result<(), AllocError>
    ensures { OnOk result (keeping.new.items ≡ node_items.handed_up story node keeping.old.items) }
{
    if !has_kept(keeping.as_slice(), true, story, node) {
        return Ok(());
    }
    let rest = others_kept(alloc, true, story, node, keeping.as_slice())?;
    *keeping = rest;
    Ok(())
}
