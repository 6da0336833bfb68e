//! Where an event goes: to a story that is there, or to a new one.
ghost use Rattle.std.specs.Prelude.{◌≡◌, ◌-◌, IfOk, OnErr, OnOk, length, slice_get};
ghost use Rattle.line_record.specs.RunRecords.{numbered};
ghost use Rattle.line_record.specs.Kinds.{goes_on_with, is_setup};
ghost use Rattle.line_record.specs.Stories as spec_stories;

use crate::{
    Act, Course, Story, StoryKind, begins, goes_on_with, is_line, is_setup, is_setup_kind,
    new_story,
};
use std::alloc::AllocError;

/// The story of an event.
#[derive(Clone, Copy)]
pub enum Place {
    /// One that is there, by its number from 1.
    At { number: usize },
    /// A new one of this kind.
    New { kind: StoryKind },
}

// Whether the newest story is one of the line.
fn is_on_line(stories: &[Story]) -> bool
    ensures { result ≡ spec_stories.line_at (slice_get stories.now (length stories.now - 1)) }
{
    match stories.last() {
        None => false,
        Some(story) => is_line(story.kind),
    }
}

// Whether the first story is that of the setup.
fn has_setup(stories: &[Story]) -> bool
    ensures { result ≡ spec_stories.setup_at (slice_get stories.now 0) }
{
    match stories.first() {
        None => false,
        Some(story) => is_setup_kind(story.kind),
    }
}

/// Where an event goes that happens on the line by itself.
pub fn line_place(stories: &[Story]) -> Place
    ensures { result ≡ spec_stories.line_place stories.now }
{
    if is_on_line(stories) {
        return Place::At {
            number: stories.len(),
        };
    }
    Place::New {
        kind: StoryKind::Line,
    }
}

fn setup_place(stories: &[Story]) -> Place
    ensures { result ≡ spec_stories.setup_place stories.now }
{
    if has_setup(stories) {
        return Place::At { number: 1 };
    }
    Place::New {
        kind: StoryKind::Setup,
    }
}

fn flight_place(flight: usize, stories: &[Story], courses: &[Course]) -> Place
    ensures { result ≡ spec_stories.course_place (numbered courses.now flight) stories.now }
{
    if flight == 0 {
        return line_place(stories);
    }
    match courses.get(flight - 1) {
        Some(course) => Place::At {
            number: course.story,
        },
        None => line_place(stories),
    }
}

fn old_place(act: &Act, stories: &[Story], courses: &[Course]) -> Place
    ensures { result ≡ spec_stories.old_place (goes_on_with act.now) (is_setup act.now) stories.now courses.now }
{
    if let Some(flight) = goes_on_with(act) {
        return flight_place(flight as usize, stories, courses);
    }
    if is_setup(act) {
        return setup_place(stories);
    }
    line_place(stories)
}

/// Where an event goes.
pub fn place_of(act: &Act, stories: &[Story], courses: &[Course]) -> Place
    ensures { result ≡ spec_stories.place_of act.now stories.now courses.now }
{
    match begins(act) {
        Some(kind) => Place::New { kind },
        None => old_place(act, stories, courses),
    }
}

/// Makes the story at a place, where it is a new one: it begins with the event of this number and is about a node. Returns its number.
///
/// It fails only where memory runs out, and nothing changes then.
pub fn take_place(
    stories: &mut Vec<Story>,
    place: Place,
    first: usize,
    node: u32,
) -> Result<usize, AllocError>
    ensures made { OnOk result (stories.new.items ≡ spec_stories.with_place place first node stories.old.items) }
    ensures number { IfOk result (λ number. number ≡ spec_stories.number_at place stories.old.items) }
    ensures err { OnErr result (stories.new.items ≡ stories.old.items) }
{
    match place {
        Place::At { number } => Ok(number),
        Place::New { kind } => {
            stories.push(new_story(kind, first, node))?;
            Ok(stories.len())
        }
    }
}
