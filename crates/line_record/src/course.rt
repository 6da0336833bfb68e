//! What became of a flight.
ghost use Rattle.std.specs.Prelude.{◌≡◌};
ghost use Rattle.line_record.specs.Lists.{changed_at};
ghost use Rattle.line_record.specs.Marks as story_marks;

use crate::act::Act;
use crate::kind::{actor_of, is_dropped, is_reported, takes_on};
use crate::recorded::RecordedEvent;
use line_events::Answer;

/// What became of a flight at the node that it is for; of one to all, or to no node of the run, at any node. Events are meant by their
/// numbers from 1.
#[derive(Clone, Copy, Debug, PartialEq, Eq)]
pub enum Fate {
    /// It never came there.
    Missed,
    /// It was lost before it came there.
    Lost { event: usize },
    /// It was refused there, or accepted and its datagram ended, at this event. Of several refusals it is the first, unless it was accepted later.
    Refused { event: usize },
    /// Its unit ended there, and that was reported to the origin, at this event.
    Reported { event: usize },
    /// It was taken there, at this event first.
    WentOn { event: usize },
}

/// A flight with its story, and what became of it.
#[derive(Clone, Copy)]
pub struct Course {
    /// The number of the story that owns it, from 1.
    pub story: usize,
    /// The node that it is for, None where it is for all or for no node of the run.
    pub to: Option<u32>,
    /// What became of it.
    pub fate: Fate,
    /// Whether it carries the datagram of its story, or a piece or a joining message of it.
    pub bears: bool,
    /// Whether another node heard it.
    pub overheard: bool,
    /// The search for a route that it is of, by the number of the route request that began it: that one, its copies, and the replies to it. 0 where it
    /// is of none.
    pub search: usize,
}

fn is_for(to: Option<u32>, node: u32) -> bool
    ensures { result ≡ story_marks.is_for to node }
{
    match to {
        None => true,
        Some(x) => x == node,
    }
}

// What becomes of a flight that was not taken yet, at an answer.
fn answered(number: usize, answer: Answer) -> Fate
    ensures { result ≡ story_marks.answered number answer }
{
    if takes_on(answer) {
        return Fate::WentOn { event: number };
    }
    if is_reported(answer) {
        return Fate::Reported { event: number };
    }
    Fate::Refused { event: number }
}

// Whether a frame is accepted that is answered so, and its unit goes on or ends.
fn is_accepted(answer: Answer) -> bool
    ensures { result ≡ story_marks.is_accepted answer }
{
    takes_on(answer) || is_reported(answer) || is_dropped(answer)
}

// What becomes of a flight that was refused at an event, where it comes again.
fn refused_again(number: usize, answer: Answer, event: usize) -> Fate
    ensures { result ≡ story_marks.fate_after number answer (story_marks.refused_at event) }
{
    if is_accepted(answer) {
        return answered(number, answer);
    }
    Fate::Refused { event }
}

fn fate_after(number: usize, answer: Answer, fate: &Fate) -> Fate
    ensures { result ≡ story_marks.fate_after number answer fate.now }
{
    match fate {
        Fate::WentOn { event } => Fate::WentOn { event: *event },
        Fate::Reported { event } => Fate::Reported { event: *event },
        Fate::Refused { event } => refused_again(number, answer, *event),
        _ => answered(number, answer),
    }
}

fn fate_lost(number: usize, fate: &Fate) -> Fate
    ensures { result ≡ story_marks.fate_lost number fate.now }
{
    match fate {
        Fate::Missed => Fate::Lost { event: number },
        _ => *fate,
    }
}

fn heard(number: usize, node: u32, answer: Answer, course: &Course) -> Course
    ensures { result ≡ story_marks.heard number node answer course.now }
{
    if is_for(course.to, node) {
        return Course {
            story: course.story,
            to: course.to,
            fate: fate_after(number, answer, &course.fate),
            bears: course.bears,
            overheard: course.overheard,
            search: course.search,
        };
    }
    Course {
        story: course.story,
        to: course.to,
        fate: course.fate,
        bears: course.bears,
        overheard: true,
        search: course.search,
    }
}

fn lost(number: usize, course: &Course) -> Course
    ensures { result ≡ story_marks.lost number course.now }
{
    Course {
        story: course.story,
        to: course.to,
        fate: fate_lost(number, &course.fate),
        bears: course.bears,
        overheard: course.overheard,
        search: course.search,
    }
}

fn hear(courses: &mut Vec<Course>, flight: usize, number: usize, node: u32, answer: Answer)
    ensures { courses.new.items ≡ changed_at flight (story_marks.heard number node answer) courses.old.items }
{
    if flight == 0 {
        return;
    }
    let Some(old) = courses.get(flight - 1) else {
        return;
    };
    let new = heard(number, node, answer, old);
    courses[flight - 1] = new;
}

fn lose(courses: &mut Vec<Course>, flight: usize, number: usize)
    ensures { courses.new.items ≡ changed_at flight (story_marks.lost number) courses.old.items }
{
    if flight == 0 {
        return;
    }
    let Some(old) = courses.get(flight - 1) else {
        return;
    };
    let new = lost(number, old);
    courses[flight - 1] = new;
}

fn lose_by(courses: &mut Vec<Course>, act: &Act, number: usize)
    ensures { courses.new.items ≡ story_marks.lost_by act.now number courses.old.items }
{
    match act {
        Act::Lose { flight } => lose(courses, *flight as usize, number),
        _ => {}
    }
}

/// What an event of this number does to the flights, each by its number from 1.
pub fn change_courses(courses: &mut Vec<Course>, event: &RecordedEvent, number: usize)
    ensures { courses.new.items ≡ story_marks.courses_by event.now number courses.old.items }
{
    let node = actor_of(&event.act);
    hear(courses, event.came as usize, number, node, event.answer);
    lose_by(courses, &event.act, number);
}
