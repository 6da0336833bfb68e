//! The readings of a run.
ghost use Rattle.std.specs.Prelude.{◌≡◌, All, IfOk, List};
ghost use Rattle.line_readings.specs.Readings.{IsHandedUp, IsTrueOf};

use crate::journal::{Journal, Note, time_of};
use crate::remark::Said;
use crate::run::{Run, reached_in};
use line_record::Story;
use std::alloc::{AllocError, Global};
use std::collections::BTreeMap;

/// That a reading came.
#[derive(Clone, Copy, Debug, PartialEq, Eq)]
pub struct Came {
    /// The event at which the coordinator handed it up first.
    pub event: usize,
    /// When, in thousandths of a second.
    pub at: u64,
    /// By which of its tries, from 1.
    pub nth: u32,
}

/// A reading: of a meter, in a round. Times are thousandths of a second.
#[derive(Clone, Copy)]
pub struct Reading {
    /// The meter.
    pub node: u32,
    /// The round, from 1.
    pub round: u32,
    /// When it was tried first.
    pub due: u64,
    /// How often it was tried.
    pub tries: u32,
    /// When it was tried last.
    pub tried: u64,
    /// The story of the datagram of its last try; 0 where nothing was sent. Where the meter was asked and did not answer, that of the request.
    pub story: usize,
    /// That it came, where it did.
    pub came: Option<Came>,
}

/// A reading that came in more than this many thousandths of a second is late.
pub const LATE: u64 = 60_000;

impl Reading {
    /// Whether it came by its first try, in time.
    pub fn is_first(&self) -> bool {
        match self.came {
            None => false,
            Some(came) => came.nth <= 1 && came.at.saturating_sub(self.due) <= LATE,
        }
    }
}

// A try of a reading: when, the how manyth, the story of the datagram that it sent, and whether that is the reading and not a request for it.
#[derive(Clone, Copy)]
struct Attempt {
    at: u64,
    nth: u32,
    story: usize,
    brings: bool,
}

// The story by which a meter answered to a request that the event of a number sent; 0 where it did not.
fn reply_of(run: &Run<'_>, asked: usize, ask: usize, node: u32) -> usize {
    match reached_in(run.stories, ask) {
        Some(got) => run.reply_to(asked, got, node),
        None => 0,
    }
}

// What a try sent.
fn attempt_of(run: &Run<'_>, event: usize, node: u32, at: u64, nth: u32) -> Attempt {
    let own = run.sent_at(event, node, 0);
    if own > 0 {
        return Attempt {
            at,
            nth,
            story: own,
            brings: true,
        };
    }
    let ask = run.sent_at(event, 0, node);
    let reply = reply_of(run, event, ask, node);
    if reply > 0 {
        return Attempt {
            at,
            nth,
            story: reply,
            brings: true,
        };
    }
    Attempt {
        at,
        nth,
        story: ask,
        brings: false,
    }
}

// When a try brought the reading, if it did.
fn came_by(times: &[u64], stories: &[Story], attempt: &Attempt) -> Option<Came>
    ensures { IsHandedUp stories.now result }
{
    if !attempt.brings {
        return None;
    }
    let event = reached_in(stories, attempt.story)?;
    Some(Came {
        event,
        at: time_of(times, event).max(attempt.at),
        nth: attempt.nth,
    })
}

// The earlier one of two, by the event at which it came.
fn earlier(before: Option<Came>, came: Option<Came>) -> Option<Came>
    ensures { (stories : List Story) → IsHandedUp stories before → IsHandedUp stories came → IsHandedUp stories result }
{
    let Some(one) = before else {
        return came;
    };
    let Some(other) = came else {
        return before;
    };
    if other.event < one.event {
        return came;
    }
    before
}

// A reading with one try more.
fn with_try(reading: &Reading, attempt: &Attempt, came: Option<Came>) -> Reading
    ensures { (stories : List Story) → IsTrueOf stories reading.now → IsHandedUp stories came → IsTrueOf stories result }
{
    Reading {
        node: reading.node,
        round: reading.round,
        due: reading.due,
        tries: reading.tries.saturating_add(1),
        tried: attempt.at,
        story: attempt.story,
        came: earlier(reading.came, came),
    }
}

// A reading of one try.
fn new_reading(node: u32, round: u32, attempt: &Attempt, came: Option<Came>) -> Reading
    ensures { result.came ≡ came }
{
    Reading {
        node,
        round,
        due: attempt.at,
        tries: 1,
        tried: attempt.at,
        story: attempt.story,
        came,
    }
}

// Takes a try of the reading at a place, or of a new one, where none is there.
fn take_try(
    readings: &mut Vec<Reading>,
    place: usize,
    key: (u32, u32),
    attempt: &Attempt,
    came: Option<Came>,
) -> Result<(), AllocError>
    ensures { (stories : List Story) → All (IsTrueOf stories) readings.old.items → IsHandedUp stories came
        → All (IsTrueOf stories) readings.new.items }
{
    let Some(old) = readings.get(place) else {
        readings.push(new_reading(key.0, key.1, attempt, came))?;
        return Ok(());
    };
    let new = with_try(old, attempt, came);
    readings[place] = new;
    Ok(())
}

// The place of the reading of a meter in a round, that of the next one where it is new.
fn place_of(
    places: &mut BTreeMap<(u32, u32), usize>,
    key: (u32, u32),
    next: usize,
) -> Result<usize, AllocError> {
    if let Some(place) = places.get(&key) {
        return Ok(*place);
    }
    places.insert(key, next)?;
    Ok(next)
}

// Whether a node is among the meters.
fn is_meter(meters: &[u32], node: u32) -> bool {
    meters.binary_search(&node).is_ok()
}

// Takes what a remark says of a try.
fn take_note(
    readings: &mut Vec<Reading>,
    places: &mut BTreeMap<(u32, u32), usize>,
    times: &[u64],
    run: &Run<'_>,
    meters: &[u32],
    note: &Note,
) -> Result<(), AllocError>
    ensures { All (IsTrueOf run.now.stories.now) readings.old.items → All (IsTrueOf run.now.stories.now) readings.new.items }
{
    let Said::Try { node, round, nth } = note.said else {
        return Ok(());
    };
    if !is_meter(meters, node) {
        return Ok(());
    }
    let attempt = attempt_of(run, note.event, node, note.at, nth);
    let came = came_by(times, run.stories, &attempt);
    let place = place_of(places, (node, round), readings.len())?;
    take_try(readings, place, (node, round), &attempt, came)
}

/// The readings of the meters of a run, in the order in which they were due.
///
/// It fails only where memory runs out.
pub fn readings_of(
    alloc: Global,
    journal: &Journal,
    run: &Run<'_>,
    meters: &[u32],
) -> Result<Vec<Reading>, AllocError>
    ensures { IfOk result (λ readings. All (IsTrueOf run.now.stories.now) readings.items) }
{
    let mut readings: Vec<Reading> = Vec::new(alloc);
    let mut places: BTreeMap<(u32, u32), usize> = BTreeMap::new(alloc);
    for note in journal.tries() {
        take_note(
            &mut readings,
            &mut places,
            journal.times.as_slice(),
            run,
            meters,
            note,
        )?;
    }
    Ok(readings)
}
