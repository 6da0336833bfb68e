//! Why a reading did not come.

use crate::journal::{Journal, Note};
use crate::reading::Reading;
use crate::remark::{Said, Why};
use crate::run::{Run, numbered};
use line_events::Answer;
use line_record::{Course, Fate, Verdict, verdict_of};
use line_script::answer_word;

/// Why a reading, or a frame to one node, did not come.
#[derive(Clone, Copy, Debug, PartialEq, Eq)]
pub enum Reason {
    /// Nothing was sent, and the meter had no power.
    Power,
    /// Nothing was sent.
    NotSent,
    /// The link between two nodes was down.
    LinkDown,
    /// There was noise on the line.
    NoiseHour,
    /// The node that a frame is for had no power.
    NextOff,
    /// A frame never came, for what a remark says.
    Said(Why),
    /// A frame never came, and no remark that the run bears out says why.
    Unknown,
    /// A node refused it, or could not pass it on.
    Refused(Answer),
    /// No route was found.
    NoRoute,
    /// It was on its way when the script ended.
    Open,
}

/// What ended the last try of a reading.
#[derive(Clone, Copy, Debug, PartialEq, Eq)]
pub struct Cause {
    /// Why.
    pub reason: Reason,
    /// The frame that never came to the node that it is for, by its number from 1: it carried the reading, or the reply to a route request for it. 0
    /// where it was another thing.
    pub flight: usize,
}

// A cause that is no frame.
fn plain(reason: Reason) -> Cause {
    Cause { reason, flight: 0 }
}

fn said_word(why: Why) -> &'static str {
    match why {
        Why::Collision => "collision",
        Why::Noise => "noise",
        Why::Off => "off",
        Why::Withheld => "withheld",
        Why::Busy => "busy",
    }
}

impl Reason {
    /// Its word in a table: of a refusal the word of the report.
    pub fn word(self) -> &'static str {
        match self {
            Reason::Power => "power",
            Reason::NotSent => "not_sent",
            Reason::LinkDown => "link_down",
            Reason::NoiseHour => "noise_hour",
            Reason::NextOff => "next_off",
            Reason::Said(why) => said_word(why),
            Reason::Unknown => "unknown",
            Reason::Refused(answer) => answer_word(answer),
            Reason::NoRoute => "no_route",
            Reason::Open => "open",
        }
    }
}

/// Whether a time is within so long of another one.
fn covers(at: u64, lasts: u64, time: u64) -> bool {
    at <= time && time <= at.saturating_add(lasts)
}

/// Whether a node had no power at a time, as a remark says.
pub fn is_off(journal: &Journal, node: u32, time: u64) -> bool {
    journal.notes.iter().any(|note| match note.said {
        Said::Power { node: off, lasts } => off == node && covers(note.at, lasts, time),
        _ => false,
    })
}

fn is_noisy(journal: &Journal, time: u64) -> bool {
    journal.notes.iter().any(|note| match note.said {
        Said::Noise { lasts } => covers(note.at, lasts, time),
        _ => false,
    })
}

fn is_down(journal: &Journal, one: u32, other: u32, time: u64) -> bool {
    journal.notes.iter().any(|note| match note.said {
        Said::Link { a, b, lasts } => {
            ((a == one && b == other) || (a == other && b == one)) && covers(note.at, lasts, time)
        }
        _ => false,
    })
}

/// Whether a flight never came to the node that it is for, by the run.
pub fn is_lost(course: &Course) -> bool {
    match course.fate {
        Fate::Missed => true,
        Fate::Lost { .. } => true,
        _ => false,
    }
}

/// Whether the run bears out what a remark says of a lost frame: there is such a frame, of this sender and to this node, and it never came.
pub fn is_borne_out(run: &Run<'_>, flight: u32, from: u32, to: Option<u32>, why: Why) -> bool {
    let Some(flown) = numbered(run.flights, flight as usize) else {
        return false;
    };
    let Some(course) = numbered(run.courses, flight as usize) else {
        return false;
    };
    if u32::from(flown.from) != from || (to.is_some() && course.to != to) {
        return false;
    }
    is_lost(course) || why == Why::Withheld
}

// Why a frame that noise destroyed never came.
fn noise_at(journal: &Journal, from: u32, to: u32, time: u64) -> Reason {
    if is_down(journal, from, to, time) {
        return Reason::LinkDown;
    }
    if is_noisy(journal, time) {
        return Reason::NoiseHour;
    }
    Reason::Said(Why::Noise)
}

// Why a frame to a node never came, by the word of its remark and the remarks that cover that time.
fn reason_at(journal: &Journal, from: u32, to: u32, time: u64, why: Why) -> Reason {
    match why {
        Why::Noise => noise_at(journal, from, to, time),
        Why::Off => {
            if is_off(journal, to, time) {
                return Reason::NextOff;
            }
            Reason::Said(why)
        }
        _ => Reason::Said(why),
    }
}

// What a remark says of a lost flight, where it is of this one, and the run bears it out.
fn said_of(
    journal: &Journal,
    run: &Run<'_>,
    note: &Note,
    number: usize,
    course: &Course,
) -> Option<Reason> {
    let Said::Lost {
        flight,
        from,
        to,
        why,
    } = note.said
    else {
        return None;
    };
    if flight as usize != number || !is_borne_out(run, flight, from, to, why) {
        return None;
    }
    match course.to {
        None => Some(Reason::Said(why)),
        Some(to) => Some(reason_at(journal, from, to, note.at, why)),
    }
}

/// Why a flight never came, by the last remark on it that the run bears out.
pub fn loss_of(journal: &Journal, run: &Run<'_>, number: usize) -> Reason {
    let Some(course) = numbered(run.courses, number) else {
        return Reason::Unknown;
    };
    let mut reason = Reason::Unknown;
    for note in &journal.notes {
        if let Some(said) = said_of(journal, run, note, number, course) {
            reason = said;
        }
    }
    reason
}

// The event at which a flight ended, where it came to its node and did not go on.
fn ended_at(course: &Course) -> Option<usize> {
    match course.fate {
        Fate::Refused { event } => Some(event),
        Fate::Reported { event } => Some(event),
        _ => None,
    }
}

fn refused_at(run: &Run<'_>, event: usize) -> Reason {
    match numbered(run.events, event) {
        Some(recorded) => Reason::Refused(recorded.answer),
        None => Reason::Open,
    }
}

// What ended a flight that did not go on.
fn flight_cause(journal: &Journal, run: &Run<'_>, number: usize) -> Cause {
    let Some(course) = numbered(run.courses, number) else {
        return plain(Reason::NoRoute);
    };
    if is_lost(course) {
        return Cause {
            reason: loss_of(journal, run, number),
            flight: number,
        };
    }
    match ended_at(course) {
        Some(event) => plain(refused_at(run, event)),
        None => plain(Reason::Open),
    }
}

// Why a datagram never left, by the last flight that should have made a way for it.
fn unrouted(journal: &Journal, run: &Run<'_>, last: usize) -> Cause {
    let Some(course) = numbered(run.courses, last) else {
        return plain(Reason::NoRoute);
    };
    if course.to.is_some() && is_lost(course) {
        return flight_cause(journal, run, last);
    }
    plain(Reason::NoRoute)
}

fn unsent(journal: &Journal, reading: &Reading) -> Cause {
    if is_off(journal, reading.node, reading.tried) {
        return plain(Reason::Power);
    }
    plain(Reason::NotSent)
}

/// Why a reading did not come, by what ended its last try.
pub fn cause_of(journal: &Journal, run: &Run<'_>, reading: &Reading) -> Cause {
    let Some(story) = numbered(run.stories, reading.story) else {
        return unsent(journal, reading);
    };
    let Some(ends) = numbered(run.ends, reading.story) else {
        return plain(Reason::Open);
    };
    let Some(event) = numbered(run.events, story.first) else {
        return plain(Reason::Open);
    };
    match verdict_of(story, ends, event) {
        Verdict::Ended { flight } => flight_cause(journal, run, flight),
        Verdict::NeverLeft { last } => unrouted(journal, run, last),
        _ => plain(Reason::Open),
    }
}
