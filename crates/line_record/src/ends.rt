//! The ends of stories: their last flights, and the first with the datagram that did not go on.
ghost use Rattle.std.specs.Prelude.{◌≡◌, IfOk};
ghost use Rattle.line_record.specs.Verdicts as spec_verdicts;

use crate::course::{Course, Fate};
use std::alloc::{AllocError, Global};

/// What there is of the flights of a story, by their numbers from 1; 0 if there is none.
#[derive(Clone, Copy)]
pub struct Ends {
    /// The last one.
    pub last: usize,
    /// The last that carries the datagram of the story, or a piece or a joining message of it.
    pub borne: usize,
    /// Whether one does.
    pub bears: bool,
    /// The first of these that did not go on.
    pub broken: usize,
}

/// Whether the node that a flight is for went on with it.
pub fn went_on(fate: &Fate) -> bool
    ensures { result ≡ spec_verdicts.went_on fate.now }
{
    match fate {
        Fate::WentOn { .. } => true,
        _ => false,
    }
}

/// The first of two numbers that is not 0.
pub fn first_nonzero(before: usize, number: usize) -> usize
    ensures { result ≡ spec_verdicts.first_nonzero before number }
{
    if before == 0 {
        return number;
    }
    before
}

// With one more flight that carries the datagram, or a piece of it.
fn with_bearer(number: usize, went: bool, ends: &Ends) -> Ends
    ensures { result ≡ spec_verdicts.with_bearer number went ends.now }
{
    if went {
        return Ends {
            last: number,
            borne: number,
            bears: true,
            broken: ends.broken,
        };
    }
    Ends {
        last: number,
        borne: number,
        bears: true,
        broken: first_nonzero(ends.broken, number),
    }
}

fn with_flight(number: usize, course: &Course, ends: &Ends) -> Ends
    ensures { result ≡ spec_verdicts.with_flight number course.now ends.now }
{
    if course.bears {
        return with_bearer(number, went_on(&course.fate), ends);
    }
    Ends {
        last: number,
        borne: ends.borne,
        bears: ends.bears,
        broken: ends.broken,
    }
}

// One more flight.
fn add_flight(ends: &mut [Ends], number: usize, course: &Course)
    ensures { ends.new ≡ spec_verdicts.ends_after number course.now ends.old }
{
    if course.story == 0 {
        return;
    }
    let Some(old) = ends.get(course.story - 1) else {
        return;
    };
    let new = with_flight(number, course, old);
    ends[course.story - 1] = new;
}

fn add_flights(ends: &mut [Ends], courses: &[Course])
    ensures { ends.new ≡ spec_verdicts.ends_from 1 courses.now ends.old }
{
    for (i, course) in courses.iter().enumerate() {
        add_flight(ends, i + 1, course);
    }
}

/// The ends of this many stories, by their numbers from 1: of the flights, each by its number from 1.
///
/// It fails only where memory runs out.
pub fn ends_of(alloc: Global, count: usize, courses: &[Course]) -> Result<Vec<Ends>, AllocError>
    ensures { IfOk result (λ ends. ends.items ≡ spec_verdicts.ends_of count courses.now) }
{
    let mut ends = Vec::new(alloc);
    ends.resize(
        count,
        Ends {
            last: 0,
            borne: 0,
            bears: false,
            broken: 0,
        },
    )?;
    add_flights(ends.as_mut_slice(), courses);
    Ok(ends)
}
