//! The run that charts are drawn of.
ghost use Rattle.std.specs.Prelude.{◌≡◌, map, string_bytes};
ghost use Rattle.line_record.specs.RunRecords.{numbered};
ghost use Rattle.run_charts.specs.Runs as spec_runs;

use line_record::{Course, Fate, Pasts, RecordedEvent, RecordedFlight, RunRecord};
use std::alloc::Global;
use std::marker::Model;

/// The run that charts are drawn of. Events and flights have numbers from 1, nodes from 0.
#[derive(Drop)]
pub struct ChartRun<'a> {
    /// Where texts are made.
    pub alloc: Global,
    /// The run.
    pub run_record: &'a RunRecord,
    /// What became of each flight.
    pub courses: &'a [Course],
    /// The sentence of each event. What came to a node that it is not for has no words.
    pub sentences: &'a [String],
    /// What the script says before each event. No words where it says nothing.
    pub notes: &'a [String],
    /// What the nodes were.
    pub pasts: &'a Pasts,
}

impl<'a> Model for ChartRun<'a> {
    ghost use Rattle.std.specs.Prelude.{map, string_bytes};
    ghost use Rattle.run_charts.specs.Runs.{Run};

    ghost Value = { Run };

    ghost view = { λ r. record {
      events = r.run_record.now.events.items;
      flights = r.run_record.now.flights.items;
      courses = r.courses.now;
      sentences = map string_bytes r.sentences.now;
      notes = map string_bytes r.notes.now;
      pasts = r.pasts.now;
    } };
}

// The text of an event, no words where there is none.
fn text_at<'a>(texts: &'a [String], event: usize) -> &'a str
    ensures { result.now ≡ spec_runs.text_at (map string_bytes texts.now) event }
{
    if event == 0 {
        return "";
    }
    match texts.get(event - 1) {
        Some(text) => text.as_str(),
        None => "",
    }
}

/// Whether a flight never came to the node that it is for.
pub fn is_missed(fate: &Fate) -> bool
    ensures { result ≡ spec_runs.is_missed fate.now }
{
    match fate {
        Fate::Missed => true,
        Fate::Lost { .. } => true,
        _ => false,
    }
}

impl<'a> ChartRun<'a> {
    /// The event of a number, if there is one.
    pub fn event(&self, number: usize) -> Option<RecordedEvent>
        ensures { result ≡ numbered self.now.events number }
    {
        self.run_record.event(number).copied()
    }

    /// The flight of a number, if there is one.
    pub fn flight(&self, number: usize) -> Option<RecordedFlight>
        ensures { result ≡ numbered self.now.flights number }
    {
        self.run_record.flight(number).copied()
    }

    /// What became of the flight of a number, if there is one.
    pub fn course(&self, number: usize) -> Option<Course>
        ensures { result ≡ numbered self.now.courses number }
    {
        if number == 0 {
            return None;
        }
        self.courses.get(number - 1).copied()
    }

    /// The sentence of an event, no words where there is none.
    #[tactic(auto, unfolding(crate::specs::Runs::why))]
    pub fn why(&self, event: usize) -> &'a str
        ensures { result.now ≡ spec_runs.why self.now event }
    {
        text_at(self.sentences, event)
    }

    /// What the script says before an event, no words where it says nothing.
    #[tactic(auto, unfolding(crate::specs::Runs::note))]
    pub fn note(&self, event: usize) -> &'a str
        ensures { result.now ≡ spec_runs.note self.now event }
    {
        text_at(self.notes, event)
    }

    /// Whether a frame came to a node that it is not for.
    #[tactic(auto, unfolding(crate::specs::Runs::is_hushed))]
    pub fn is_hushed(&self, event: usize) -> bool
        ensures { result ≡ spec_runs.is_hushed self.now event }
    {
        self.why(event).is_empty()
    }

    /// The node that a flight is for, if it never came there.
    #[tactic(auto, unfolding(crate::specs::Runs::missed_at))]
    pub fn missed_at(&self, flight: usize) -> Option<u32>
        ensures { result ≡ spec_runs.missed_at self.now flight }
    {
        let Some(course) = self.course(flight) else {
            return None;
        };
        if is_missed(&course.fate) {
            return course.to;
        }
        None
    }
}
