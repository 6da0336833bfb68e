//! The rows of a chart.
ghost use Rattle.std.specs.Prelude.{◌≡◌, ◌<◌, ◌≤◌, ◌^◌, IfOk, OnOk};
ghost use Rattle.run_charts.specs.Rows as spec_rows;

use crate::run::ChartRun;
use line_record::{Act, RecordedEvent, is_setup, prepares};
use std::alloc::AllocError;

/// A row of a chart: events that follow each other in the list of its events, by their places there from 0.
#[derive(Clone, Copy, Debug, PartialEq, Eq)]
pub struct Row {
    /// The first of them.
    pub start: usize,
    /// The place after the last of them.
    pub end: usize,
    /// The main one, whose sentence the row shows.
    pub main: usize,
    /// How many lines of the chart are before it: rows, and what the script says before them.
    pub line: usize,
}

/// How an event stands to the row before it.
#[derive(Clone, Copy, Debug, PartialEq, Eq)]
pub enum Joint {
    /// It begins a row.
    Apart,
    /// It belongs to the row.
    Along,
    /// It belongs to the row, and becomes its main event.
    Over,
}

/// The flight that comes to a node at an event, 0 where none does.
pub fn flight_heard(act: &Act) -> usize
    ensures { result ≡ spec_rows.flight_heard act.now }
{
    match act {
        Act::Deliver { flight, .. } => *flight as usize,
        _ => 0,
    }
}

fn prepares_one(act: &Act) -> bool
    ensures { result ≡ spec_rows.prepares_one act.now }
{
    match prepares(act) {
        None => false,
        Some(_) => true,
    }
}

// Whether both are lines of the setup, or both ready nodes for a joining.
#[tactic(auto, unfolding(crate::specs::Rows::is_alike))]
fn is_alike(act: &Act, other: &Act) -> bool
    ensures { result ≡ spec_rows.is_alike act.now other.now }
{
    (is_setup(act) && is_setup(other)) || (prepares_one(act) && prepares_one(other))
}

#[tactic(auto, unfolding(crate::specs::Rows::is_same_flight))]
fn is_same_flight(act: &Act, other: &Act) -> bool
    ensures { result ≡ spec_rows.is_same_flight act.now other.now }
{
    flight_heard(act) == flight_heard(other) && flight_heard(act) != 0
}

// How an event stands to the main event of the row before it. Of each, the flag says whether it has no sentence.
#[tactic(auto, unfolding(crate::specs::Rows::joint_between))]
fn joint_between(
    recorded: &RecordedEvent,
    hushed: bool,
    main: &RecordedEvent,
    main_hushed: bool,
) -> Joint
    ensures { result ≡ spec_rows.joint_between recorded.now hushed main.now main_hushed }
{
    if is_alike(&recorded.act, &main.act) {
        return Joint::Along;
    }
    if !is_same_flight(&recorded.act, &main.act) {
        return Joint::Apart;
    }
    if hushed {
        return Joint::Along;
    }
    if main_hushed {
        return Joint::Over;
    }
    Joint::Apart
}

/// The number at a place of a list, 0 if there is none.
#[tactic(auto, unfolding(crate::specs::Rows::number_at))]
pub fn number_at(numbers: &[usize], place: usize) -> usize
    ensures { result ≡ spec_rows.number_at numbers.now place }
{
    match numbers.get(place) {
        Some(number) => *number,
        None => 0,
    }
}

/// The events of a row.
#[tactic(auto, unfolding(crate::specs::Rows::members))]
pub fn members<'a>(events: &'a [usize], row: &Row) -> &'a [usize]
    ensures { result.now ≡ spec_rows.members events.now row.now }
{
    let start = row.start.min(events.len());
    let rest = &events[start..];
    let count = row.end.saturating_sub(row.start).min(rest.len());
    &rest[..count]
}

// How many lines what the script says before an event takes.
fn note_lines(note: &str) -> usize
    ensures value { result ≡ spec_rows.note_lines note.now }
    ensures bound { result ≤ 1 }
{
    if note.is_empty() {
        return 0;
    }
    1
}

/// The line after a row, 0 if there is none.
pub fn line_after(last: Option<Row>) -> usize
    ensures value { result ≡ spec_rows.line_after last }
    ensures bound { result < 2 ^ 17 }
{
    match last {
        None => 0,
        Some(row) => row.line.min(100_000) + 1,
    }
}

// A row with the event at a place more, if that belongs to it.
fn joined_row(joint: Joint, row: Row, place: usize) -> Option<Row>
    requires { place < 2 ^ 63 }
    ensures { result ≡ spec_rows.joined_row joint row place }
{
    match joint {
        Joint::Apart => None,
        Joint::Along => Some(Row {
            start: row.start,
            end: place + 1,
            main: row.main,
            line: row.line,
        }),
        Joint::Over => Some(Row {
            start: row.start,
            end: place + 1,
            main: place,
            line: row.line,
        }),
    }
}

impl<'a> ChartRun<'a> {
    // How the event with a number stands to the one with another number, the main event of the row before it.
    #[tactic(auto, unfolding(crate::specs::Rows::joint_of))]
    fn joint_of(&self, event: usize, main: usize) -> Joint
        ensures { result ≡ spec_rows.joint_of self.now event main }
    {
        if !self.note(event).is_empty() {
            return Joint::Apart;
        }
        let Some(recorded) = self.event(event) else {
            return Joint::Apart;
        };
        let Some(before) = self.event(main) else {
            return Joint::Apart;
        };
        joint_between(
            &recorded,
            self.is_hushed(event),
            &before,
            self.is_hushed(main),
        )
    }

    // Begins a row with the event at a place.
    #[tactic(auto, unfolding(crate::specs::Rows::row_begun))]
    fn begin_row(&self, rows: &mut Vec<Row>, event: usize, place: usize) -> Result<(), AllocError>
        requires { place < 2 ^ 63 }
        ensures { OnOk result (rows.new.items ≡ spec_rows.row_begun self.now event place rows.old.items) }
    {
        let last = rows.last().copied();
        let line = line_after(last) + note_lines(self.note(event));
        rows.push(Row {
            start: place,
            end: place + 1,
            main: place,
            line,
        })?;
        Ok(())
    }

    // Adds the event at a place to the rows.
    #[tactic(auto, unfolding(crate::specs::Rows::with_event))]
    fn push_event(
        &self,
        rows: &mut Vec<Row>,
        events: &[usize],
        place: usize,
    ) -> Result<(), AllocError>
        requires { place < 2 ^ 63 }
        ensures { OnOk result (rows.new.items ≡ spec_rows.with_event self.now events.now place rows.old.items) }
    {
        let event = number_at(events, place);
        let Some(last) = rows.last().copied() else {
            return self.begin_row(rows, event, place);
        };
        let joint = self.joint_of(event, number_at(events, last.main));
        let Some(row) = joined_row(joint, last, place) else {
            return self.begin_row(rows, event, place);
        };
        let at = rows.len() - 1;
        rows[at] = row;
        Ok(())
    }

    /// The rows of a chart of these events.
    #[tactic(auto, unfolding(crate::specs::Rows::rows_of))]
    pub fn rows(&self, events: &[usize]) -> Result<Vec<Row>, AllocError>
        ensures { IfOk result (λ rows. rows.items ≡ spec_rows.rows_of self.now events.now) }
    {
        let mut rows = Vec::new(self.alloc);
        for place in 0..events.len() {
            self.push_event(&mut rows, events, place)?;
        }
        Ok(rows)
    }
}
