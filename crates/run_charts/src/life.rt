//! The lifelines of a chart: what a node is, row by row.
ghost use Rattle.std.specs.Prelude.{◌≡◌, ◌++◌, IfOk, None, OnOk, Some};
ghost use Rattle.markup.specs.Markups.{markup_text};
ghost use Rattle.run_charts.specs.Lives as lives;

use crate::drawing::{line_y, push_lifeline};
use crate::row::{Row, number_at};
use crate::run::ChartRun;
use line_record::{Change, Mode, is_same};
use std::alloc::{AllocError, Global};

/// From this height on, a node is this.
#[derive(Clone, Copy, Debug, PartialEq, Eq)]
pub struct Stretch {
    /// The height, in pixels from the top.
    pub top: usize,
    /// What it is, None before it is made.
    pub mode: Option<Mode>,
}

// The class of the line of a node that is this.
fn life_class(mode: Option<Mode>) -> &'static str
    ensures { result.now ≡ lives.life_class mode }
{
    match mode {
        None => "L none",
        Some(mode) => mode_class(mode),
    }
}

fn mode_class(mode: Mode) -> &'static str
    ensures { result.now ≡ lives.mode_class mode }
{
    match mode {
        Mode::Out => "L out",
        Mode::Key0 => "L k0",
        Mode::Key1 => "L k1",
        Mode::Halted => "L halt",
    }
}

// What a node is after an event that was this, and then changed at some event.
#[tactic(auto, unfolding(crate::specs::Lives::mode_with))]
fn mode_with(change: &Change, event: usize, mode: Option<Mode>) -> Option<Mode>
    ensures { result ≡ lives.mode_with change.now event mode }
{
    if change.event <= event {
        return Some(change.mode);
    }
    mode
}

// What a node is after an event, by its changes in their order.
#[tactic(auto, unfolding(crate::specs::Lives::mode_after))]
fn mode_after(changes: &[Change], event: usize) -> Option<Mode>
    ensures { result ≡ lives.mode_after changes.now event }
{
    let mut mode = None;
    for change in changes {
        mode = mode_with(change, event, mode);
    }
    mode
}

fn is_as(mode: Option<Mode>, other: Option<Mode>) -> bool
    ensures { result ≡ lives.is_as mode other }
{
    match mode {
        None => is_none(other),
        Some(mode) => is_mode(mode, other),
    }
}

fn is_none(mode: Option<Mode>) -> bool
    ensures { result ≡ lives.is_as None mode }
{
    match mode {
        None => true,
        Some(_) => false,
    }
}

fn is_mode(mode: Mode, other: Option<Mode>) -> bool
    ensures { result ≡ lives.is_as (Some mode) other }
{
    match other {
        None => false,
        Some(other) => is_same(mode, other),
    }
}

fn ends_as(last: Option<Stretch>, mode: Option<Mode>) -> bool
    ensures { result ≡ lives.ends_as last mode }
{
    match last {
        None => false,
        Some(last) => is_as(last.mode, mode),
    }
}

// A node is this from a height on.
#[tactic(auto, unfolding(crate::specs::Lives::with_mode))]
fn push_mode(stretches: &mut Vec<Stretch>, top: usize, mode: Option<Mode>) -> Result<(), AllocError>
    ensures { OnOk result (stretches.new.items ≡ lives.with_mode top mode stretches.old.items) }
{
    if ends_as(stretches.last().copied(), mode) {
        return Ok(());
    }
    stretches.push(Stretch { top, mode })?;
    Ok(())
}

// The end of a stretch: the beginning of the next one, or the end of the line.
fn end_of(stretches: &[Stretch], place: usize, bottom: usize) -> usize
    ensures { result ≡ lives.end_of stretches.now place bottom }
{
    match stretches.get(place) {
        None => bottom,
        Some(next) => next.top,
    }
}

// The line of a stretch, down to a height.
#[tactic(auto, unfolding(crate::specs::Lives::stretch_line))]
fn push_stretch(
    out: &mut Vec<u8>,
    alloc: Global,
    x: usize,
    stretch: &Stretch,
    bottom: usize,
) -> Result<(), AllocError>
    ensures { OnOk result (out.new.items ≡ out.old.items ++ markup_text (lives.stretch_line x stretch.now bottom)) }
{
    push_lifeline(out, alloc, life_class(stretch.mode), x, stretch.top, bottom)
}

#[tactic(auto, unfolding(crate::specs::Lives::all_stretches))]
fn push_stretches(
    out: &mut Vec<u8>,
    alloc: Global,
    x: usize,
    list: &[Stretch],
    bottom: usize,
) -> Result<(), AllocError>
    ensures { OnOk result (out.new.items ≡ out.old.items ++ markup_text (lives.all_stretches x list.now bottom)) }
{
    for (place, stretch) in list.iter().enumerate() {
        let end = end_of(list, place + 1, bottom);
        push_stretch(out, alloc, x, stretch, end)?;
    }
    Ok(())
}

// With what a node is from a row on.
#[tactic(auto, unfolding(crate::specs::Lives::with_row))]
fn push_row_mode(
    stretches: &mut Vec<Stretch>,
    changes: &[Change],
    events: &[usize],
    row: &Row,
) -> Result<(), AllocError>
    ensures { OnOk result (stretches.new.items ≡ lives.with_row changes.now events.now row.now stretches.old.items) }
{
    let event = number_at(events, row.end.saturating_sub(1));
    push_mode(stretches, line_y(row.line), mode_after(changes, event))
}

// What a node is before the first event of a chart.
#[tactic(auto, unfolding(crate::specs::Lives::first_stretch))]
fn first_stretch(
    alloc: Global,
    changes: &[Change],
    events: &[usize],
) -> Result<Vec<Stretch>, AllocError>
    ensures { IfOk result (λ list. list.items ≡ lives.first_stretch changes.now events.now) }
{
    let mut list = Vec::new(alloc);
    let before = number_at(events, 0).saturating_sub(1);
    push_mode(&mut list, 30, mode_after(changes, before))?;
    Ok(list)
}

#[tactic(auto, unfolding(crate::specs::Lives::stretches_of))]
fn stretches(
    alloc: Global,
    changes: &[Change],
    events: &[usize],
    rows: &[Row],
) -> Result<Vec<Stretch>, AllocError>
    ensures { IfOk result (λ list. list.items ≡ lives.stretches_of changes.now events.now rows.now) }
{
    let mut list = first_stretch(alloc, changes, events)?;
    for row in rows {
        push_row_mode(&mut list, changes, events, row)?;
    }
    Ok(list)
}

impl<'a> ChartRun<'a> {
    /// Appends the lifeline of a node, down to a height.
    #[tactic(auto, unfolding(crate::specs::Lives::life))]
    pub fn push_life(
        &self,
        out: &mut Vec<u8>,
        node: u32,
        x: usize,
        events: &[usize],
        rows: &[Row],
        bottom: usize,
    ) -> Result<(), AllocError>
        ensures { OnOk result (out.new.items ≡ out.old.items ++ markup_text (lives.life self.now node x events.now rows.now bottom)) }
    {
        let changes = self.pasts.changes(node as usize);
        let list = stretches(self.alloc, changes, events, rows)?;
        push_stretches(out, self.alloc, x, list.as_slice(), bottom)
    }
}
