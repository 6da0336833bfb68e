//! The drawing of the lanes.
ghost use Rattle.std.specs.Prelude.{◌≡◌, ◌<◌, ◌≤◌, ◌^◌, ◌++◌, IfOk, OnOk, string_bytes};
ghost use Rattle.markup.specs.Markups.{markup_text};
ghost use Rattle.run_charts.specs.Lanes as spec_lanes;

use crate::cells::{CELLS, LANES, cell_of, rank_of, ranks_of};
use crate::chart::{is_tick, name};
use crate::drawing::{push_bar, push_path};
use crate::outcome::Outcome;
use crate::run::ChartRun;
use line_record::{Change, Mode, RecordedEvent};
use markup::{Attribute, Element, count, end, given, given_number, open, push_pieces, start, text};
use sentence_parts::{number, push_parts, sentence, words};
use std::alloc::{AllocError, Global};

/// How high the lane of a node is.
#[derive(Clone, Copy, Debug, PartialEq, Eq)]
pub enum LaneSize {
    /// 16 pixels.
    High,
    /// 9 pixels.
    Middle,
    /// 4 pixels.
    Low,
}

// How high the lanes of this many nodes are.
#[tactic(auto, unfolding(crate::specs::Lanes::size_of))]
fn size_of(nodes: usize) -> LaneSize
    ensures { result ≡ spec_lanes.size_of nodes }
{
    if nodes <= 24 {
        return LaneSize::High;
    }
    if nodes <= 120 {
        return LaneSize::Middle;
    }
    LaneSize::Low
}

fn height_of(size: LaneSize) -> usize
    ensures value { result ≡ spec_lanes.height_of size }
    ensures bound { (4 ≤ result) × (result ≤ 16) }
{
    match size {
        LaneSize::High => 16,
        LaneSize::Middle => 9,
        LaneSize::Low => 4,
    }
}

// Where the lane of a node begins.
fn y_of(node: usize, size: LaneSize) -> usize
    ensures value { result ≡ spec_lanes.y_of node size }
    ensures bound { (20 ≤ result) × (result < 2 ^ 15) }
{
    match size {
        LaneSize::High => 20 + 16 * node.min(LANES),
        LaneSize::Middle => 20 + 9 * node.min(LANES),
        LaneSize::Low => 20 + 4 * node.min(LANES),
    }
}

// Where the name of a node is, from the beginning of its lane on.
fn name_drop(size: LaneSize) -> usize
    ensures value { result ≡ spec_lanes.name_drop size }
    ensures bound { result ≤ 13 }
{
    match size {
        LaneSize::High => 13,
        LaneSize::Middle => 6,
        LaneSize::Low => 6,
    }
}

// Where the event at a place is, from 0 among this many.
#[tactic(auto, unfolding(crate::specs::Lanes::x_of))]
fn x_of(place: usize, events: usize) -> usize
    ensures value { result ≡ spec_lanes.x_of place events }
    ensures bound { result < 2 ^ 11 }
{
    92 + 2 * cell_of(place, events)
}

fn mode_class(mode: Mode) -> &'static str
    ensures { result.now ≡ spec_lanes.mode_class mode }
{
    match mode {
        Mode::Out => "F out",
        Mode::Key0 => "F k0",
        Mode::Key1 => "F k1",
        Mode::Halted => "F halt",
    }
}

fn mark_class(outcome: Outcome) -> &'static str
    ensures { result.now ≡ spec_lanes.mark_class outcome }
{
    match outcome {
        Outcome::Fine => "K",
        Outcome::Good => "K up",
        Outcome::Refused => "K no",
        Outcome::Forged => "K f",
        Outcome::Overheard => "K q",
    }
}

// From a change to the place of the next one.
#[tactic(auto, unfolding(crate::specs::Lanes::change_drawing))]
fn push_change(
    out: &mut Vec<u8>,
    events: usize,
    size: LaneSize,
    node: usize,
    change: &Change,
    next: usize,
) -> Result<(), AllocError>
    ensures { OnOk result (out.new.items
        ≡ out.old.items ++ markup_text (spec_lanes.change_drawing events size node change.now next)) }
{
    let x = x_of(change.event.saturating_sub(1), events);
    let end = x_of(next, events);
    push_bar(
        out,
        mode_class(change.mode),
        x,
        y_of(node, size) + 1,
        end.saturating_sub(x),
        height_of(size) - 2,
    )
}

// Where the change of a number is among this many events; their end, where there is none.
fn next_at(changes: &[Change], number: usize, events: usize) -> usize
    ensures { result ≡ spec_lanes.next_at changes.now number events }
{
    match changes.get(number) {
        None => events,
        Some(next) => next.event.saturating_sub(1),
    }
}

// The stretches of a node.
#[tactic(auto, unfolding(crate::specs::Lanes::changes))]
fn push_changes(
    out: &mut Vec<u8>,
    events: usize,
    size: LaneSize,
    node: usize,
    changes: &[Change],
) -> Result<(), AllocError>
    ensures { OnOk result (out.new.items
        ≡ out.old.items ++ markup_text (spec_lanes.changes events size node changes.now)) }
{
    for (place, change) in changes.iter().enumerate() {
        let next = next_at(changes, place + 1, events);
        push_change(out, events, size, node, change, next)?;
    }
    Ok(())
}

#[tactic(auto, unfolding(crate::specs::Lanes::words_at))]
fn push_words_at(out: &mut Vec<u8>, number: u32, y: usize, words: &str) -> Result<(), AllocError>
    ensures { OnOk result (out.new.items ≡ out.old.items ++ markup_text (spec_lanes.words_at number y words.now)) }
{
    push_pieces(
        out,
        &[
            start(Element::Text),
            given_number(Attribute::Node, number as usize),
            given_number(Attribute::X, 86),
            given_number(Attribute::Y, y),
            given(Attribute::Anchor, "end"),
            open(),
            text(words),
            end(Element::Text),
        ],
    )
}

#[tactic(auto, unfolding(crate::specs::Lanes::name))]
fn push_name(
    out: &mut Vec<u8>,
    alloc: Global,
    number: u32,
    size: LaneSize,
) -> Result<(), AllocError>
    ensures { OnOk result (out.new.items ≡ out.old.items ++ markup_text (spec_lanes.name number size)) }
{
    let name = name(alloc, number)?;
    let y = y_of(number as usize, size) + name_drop(size);
    push_words_at(out, number, y, name.as_str())
}

// Of many nodes each tenth has its name.
fn has_name(node: u32, size: LaneSize) -> bool
    ensures { result ≡ spec_lanes.has_name node size }
{
    match size {
        LaneSize::High => true,
        LaneSize::Middle => node % 10 == 0,
        LaneSize::Low => node % 10 == 0,
    }
}

fn push_name_if(
    out: &mut Vec<u8>,
    alloc: Global,
    holds: bool,
    number: u32,
    size: LaneSize,
) -> Result<(), AllocError>
    ensures { OnOk result (out.new.items ≡ out.old.items ++ markup_text (spec_lanes.name_if holds number size)) }
{
    if holds {
        return push_name(out, alloc, number, size);
    }
    Ok(())
}

// Whether an event is a tick that is far enough from the one before it: it is from this place on.
#[tactic(auto, unfolding(crate::specs::Lanes::is_shown))]
fn is_shown(recorded: &RecordedEvent, x: usize, free: usize) -> bool
    ensures { result ≡ spec_lanes.is_shown recorded.now x free }
{
    is_tick(&recorded.act) && free <= x
}

#[tactic(auto, unfolding(crate::specs::Lanes::tick_outline))]
fn tick_outline(alloc: Global, x: usize, bottom: usize) -> Result<String, AllocError>
    ensures { IfOk result (λ outline. string_bytes outline ≡ spec_lanes.tick_outline x bottom) }
{
    sentence(
        alloc,
        &[words("M"), number(x), words(" 14V"), number(bottom)],
    )
}

#[tactic(auto, unfolding(crate::specs::Lanes::tick_line))]
fn push_tick_line(
    out: &mut Vec<u8>,
    alloc: Global,
    x: usize,
    bottom: usize,
) -> Result<(), AllocError>
    ensures { OnOk result (out.new.items ≡ out.old.items ++ markup_text (spec_lanes.tick_line x bottom)) }
{
    let outline = tick_outline(alloc, x, bottom)?;
    push_path(out, "T", outline.as_str())
}

#[tactic(auto, unfolding(crate::specs::Lanes::tick_words))]
fn push_tick_words(out: &mut Vec<u8>, x: usize, clock: u64) -> Result<(), AllocError>
    requires { x < 2 ^ 32 }
    ensures { OnOk result (out.new.items ≡ out.old.items ++ markup_text (spec_lanes.tick_words x clock)) }
{
    push_pieces(
        out,
        &[
            start(Element::Text),
            given(Attribute::Class, "c"),
            given_number(Attribute::X, x + 2),
            given_number(Attribute::Y, 12),
            open(),
            count(clock as usize),
            text(" s"),
            end(Element::Text),
        ],
    )
}

fn push_tick_if(
    out: &mut Vec<u8>,
    alloc: Global,
    holds: bool,
    x: usize,
    bottom: usize,
    clock: u64,
) -> Result<(), AllocError>
    requires { x < 2 ^ 32 }
    ensures { OnOk result (out.new.items ≡ out.old.items ++ markup_text (spec_lanes.tick_if holds x bottom clock)) }
{
    if holds {
        push_tick_line(out, alloc, x, bottom)?;
        return push_tick_words(out, x, clock);
    }
    Ok(())
}

// From where on a tick may be shown.
fn free_after(holds: bool, x: usize, free: usize) -> usize
    requires { x < 2 ^ 32 }
    ensures { result ≡ spec_lanes.free_after holds x free }
{
    if holds {
        return x + 84;
    }
    free
}

// A line for each tick that is far enough from the one before it.
#[tactic(auto, unfolding(crate::specs::Lanes::ticks))]
fn push_ticks(
    out: &mut Vec<u8>,
    alloc: Global,
    events: &[RecordedEvent],
    bottom: usize,
) -> Result<(), AllocError>
    ensures { OnOk result (out.new.items ≡ out.old.items ++ markup_text (spec_lanes.ticks events.now bottom)) }
{
    let mut free = 0;
    for (place, recorded) in events.iter().enumerate() {
        let x = x_of(place, events.len());
        let holds = is_shown(recorded, x, free);
        push_tick_if(out, alloc, holds, x, bottom, recorded.clock)?;
        free = free_after(holds, x, free);
    }
    Ok(())
}

// How high a mark is: of what a node only overhears, a little at the bottom of its lane.
fn mark_size(outcome: Outcome, size: LaneSize) -> usize
    ensures value { result ≡ spec_lanes.mark_size outcome size }
    ensures bound { result ≤ 14 }
{
    match outcome {
        Outcome::Overheard => 2,
        Outcome::Fine => height_of(size) - 2,
        Outcome::Good => height_of(size) - 2,
        Outcome::Refused => height_of(size) - 2,
        Outcome::Forged => height_of(size) - 2,
    }
}

// From a place down this many pixels.
#[tactic(auto, unfolding(crate::specs::Lanes::downwards))]
fn push_downwards(
    outline: &mut String,
    alloc: Global,
    x: usize,
    y: usize,
    pixels: usize,
) -> Result<(), AllocError>
    ensures { OnOk result (string_bytes outline.new ≡ string_bytes outline.old ++ spec_lanes.downwards x y pixels) }
{
    push_parts(
        outline,
        alloc,
        &[
            words("M"),
            number(x),
            words(" "),
            number(y),
            words("v"),
            number(pixels),
        ],
    )
}

// The mark of a cell.
#[tactic(auto, unfolding(crate::specs::Lanes::mark_text))]
fn push_mark(
    outline: &mut String,
    alloc: Global,
    size: LaneSize,
    mark: usize,
    cell: usize,
) -> Result<(), AllocError>
    ensures { OnOk result (string_bytes outline.new ≡ string_bytes outline.old ++ spec_lanes.mark_text size mark cell) }
{
    let x = 93 + 2 * (cell % CELLS);
    let bottom = y_of(cell / CELLS, size) + height_of(size) - 1;
    push_downwards(outline, alloc, x, bottom.saturating_sub(mark), mark)
}

// The mark of a cell, if it has one.
fn push_mark_if(
    outline: &mut String,
    alloc: Global,
    holds: bool,
    size: LaneSize,
    mark: usize,
    cell: usize,
) -> Result<(), AllocError>
    ensures { OnOk result (string_bytes outline.new ≡ string_bytes outline.old ++ spec_lanes.mark_if holds size mark cell) }
{
    if holds {
        return push_mark(outline, alloc, size, mark, cell);
    }
    Ok(())
}

// The marks of one rank.
fn push_marks_of(
    outline: &mut String,
    alloc: Global,
    size: LaneSize,
    mark: usize,
    rank: u8,
    ranks: &[u8],
) -> Result<(), AllocError>
    ensures { OnOk result (string_bytes outline.new
        ≡ string_bytes outline.old ++ spec_lanes.outline_from size mark rank 0 ranks.now) }
{
    for (cell, other) in ranks.iter().enumerate() {
        push_mark_if(outline, alloc, *other == rank, size, mark, cell)?;
    }
    Ok(())
}

// The outline of the marks of an outcome.
#[tactic(auto, unfolding(crate::specs::Lanes::outline_of))]
fn outline_of(
    alloc: Global,
    size: LaneSize,
    ranks: &[u8],
    outcome: Outcome,
) -> Result<String, AllocError>
    ensures { IfOk result (λ outline. string_bytes outline ≡ spec_lanes.outline_of size ranks.now outcome) }
{
    let mut outline = String::new(alloc);
    let mark = mark_size(outcome, size);
    push_marks_of(&mut outline, alloc, size, mark, rank_of(outcome), ranks)?;
    Ok(outline)
}

// The marks of an outcome, if it has any.
#[tactic(auto, unfolding(crate::specs::Lanes::marks_by))]
fn push_marks_by(out: &mut Vec<u8>, outline: &str, outcome: Outcome) -> Result<(), AllocError>
    ensures { OnOk result (out.new.items ≡ out.old.items ++ markup_text (spec_lanes.marks_by outline.now outcome)) }
{
    if outline.is_empty() {
        return Ok(());
    }
    push_path(out, mark_class(outcome), outline)
}

#[tactic(auto, unfolding(crate::specs::Lanes::marks))]
fn push_marks(
    out: &mut Vec<u8>,
    alloc: Global,
    size: LaneSize,
    ranks: &[u8],
    outcome: Outcome,
) -> Result<(), AllocError>
    ensures { OnOk result (out.new.items ≡ out.old.items ++ markup_text (spec_lanes.marks size ranks.now outcome)) }
{
    let outline = outline_of(alloc, size, ranks, outcome)?;
    push_marks_by(out, outline.as_str(), outcome)
}

#[tactic(auto, unfolding(crate::specs::Lanes::top_marks))]
fn push_top_marks(
    out: &mut Vec<u8>,
    alloc: Global,
    size: LaneSize,
    ranks: &[u8],
) -> Result<(), AllocError>
    ensures { OnOk result (out.new.items ≡ out.old.items ++ markup_text (spec_lanes.top_marks size ranks.now)) }
{
    push_marks(out, alloc, size, ranks, Outcome::Good)?;
    push_marks(out, alloc, size, ranks, Outcome::Refused)?;
    push_marks(out, alloc, size, ranks, Outcome::Forged)
}

// All marks: what matters most lies on top.
#[tactic(auto, unfolding(crate::specs::Lanes::all_marks))]
fn push_all_marks(
    out: &mut Vec<u8>,
    alloc: Global,
    size: LaneSize,
    ranks: &[u8],
) -> Result<(), AllocError>
    ensures { OnOk result (out.new.items ≡ out.old.items ++ markup_text (spec_lanes.all_marks size ranks.now)) }
{
    push_marks(out, alloc, size, ranks, Outcome::Overheard)?;
    push_marks(out, alloc, size, ranks, Outcome::Fine)?;
    push_top_marks(out, alloc, size, ranks)
}

impl<'a> ChartRun<'a> {
    #[tactic(auto, unfolding(crate::specs::Lanes::lane))]
    fn push_lane(&self, out: &mut Vec<u8>, size: LaneSize, number: u32) -> Result<(), AllocError>
        ensures { OnOk result (out.new.items ≡ out.old.items ++ markup_text (spec_lanes.lane self.now size number)) }
    {
        push_name_if(out, self.alloc, has_name(number, size), number, size)?;
        let events = self.run_record.events.len();
        let changes = self.pasts.changes(number as usize);
        push_changes(out, events, size, number as usize, changes)
    }

    // The lanes of this many nodes.
    fn push_lanes_of(&self, out: &mut Vec<u8>, size: LaneSize, nodes: u32) -> Result<(), AllocError>
        ensures { OnOk result (out.new.items ≡ out.old.items ++ markup_text (spec_lanes.lanes_of self.now size nodes)) }
    {
        for number in 0..nodes {
            self.push_lane(out, size, number)?;
        }
        Ok(())
    }

    #[tactic(auto, unfolding(crate::specs::Lanes::drawing_content))]
    fn push_lane_content(
        &self,
        out: &mut Vec<u8>,
        size: LaneSize,
        ranks: &[u8],
    ) -> Result<(), AllocError>
        ensures { OnOk result (out.new.items ≡ out.old.items ++ markup_text (spec_lanes.drawing_content self.now size ranks.now)) }
    {
        let nodes = self.pasts.len();
        self.push_lanes_of(out, size, nodes.min(LANES) as u32)?;
        let bottom = y_of(nodes, size);
        push_ticks(out, self.alloc, self.run_record.events.as_slice(), bottom)?;
        push_all_marks(out, self.alloc, size, ranks)
    }

    #[tactic(auto, unfolding(crate::specs::Lanes::drawing))]
    fn push_lane_drawing(
        &self,
        out: &mut Vec<u8>,
        size: LaneSize,
        ranks: &[u8],
    ) -> Result<(), AllocError>
        ensures { OnOk result (out.new.items ≡ out.old.items ++ markup_text (spec_lanes.drawing self.now size ranks.now)) }
    {
        let bottom = y_of(self.pasts.len(), size);
        push_pieces(
            out,
            &[
                start(Element::Svg),
                given_number(Attribute::Width, 1280),
                given_number(Attribute::Height, bottom + 8),
                given(Attribute::Role, "img"),
                open(),
            ],
        )?;
        self.push_lane_content(out, size, ranks)?;
        push_pieces(out, &[end(Element::Svg)])
    }
}

/// Appends the lanes of a run.
///
/// It fails only where memory runs out; `out` may end anywhere within them then.
#[tactic(auto, unfolding(crate::specs::Lanes::lanes))]
pub fn push_lanes(out: &mut Vec<u8>, run: &ChartRun<'_>) -> Result<(), AllocError>
    ensures { OnOk result (out.new.items ≡ out.old.items ++ markup_text (spec_lanes.lanes run.now)) }
{
    let nodes = run.pasts.len();
    let ranks = ranks_of(run.alloc, nodes, run.run_record.events.as_slice())?;
    run.push_lane_drawing(out, size_of(nodes), ranks.as_slice())
}
