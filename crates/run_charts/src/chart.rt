//! A chart.
ghost use Rattle.std.specs.Prelude.{◌≡◌, ◌<◌, ◌^◌, ◌++◌, IfOk, IfSome, OnOk, position, string_bytes};
ghost use Rattle.markup.specs.Markups.{markup_text};
ghost use Rattle.run_charts.specs.Charts as charts;

use crate::columns::doer_of;
use crate::drawing::{
    column_x, line_y, push_arrow, push_cross, push_dot, push_half, push_label, push_numbers,
    push_passing, push_square,
};
use crate::outcome::{Outcome, has_cross, outcome_of};
use crate::row::{Row, flight_heard, line_after, members, number_at};
use crate::run::ChartRun;
use frame_facts::kind_word;
use line_record::{Act, RecordedEvent, RecordedFlight, actor_of};
use markup::{Attribute, Element, end, given, given_number, open, push_pieces, start, text};
use sentence_parts::{node, sentence};
use std::alloc::{AllocError, Global};

// The place of the column of a node, if it has one.
fn place_of(columns: &[u32], node: u32) -> Option<usize>
    ensures { result ≡ position (charts.is_node node) columns.now }
{
    columns.iter().position(|other| *other == node)
}

// Where the column of a node is, if it has one.
#[tactic(auto, unfolding(crate::specs::Charts::x_of))]
fn x_of(columns: &[u32], node: u32) -> Option<usize>
    ensures value { result ≡ charts.x_of columns.now node }
    ensures bound { IfSome result (λ x. x < 2 ^ 17) }
{
    match place_of(columns, node) {
        None => None,
        Some(place) => Some(column_x(place)),
    }
}

fn x_of_node(columns: &[u32], node: Option<u32>) -> Option<usize>
    ensures value { result ≡ charts.x_of_node columns.now node }
    ensures bound { IfSome result (λ x. x < 2 ^ 17) }
{
    match node {
        None => None,
        Some(node) => x_of(columns, node),
    }
}

// Half of a column to the other side.
#[tactic(auto, unfolding(crate::specs::Charts::label_x))]
fn label_x(from: usize, to: usize) -> usize
    requires { from < 2 ^ 17 }
    ensures { result ≡ charts.label_x from to }
{
    if from < to {
        return from + 46;
    }
    from.saturating_sub(46)
}

// The first flight that an event made, 0 where it made none.
#[tactic(auto, unfolding(crate::specs::Charts::first_made))]
fn first_made(recorded: &RecordedEvent) -> usize
    ensures { result ≡ charts.first_made recorded.now }
{
    if recorded.flights == 0 {
        return 0;
    }
    recorded.first_flight as usize
}

// The flight that an event is about: the one that came, or the first one that it made; 0 if there is none.
#[tactic(auto, unfolding(crate::specs::Charts::flight_about))]
fn flight_about(recorded: &RecordedEvent) -> usize
    ensures { result ≡ charts.flight_about recorded.now }
{
    if flight_heard(&recorded.act) == 0 {
        return first_made(recorded);
    }
    flight_heard(&recorded.act)
}

#[tactic(auto, unfolding(crate::specs::Charts::head))]
fn push_head(out: &mut Vec<u8>, place: usize, number: u32, name: &str) -> Result<(), AllocError>
    ensures { OnOk result (out.new.items ≡ out.old.items ++ markup_text (charts.head place number name.now)) }
{
    push_pieces(
        out,
        &[
            start(Element::Text),
            given(Attribute::Class, "hd"),
            given_number(Attribute::Node, number as usize),
            given_number(Attribute::X, column_x(place)),
            given_number(Attribute::Y, 20),
            given(Attribute::Anchor, "middle"),
            open(),
            text(name),
            end(Element::Text),
        ],
    )
}

/// The name of a node.
#[tactic(auto, unfolding(crate::specs::Charts::name))]
pub fn name(alloc: Global, number: u32) -> Result<String, AllocError>
    ensures { IfOk result (λ name. string_bytes name ≡ charts.name number) }
{
    sentence(alloc, &[node(number)])
}

// Of a flight that came, another node that heard it, where that has a column.
fn push_dot_at(out: &mut Vec<u8>, x: Option<usize>, y: usize) -> Result<(), AllocError>
    ensures { OnOk result (out.new.items ≡ out.old.items ++ markup_text (charts.dot_at x y)) }
{
    match x {
        None => Ok(()),
        Some(x) => push_dot(out, Outcome::Overheard, x, y),
    }
}

// What a node did by itself, where that has a column.
fn push_square_at(
    out: &mut Vec<u8>,
    x: Option<usize>,
    outcome: Outcome,
    y: usize,
) -> Result<(), AllocError>
    ensures { OnOk result (out.new.items ≡ out.old.items ++ markup_text (charts.square_at x outcome y)) }
{
    match x {
        None => Ok(()),
        Some(x) => push_square(out, outcome, x, y),
    }
}

/// Whether time passes.
pub fn is_tick(act: &Act) -> bool
    ensures { result ≡ charts.is_tick act.now }
{
    match act {
        Act::Tick { .. } => true,
        _ => false,
    }
}

// The right border.
#[tactic(auto, unfolding(crate::specs::Charts::width))]
fn width(columns: &[u32]) -> usize
    ensures { result ≡ charts.width columns.now }
{
    column_x(columns.len()).saturating_sub(46)
}

// The height of a chart.
#[tactic(auto, unfolding(crate::specs::Charts::height))]
fn height(rows: &[Row]) -> usize
    ensures { result ≡ charts.height rows.now }
{
    line_y(line_after(rows.last().copied())).saturating_sub(9)
}

impl<'a> ChartRun<'a> {
    // The name of a node, and its column.
    #[tactic(auto, unfolding(crate::specs::Charts::column))]
    fn push_column(
        &self,
        out: &mut Vec<u8>,
        place: usize,
        number: u32,
        events: &[usize],
        rows: &[Row],
        bottom: usize,
    ) -> Result<(), AllocError>
        ensures { OnOk result (out.new.items
            ≡ out.old.items ++ markup_text (charts.column self.now place number events.now rows.now bottom)) }
    {
        let name = name(self.alloc, number)?;
        push_head(out, place, number, name.as_str())?;
        self.push_life(out, number, column_x(place), events, rows, bottom)
    }

    fn push_columns(
        &self,
        out: &mut Vec<u8>,
        columns: &[u32],
        events: &[usize],
        rows: &[Row],
        bottom: usize,
    ) -> Result<(), AllocError>
        ensures { OnOk result (out.new.items
            ≡ out.old.items ++ markup_text (charts.columns_from self.now 0 columns.now events.now rows.now bottom)) }
    {
        for (place, number) in columns.iter().enumerate() {
            self.push_column(out, place, *number, events, rows, bottom)?;
        }
        Ok(())
    }

    // The other nodes that heard the flight of a row.
    #[tactic(auto, unfolding(crate::specs::Charts::other))]
    fn push_other(
        &self,
        out: &mut Vec<u8>,
        columns: &[u32],
        event: usize,
        y: usize,
    ) -> Result<(), AllocError>
        ensures { OnOk result (out.new.items ≡ out.old.items ++ markup_text (charts.other self.now columns.now event y)) }
    {
        if !self.is_hushed(event) {
            return Ok(());
        }
        let Some(recorded) = self.event(event) else {
            return Ok(());
        };
        push_dot_at(out, x_of(columns, actor_of(&recorded.act)), y)
    }

    fn push_others(
        &self,
        out: &mut Vec<u8>,
        columns: &[u32],
        events: &[usize],
        y: usize,
    ) -> Result<(), AllocError>
        ensures { OnOk result (out.new.items ≡ out.old.items ++ markup_text (charts.others self.now columns.now events.now y)) }
    {
        for event in events {
            self.push_other(out, columns, *event, y)?;
        }
        Ok(())
    }

    fn push_cross_if(
        &self,
        out: &mut Vec<u8>,
        holds: bool,
        outcome: Outcome,
        x: usize,
        y: usize,
    ) -> Result<(), AllocError>
        requires { (y < 2 ^ 22) × (x < 2 ^ 17) }
        ensures { OnOk result (out.new.items ≡ out.old.items ++ markup_text (charts.cross_if holds outcome x y)) }
    {
        if holds {
            return push_cross(out, self.alloc, outcome, x, y);
        }
        Ok(())
    }

    // The arrow of a flight that came to the node that it is for, and what became of it there.
    #[tactic(auto, unfolding(crate::specs::Charts::coming))]
    fn push_coming(
        &self,
        out: &mut Vec<u8>,
        outcome: Outcome,
        from: usize,
        to: usize,
        y: usize,
    ) -> Result<(), AllocError>
        requires { (y < 2 ^ 22) × (to < 2 ^ 17) }
        ensures { OnOk result (out.new.items ≡ out.old.items ++ markup_text (charts.coming outcome from to y)) }
    {
        push_arrow(out, self.alloc, outcome, from, to, y)?;
        self.push_cross_if(out, has_cross(outcome), outcome, to, y)
    }

    // A flight that comes to the node of this column, if it has one.
    fn push_coming_at(
        &self,
        out: &mut Vec<u8>,
        to: Option<usize>,
        outcome: Outcome,
        from: usize,
        y: usize,
    ) -> Result<(), AllocError>
        requires { (y < 2 ^ 22) × IfSome to (λ x. x < 2 ^ 17) }
        ensures { OnOk result (out.new.items ≡ out.old.items ++ markup_text (charts.coming_at to outcome from y)) }
    {
        match to {
            None => Ok(()),
            Some(to) => self.push_coming(out, outcome, from, to, y),
        }
    }

    // A flight that never comes to the node of this column, if it has one.
    fn push_half_at(
        &self,
        out: &mut Vec<u8>,
        to: Option<usize>,
        from: usize,
        y: usize,
    ) -> Result<(), AllocError>
        requires { (y < 2 ^ 22) × (from < 2 ^ 17) }
        ensures { OnOk result (out.new.items ≡ out.old.items ++ markup_text (charts.half_at to from y)) }
    {
        match to {
            None => Ok(()),
            Some(to) => push_half(out, self.alloc, from, to, y),
        }
    }

    // Where a flight goes: to the node that hears it, or half way to the one that it is for and never came to.
    #[tactic(auto, unfolding(crate::specs::Charts::goal_at))]
    fn goal_at(&self, columns: &[u32], event: usize, recorded: &RecordedEvent) -> Option<usize>
        ensures value { result ≡ charts.goal_at self.now columns.now event recorded.now }
        ensures bound { IfSome result (λ x. x < 2 ^ 17) }
    {
        if self.is_hushed(event) {
            return x_of_node(columns, self.missed_at(flight_heard(&recorded.act)));
        }
        x_of(columns, actor_of(&recorded.act))
    }

    #[tactic(auto, unfolding(crate::specs::Charts::course))]
    fn push_course(
        &self,
        out: &mut Vec<u8>,
        columns: &[u32],
        event: usize,
        recorded: &RecordedEvent,
        from: usize,
        y: usize,
    ) -> Result<(), AllocError>
        requires { (y < 2 ^ 22) × (from < 2 ^ 17) }
        ensures { OnOk result (out.new.items ≡ out.old.items ++ markup_text (charts.course self.now columns.now event recorded.now from y)) }
    {
        let to = self.goal_at(columns, event, recorded);
        if self.is_hushed(event) {
            return self.push_half_at(out, to, from, y);
        }
        self.push_coming_at(out, to, outcome_of(recorded), from, y)
    }

    // Where the arrow of a flight points to.
    #[tactic(auto, unfolding(crate::specs::Charts::aim))]
    fn aim(&self, columns: &[u32], event: usize, recorded: &RecordedEvent, from: usize) -> usize
        requires { from < 2 ^ 17 }
        ensures { result ≡ charts.aim self.now columns.now event recorded.now from }
    {
        match self.goal_at(columns, event, recorded) {
            None => from + 1,
            Some(to) => to,
        }
    }

    #[tactic(auto, unfolding(crate::specs::Charts::delivery_at))]
    fn push_delivery_from(
        &self,
        out: &mut Vec<u8>,
        columns: &[u32],
        event: usize,
        recorded: &RecordedEvent,
        frame: &RecordedFlight,
        flight: usize,
        from: usize,
        y: usize,
    ) -> Result<(), AllocError>
        requires { (y < 2 ^ 22) × (from < 2 ^ 17) }
        ensures { OnOk result (out.new.items
            ≡ out.old.items ++ markup_text (charts.delivery_at from frame.now self.now columns.now event recorded.now flight y)) }
    {
        push_dot(out, outcome_of(recorded), from, y)?;
        self.push_course(out, columns, event, recorded, from, y)?;
        let to = self.aim(columns, event, recorded, from);
        push_label(out, label_x(from, to), y, flight, kind_word(frame.kind))
    }

    // A flight that comes to nodes.
    #[tactic(auto, unfolding(crate::specs::Charts::delivery))]
    fn push_delivery(
        &self,
        out: &mut Vec<u8>,
        columns: &[u32],
        event: usize,
        recorded: &RecordedEvent,
        flight: usize,
        y: usize,
    ) -> Result<(), AllocError>
        requires { y < 2 ^ 22 }
        ensures { OnOk result (out.new.items
            ≡ out.old.items ++ markup_text (charts.delivery self.now columns.now event recorded.now flight y)) }
    {
        let Some(frame) = self.flight(flight) else {
            return Ok(());
        };
        let Some(from) = x_of(columns, u32::from(frame.from)) else {
            return Ok(());
        };
        self.push_delivery_from(out, columns, event, recorded, &frame, flight, from, y)
    }

    // An event that is no delivery.
    #[tactic(auto, unfolding(crate::specs::Charts::doing))]
    fn push_doing(
        &self,
        out: &mut Vec<u8>,
        columns: &[u32],
        recorded: &RecordedEvent,
        y: usize,
    ) -> Result<(), AllocError>
        ensures { OnOk result (out.new.items ≡ out.old.items ++ markup_text (charts.doing columns.now recorded.now y)) }
    {
        if is_tick(&recorded.act) {
            return push_passing(out, self.alloc, width(columns), y);
        }
        let x = x_of_node(columns, doer_of(&recorded.act));
        push_square_at(out, x, outcome_of(recorded), y)
    }

    #[tactic(auto, unfolding(crate::specs::Charts::event_drawing))]
    fn push_event_drawing(
        &self,
        out: &mut Vec<u8>,
        columns: &[u32],
        event: usize,
        recorded: &RecordedEvent,
        y: usize,
    ) -> Result<(), AllocError>
        requires { y < 2 ^ 22 }
        ensures { OnOk result (out.new.items ≡ out.old.items ++ markup_text (charts.event_drawing self.now columns.now event recorded.now y)) }
    {
        let flight = flight_heard(&recorded.act);
        if flight == 0 {
            return self.push_doing(out, columns, recorded, y);
        }
        self.push_delivery(out, columns, event, recorded, flight, y)
    }

    // The drawing of a row.
    #[tactic(auto, unfolding(crate::specs::Charts::row_drawing))]
    fn push_row(
        &self,
        out: &mut Vec<u8>,
        columns: &[u32],
        events: &[usize],
        row: &Row,
    ) -> Result<(), AllocError>
        ensures { OnOk result (out.new.items ≡ out.old.items ++ markup_text (charts.row_drawing self.now columns.now events.now row.now)) }
    {
        let event = number_at(events, row.main);
        let Some(recorded) = self.event(event) else {
            return Ok(());
        };
        self.push_row_group(
            out,
            columns,
            events,
            row,
            event,
            &recorded,
            line_y(row.line),
        )
    }

    #[tactic(auto, unfolding(crate::specs::Charts::row_group))]
    fn push_row_group(
        &self,
        out: &mut Vec<u8>,
        columns: &[u32],
        events: &[usize],
        row: &Row,
        event: usize,
        recorded: &RecordedEvent,
        y: usize,
    ) -> Result<(), AllocError>
        requires { y < 2 ^ 22 }
        ensures { OnOk result (out.new.items
            ≡ out.old.items ++ markup_text (charts.row_group self.now columns.now events.now row.now event recorded.now y)) }
    {
        push_pieces(
            out,
            &[
                start(Element::Group),
                given_number(Attribute::Flight, flight_about(recorded)),
                open(),
            ],
        )?;
        self.push_row_content(out, columns, events, row, event, recorded, y)?;
        push_pieces(out, &[end(Element::Group)])
    }

    #[tactic(auto, unfolding(crate::specs::Charts::row_content))]
    fn push_row_content(
        &self,
        out: &mut Vec<u8>,
        columns: &[u32],
        events: &[usize],
        row: &Row,
        event: usize,
        recorded: &RecordedEvent,
        y: usize,
    ) -> Result<(), AllocError>
        requires { y < 2 ^ 22 }
        ensures { OnOk result (out.new.items
            ≡ out.old.items ++ markup_text (charts.row_content self.now columns.now events.now row.now event recorded.now y)) }
    {
        let first = first_shown(events, row, event, recorded);
        let last = last_shown(events, row, event, recorded);
        push_numbers(out, first, last, y)?;
        self.push_others(out, columns, members(events, row), y)?;
        self.push_event_drawing(out, columns, event, recorded, y)
    }

    fn push_rows(
        &self,
        out: &mut Vec<u8>,
        columns: &[u32],
        events: &[usize],
        rows: &[Row],
    ) -> Result<(), AllocError>
        ensures { OnOk result (out.new.items ≡ out.old.items ++ markup_text (charts.rows_drawing self.now columns.now events.now rows.now)) }
    {
        for row in rows {
            self.push_row(out, columns, events, row)?;
        }
        Ok(())
    }

    // Columns, down to a height, and rows.
    #[tactic(auto, unfolding(crate::specs::Charts::drawing_content))]
    fn push_drawing_content(
        &self,
        out: &mut Vec<u8>,
        columns: &[u32],
        events: &[usize],
        rows: &[Row],
        bottom: usize,
    ) -> Result<(), AllocError>
        ensures { OnOk result (out.new.items
            ≡ out.old.items ++ markup_text (charts.drawing_content self.now columns.now events.now rows.now bottom)) }
    {
        self.push_columns(out, columns, events, rows, bottom)?;
        self.push_rows(out, columns, events, rows)
    }

    #[tactic(auto, unfolding(crate::specs::Charts::drawing))]
    fn push_drawing(
        &self,
        out: &mut Vec<u8>,
        columns: &[u32],
        events: &[usize],
        rows: &[Row],
    ) -> Result<(), AllocError>
        ensures { OnOk result (out.new.items ≡ out.old.items ++ markup_text (charts.drawing self.now columns.now events.now rows.now)) }
    {
        let height = height(rows);
        push_pieces(
            out,
            &[
                start(Element::Svg),
                given_number(Attribute::Width, width(columns)),
                given_number(Attribute::Height, height),
                given(Attribute::Role, "img"),
                open(),
            ],
        )?;
        self.push_drawing_content(out, columns, events, rows, height.saturating_sub(4))?;
        push_pieces(out, &[end(Element::Svg)])
    }

    #[tactic(auto, unfolding(crate::specs::Charts::chart_content))]
    fn push_chart_content(
        &self,
        out: &mut Vec<u8>,
        columns: &[u32],
        events: &[usize],
        rows: &[Row],
    ) -> Result<(), AllocError>
        ensures { OnOk result (out.new.items
            ≡ out.old.items ++ markup_text (charts.chart_content self.now columns.now events.now rows.now)) }
    {
        self.push_drawing(out, columns, events, rows)?;
        self.push_sayings(out, events, rows)
    }

    #[tactic(auto, unfolding(crate::specs::Charts::parts))]
    fn push_parts(
        &self,
        out: &mut Vec<u8>,
        columns: &[u32],
        events: &[usize],
        rows: &[Row],
    ) -> Result<(), AllocError>
        ensures { OnOk result (out.new.items ≡ out.old.items ++ markup_text (charts.parts self.now columns.now events.now rows.now)) }
    {
        push_pieces(
            out,
            &[
                start(Element::Division),
                given(Attribute::Class, "m"),
                open(),
            ],
        )?;
        self.push_chart_content(out, columns, events, rows)?;
        push_pieces(out, &[end(Element::Division)])
    }
}

// The first event of a row, or its main one where that is a flight that came.
#[tactic(auto, unfolding(crate::specs::Charts::first_shown))]
fn first_shown(events: &[usize], row: &Row, event: usize, recorded: &RecordedEvent) -> usize
    ensures { result ≡ charts.first_shown events.now row.now event recorded.now }
{
    if flight_heard(&recorded.act) == 0 {
        return number_at(events, row.start);
    }
    event
}

// The last event of a row.
#[tactic(auto, unfolding(crate::specs::Charts::last_shown))]
fn last_shown(events: &[usize], row: &Row, event: usize, recorded: &RecordedEvent) -> usize
    ensures { result ≡ charts.last_shown events.now row.now event recorded.now }
{
    if flight_heard(&recorded.act) == 0 {
        return number_at(events, row.end.saturating_sub(1));
    }
    event
}

/// Appends a sequence chart of some events of a run, in this order.
///
/// It fails only where memory runs out; `out` may end anywhere within the chart then.
#[tactic(auto, unfolding(crate::specs::Charts::chart))]
pub fn push_chart(out: &mut Vec<u8>, run: &ChartRun<'_>, events: &[usize]) -> Result<(), AllocError>
    ensures { OnOk result (out.new.items ≡ out.old.items ++ markup_text (charts.chart run.now events.now)) }
{
    let rows = run.rows(events)?;
    let columns = run.columns(events)?;
    run.push_parts(out, columns.as_slice(), events, rows.as_slice())
}
