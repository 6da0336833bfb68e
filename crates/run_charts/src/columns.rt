//! The columns of a chart: the nodes that take part.
ghost use Rattle.std.specs.Prelude.{◌≡◌, ◌<◌, IfOk, IfSome, OnOk, length, position};
ghost use Rattle.run_charts.specs.Columns as spec_columns;

use crate::row::flight_heard;
use crate::run::ChartRun;
use line_record::{Act, RecordedEvent, RecordedFlight, actor_of, is_setup, made_by};
use std::alloc::AllocError;

// The place of the first column of a node that is not before this one.
fn place_for(columns: &[u32], node: u32) -> Option<usize>
    ensures value { result ≡ position (spec_columns.is_from node) columns.now }
    ensures bound { IfSome result (λ p. p < length columns.now) }
{
    columns.iter().position(|other| *other >= node)
}

// Whether a column is that of a node.
fn is_there(column: Option<u32>, node: u32) -> bool
    ensures { result ≡ spec_columns.is_there column node }
{
    match column {
        None => false,
        Some(other) => other == node,
    }
}

// A column more, unless the node has one.
#[tactic(auto, unfolding(crate::specs::Columns::with_column))]
fn add_column(columns: &mut Vec<u32>, node: u32) -> Result<(), AllocError>
    ensures { OnOk result (columns.new.items ≡ spec_columns.with_column node columns.old.items) }
{
    let Some(place) = place_for(columns.as_slice(), node) else {
        columns.push(node)?;
        return Ok(());
    };
    if is_there(columns.get(place).copied(), node) {
        return Ok(());
    }
    columns.insert(place, node)?;
    Ok(())
}

fn add_node(columns: &mut Vec<u32>, node: Option<u32>) -> Result<(), AllocError>
    ensures { OnOk result (columns.new.items ≡ spec_columns.with_node node columns.old.items) }
{
    match node {
        None => Ok(()),
        Some(node) => add_column(columns, node),
    }
}

fn add_senders(columns: &mut Vec<u32>, flights: &[RecordedFlight]) -> Result<(), AllocError>
    ensures { OnOk result (columns.new.items ≡ spec_columns.with_senders flights.now columns.old.items) }
{
    for flight in flights {
        add_column(columns, u32::from(flight.from))?;
    }
    Ok(())
}

// Whether an event is one of its node by itself.
fn is_own(act: &Act) -> bool
    ensures { result ≡ spec_columns.is_own act.now }
{
    match act {
        Act::Tick { .. } => false,
        Act::Lose { .. } => false,
        Act::Deliver { .. } => false,
        _ => true,
    }
}

/// The node that an event beside the setup is about, if it is about one.
#[tactic(auto, unfolding(crate::specs::Columns::doer_of))]
pub fn doer_of(act: &Act) -> Option<u32>
    ensures { result ≡ spec_columns.doer_of act.now }
{
    if is_setup(act) {
        return None;
    }
    if is_own(act) {
        return Some(actor_of(act));
    }
    None
}

impl<'a> ChartRun<'a> {
    /// The node that sent a flight, if there is such a flight.
    #[tactic(auto, unfolding(crate::specs::Columns::sender_of))]
    pub fn sender_of(&self, flight: usize) -> Option<u32>
        ensures { result ≡ spec_columns.sender_of self.now flight }
    {
        match self.flight(flight) {
            None => None,
            Some(flight) => Some(u32::from(flight.from)),
        }
    }

    // The node that hears a flight at an event, if it is for it; else the node that it is for and never came to.
    #[tactic(auto, unfolding(crate::specs::Columns::hearer_of))]
    fn hearer_of(&self, event: usize, recorded: &RecordedEvent) -> Option<u32>
        ensures { result ≡ spec_columns.hearer_of self.now event recorded.now }
    {
        let flight = flight_heard(&recorded.act);
        if flight == 0 {
            return None;
        }
        if self.is_hushed(event) {
            return self.missed_at(flight);
        }
        Some(actor_of(&recorded.act))
    }

    // The nodes that take part in an event.
    #[tactic(auto, unfolding(crate::specs::Columns::with_event))]
    fn add_event(&self, columns: &mut Vec<u32>, event: usize) -> Result<(), AllocError>
        ensures { OnOk result (columns.new.items ≡ spec_columns.with_event self.now event columns.old.items) }
    {
        let Some(recorded) = self.event(event) else {
            return Ok(());
        };
        add_node(columns, doer_of(&recorded.act))?;
        add_node(columns, self.sender_of(flight_heard(&recorded.act)))?;
        add_node(columns, self.hearer_of(event, &recorded))?;
        add_senders(
            columns,
            made_by(&recorded, self.run_record.flights.as_slice()),
        )
    }

    /// The nodes that take part in these events, by their numbers.
    #[tactic(auto, unfolding(crate::specs::Columns::columns_of))]
    pub fn columns(&self, events: &[usize]) -> Result<Vec<u32>, AllocError>
        ensures { IfOk result (λ columns. columns.items ≡ spec_columns.columns_of self.now events.now) }
    {
        let mut columns = Vec::new(self.alloc);
        for event in events {
            self.add_event(&mut columns, *event)?;
        }
        Ok(columns)
    }
}
