//! What became of flights: at which events they came to whom, and whether they were lost.
ghost use Rattle.std.specs.Prelude.{◌≡◌, ◌+◌, IfOk, OnOk, replicate};
ghost use Rattle.line_capture.specs.Fates as spec_fates;

use line_events::Answer;
use line_record::{Act, RecordedEvent};
use std::alloc::{AllocError, Global};
use std::marker::Model;

/// A flight comes to a node.
#[derive(Clone, Copy, Debug, PartialEq, Eq)]
pub struct Arrival {
    /// The number of the event, from 1.
    pub event: usize,
    /// The node.
    pub node: u32,
    /// What the node answered.
    pub answer: Answer,
    /// Whether a tag that the node found right was made by nobody.
    pub forged: bool,
}

/// What became of a flight. A contract sees the list of its arrivals, and the event at which it was lost.
#[derive(Drop)]
pub struct Fate {
    arrivals: Vec<Arrival>,
    lost: usize,
}

impl Model for Fate {
    ghost use Rattle.line_capture.specs.FateValues.{FateValue};

    ghost Value = { FateValue };

    ghost view = { λ f. record { arrivals = f.arrivals.items; lost = f.lost } };
}

impl Fate {
    // Nothing became of it yet. It takes no memory.
    fn new(alloc: Global) -> Fate
        ensures { result ≡ spec_fates.no_fate }
    {
        Fate {
            arrivals: Vec::new(alloc),
            lost: 0,
        }
    }

    /// How it came to nodes, in the order of the events.
    pub fn arrivals(&self) -> &[Arrival]
        ensures { result.now ≡ self.now.arrivals }
    {
        self.arrivals.as_slice()
    }

    /// The number of the event at which it was lost, 0 where it was not.
    pub fn lost(&self) -> usize
        ensures { result ≡ self.now.lost }
    {
        self.lost
    }

    // It comes to a node at an event.
    fn arrive(
        &mut self,
        event: usize,
        node: u32,
        recorded: &RecordedEvent,
    ) -> Result<(), AllocError>
        ensures { OnOk result (self.new ≡ spec_fates.arrived event node recorded.now self.old) }
    {
        self.arrivals.push(Arrival {
            event,
            node,
            answer: recorded.answer,
            forged: recorded.forged,
        })?;
        Ok(())
    }

    // It is lost at an event.
    fn lose(&mut self, event: usize)
        ensures { self.new ≡ spec_fates.lost event self.old }
    {
        self.lost = event;
    }
}

// The flight of a number comes to a node, where there is such a flight.
fn arrive(
    fates: &mut [Fate],
    flight: u32,
    event: usize,
    node: u32,
    recorded: &RecordedEvent,
) -> Result<(), AllocError>
    ensures { OnOk result (fates.new ≡ spec_fates.arrived_in flight event node recorded.now fates.old) }
{
    let number = flight as usize;
    if number == 0 || number > fates.len() {
        return Ok(());
    }
    fates[number - 1].arrive(event, node, recorded)
}

// The flight of a number is lost, where there is such a flight.
fn lose(fates: &mut [Fate], flight: u32, event: usize)
    ensures { fates.new ≡ spec_fates.lost_in flight event fates.old }
{
    let number = flight as usize;
    if number == 0 || number > fates.len() {
        return;
    }
    fates[number - 1].lose(event);
}

// What an event does to the flights.
fn go_on(fates: &mut [Fate], event: usize, recorded: &RecordedEvent) -> Result<(), AllocError>
    ensures { OnOk result (fates.new ≡ spec_fates.fates_by recorded.now.act event recorded.now fates.old) }
{
    match &recorded.act {
        Act::Deliver { flight, node, .. } => arrive(fates, *flight, event, *node, recorded),
        Act::Lose { flight } => {
            lose(fates, *flight, event);
            Ok(())
        }
        _ => Ok(()),
    }
}

fn go_through(fates: &mut [Fate], events: &[RecordedEvent]) -> Result<(), AllocError>
    ensures { OnOk result (fates.new ≡ spec_fates.fates_from 1 events.now fates.old) }
{
    for (i, recorded) in events.iter().enumerate() {
        go_on(fates, i + 1, recorded)?;
    }
    Ok(())
}

// This many flights of which nothing became yet.
fn no_fates(alloc: Global, count: usize) -> Result<Vec<Fate>, AllocError>
    ensures { IfOk result (λ fates. fates.items ≡ replicate count spec_fates.no_fate) }
{
    let mut fates = Vec::new(alloc);
    for _ in 0..count {
        fates.push(Fate::new(alloc))?;
    }
    Ok(fates)
}

/// What became of this many flights, by their numbers from 1.
///
/// It fails only where memory runs out.
pub fn fates_of(
    alloc: Global,
    count: usize,
    events: &[RecordedEvent],
) -> Result<Vec<Fate>, AllocError>
    ensures { IfOk result (λ fates. fates.items ≡ spec_fates.fates_of count events.now) }
{
    let mut fates = no_fates(alloc, count)?;
    go_through(fates.as_mut_slice(), events)?;
    Ok(fates)
}
