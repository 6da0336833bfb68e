//! What is wrong with an event that the run does not take.
ghost use Rattle.std.specs.Prelude.{◌≡◌, ◌<◌, ◌≤◌, ◌-◌, ◌^◌, IfOk, length, slice_get};
ghost use Rattle.std.specs.Option.{option_copied};
ghost use Rattle.sentence_parts.specs.Parts.{parts_text};
ghost use Rattle.script_faults.specs.Findings.{noted};
ghost use Rattle.script_faults.specs.EventFindings as findings;
ghost use Rattle.script_faults.specs.Runs as runs;

use crate::run::{
    Made, Named, Place, Wanted, first_named, flight_named, joined_row, last_refusal, made_row,
    neighbours, node_with, row_of, second_named, sending_of,
};
use crate::{Finding, rest_at, word_at, word_length};
use line_events::Event;
use line_record::{RecordedEvent, act_of, is_setup};
use line_script::{Reason, answer_word};
use plc_base::Eui;
use sentence_parts::{Part, node, number, octets, words};
use std::alloc::{AllocError, Global};
use std::marker::Model;

/// A line with an event that is not taken, and what helps of the run before it.
#[derive(Drop)]
pub struct BadEvent<'a> {
    /// The line.
    pub line: &'a [u8],
    /// The event.
    pub event: &'a Event<'a>,
    /// The nodes that were made, in their order.
    pub made: &'a [Made],
    /// The events that were taken, in their order.
    pub events: &'a [RecordedEvent],
    /// How many flights were sent.
    pub flights: u32,
    /// The node that sent the last of them.
    pub sender: u16,
    /// The line of the first event that is not part of the setup, 0 if there is none.
    pub other_row: u32,
    /// Its octets.
    pub other_text: &'a [u8],
}

impl<'a> Model for BadEvent<'a> {
    ghost use Rattle.script_faults.specs.EventFindings.{Bad};

    ghost Value = { Bad };

    ghost view = { λ b. record {
      line = b.line.now;
      event = b.event.now;
      made = b.made.now;
      events = b.events.now;
      flights = b.flights;
      sender = b.sender;
      other = record { row = b.other_row; text = b.other_text.now };
    } };
}

// The place after a word and its space.
#[tactic(auto, unfolding(crate::specs::EventFindings::after_word))]
fn after_word(line: &[u8], at: usize) -> usize
    requires { at ≤ length line.now }
    ensures after { result ≡ findings.after_word line.now at }
    ensures within { result ≤ length line.now }
{
    (at + word_length(rest_at(line, at)) + 1).min(line.len())
}

fn start_of(line: &[u8], place: Place) -> usize
    ensures start { result ≡ findings.start_of line.now place }
    ensures within { result ≤ length line.now }
{
    match place {
        Place::First => 0,
        Place::Second => after_word(line, 0),
        Place::Third => after_word(line, after_word(line, 0)),
    }
}

// A word of a line is marked.
#[tactic(auto, unfolding(crate::specs::EventFindings::found))]
fn found(
    alloc: Global,
    line: &[u8],
    place: Place,
    message: &[Part<'_>],
    label: &[Part<'_>],
) -> Result<Finding, AllocError>
    ensures { IfOk result (λ f. f ≡ findings.found line.now place (parts_text message.now) (parts_text label.now)) }
{
    let at = start_of(line, place);
    let end = at + word_length(rest_at(line, at)).max(1);
    Finding::new(alloc, at, end, message, label)
}

#[tactic(auto, unfolding(crate::specs::EventFindings::by_line))]
fn by_line(alloc: Global, row: u32, so_far: Finding) -> Result<Finding, AllocError>
    ensures { IfOk result (λ f. f ≡ noted (findings.by_line row) so_far) }
{
    so_far.with(alloc, &[words("by line "), number(row as usize)])
}

#[tactic(auto, unfolding(crate::specs::EventFindings::put_depot))]
fn put_depot(alloc: Global, meter: u32, so_far: Finding) -> Result<Finding, AllocError>
    ensures { IfOk result (λ f. f ≡ noted (findings.put_depot meter) so_far) }
{
    so_far.with(
        alloc,
        &[
            words("put `depot "),
            number(meter as usize),
            words("` above this line"),
        ],
    )
}

fn last_of(made: &[Made]) -> usize
    ensures { result ≡ length made.now - 1 }
{
    made.len().saturating_sub(1)
}

impl<'a> BadEvent<'a> {
    // # A node that is not there

    #[tactic(auto, unfolding(crate::specs::EventFindings::no_node_word))]
    fn no_node_word(&self, alloc: Global, named: Named) -> Result<Finding, AllocError>
        ensures { IfOk result (λ f. f ≡ findings.no_node_word self.now named) }
    {
        let last = last_of(self.made);
        found(
            alloc,
            self.line,
            named.place,
            &[words("there is no node "), number(named.node as usize)],
            &[words("nodes are 0 to "), number(last), words(" here")],
        )
    }

    #[tactic(auto, unfolding(crate::specs::EventFindings::numbering_note))]
    fn with_numbering(&self, alloc: Global, so_far: Finding) -> Result<Finding, AllocError>
        ensures { IfOk result (λ f. f ≡ noted (findings.numbering_note self.now) so_far) }
    {
        let last = last_of(self.made);
        let row = made_row(self.made, last);
        so_far.with(
            alloc,
            &[
                words("nodes are numbered from 0 in the order of their lines; node "),
                number(last),
                words(" is made in line "),
                number(row as usize),
            ],
        )
    }

    fn no_node(&self, alloc: Global, named: Named) -> Result<Finding, AllocError>
        ensures { IfOk result (λ f. f ≡ findings.no_node self.now named) }
    {
        let so_far = self.no_node_word(alloc, named)?;
        self.with_numbering(alloc, so_far)
    }

    #[tactic(auto, unfolding(crate::specs::EventFindings::for_a_meter))]
    fn for_a_meter(&self, alloc: Global) -> Result<Finding, AllocError>
        ensures { IfOk result (λ f. f ≡ findings.for_a_meter self.now) }
    {
        let last = last_of(self.made);
        let word = word_at(self.line, 0);
        found(
            alloc,
            self.line,
            Place::Second,
            &[
                words("node 0 is the coordinator, and `"),
                octets(word),
                words("` is for a meter"),
            ],
            &[words("expected a meter, 1 to "), number(last)],
        )
    }

    fn second_or_meter(&self, alloc: Global) -> Result<Finding, AllocError>
        ensures { IfOk result
            (λ f. f ≡ findings.or_node (runs.second_named self.now.event) self.now (findings.for_a_meter self.now)) }
    {
        let Some(named) = second_named(self.event) else {
            return self.for_a_meter(alloc);
        };
        if self.made.len() <= named.node as usize {
            return self.no_node(alloc, named);
        }
        self.for_a_meter(alloc)
    }

    #[tactic(auto, unfolding(crate::specs::EventFindings::node_finding))]
    fn node_finding(&self, alloc: Global) -> Result<Finding, AllocError>
        ensures { IfOk result (λ f. f ≡ findings.node_finding self.now) }
    {
        let Some(named) = first_named(self.event) else {
            return self.second_or_meter(alloc);
        };
        if self.made.len() <= named.node as usize {
            return self.no_node(alloc, named);
        }
        self.second_or_meter(alloc)
    }

    // # A setup that does not fit

    #[tactic(auto, unfolding(crate::specs::EventFindings::too_many_nodes))]
    fn too_many_nodes(&self, alloc: Global) -> Result<Finding, AllocError>
        ensures { IfOk result (λ f. f ≡ findings.too_many_nodes self.now) }
    {
        found(
            alloc,
            self.line,
            Place::First,
            &[words("a line has at most 1,000 nodes")],
            &[words("this would be node 1000")],
        )
    }

    #[tactic(auto, unfolding(crate::specs::EventFindings::same_eui))]
    fn same_eui(&self, alloc: Global, other: usize) -> Result<Finding, AllocError>
        ensures { IfOk result (λ f. f ≡ findings.same_eui self.now other) }
    {
        found(
            alloc,
            self.line,
            Place::Second,
            &[
                words("node "),
                number(other),
                words(" has this EUI already"),
            ],
            &[words("the same EUI")],
        )
    }

    #[tactic(auto, unfolding(crate::specs::EventFindings::made_note))]
    fn with_made(&self, alloc: Global, other: usize, so_far: Finding) -> Result<Finding, AllocError>
        ensures { IfOk result (λ f. f ≡ noted (findings.made_note self.now other) so_far) }
    {
        let row = made_row(self.made, other);
        so_far.with(
            alloc,
            &[
                words("node "),
                number(other),
                words(" is made in line "),
                number(row as usize),
            ],
        )
    }

    fn meter_finding(&self, alloc: Global, eui: Eui) -> Result<Finding, AllocError>
        ensures { IfOk result (λ f. f ≡ findings.meter_by (runs.node_with self.now.made eui) self.now) }
    {
        let Some(other) = node_with(self.made, eui) else {
            return self.too_many_nodes(alloc);
        };
        let so_far = self.same_eui(alloc, other)?;
        self.with_made(alloc, other, so_far)
    }

    #[tactic(auto, unfolding(crate::specs::EventFindings::joined_from_start))]
    fn joined_from_start(&self, alloc: Global) -> Result<Finding, AllocError>
        ensures { IfOk result (λ f. f ≡ findings.joined_from_start self.now) }
    {
        found(
            alloc,
            self.line,
            Place::Second,
            &[words("node 0 is the coordinator, which is joined from the beginning")],
            &[words("expected a meter")],
        )
    }

    #[tactic(auto, unfolding(crate::specs::EventFindings::joined_already))]
    fn joined_already(&self, alloc: Global, meter: u32) -> Result<Finding, AllocError>
        ensures { IfOk result (λ f. f ≡ findings.joined_already self.now meter) }
    {
        found(
            alloc,
            self.line,
            Place::Second,
            &[node(meter), words(" is joined already")],
            &[],
        )
    }

    #[tactic(auto, unfolding(crate::specs::EventFindings::joined_note))]
    fn with_joined(&self, alloc: Global, meter: u32, so_far: Finding) -> Result<Finding, AllocError>
        ensures { IfOk result (λ f. f ≡ noted (findings.joined_note self.now meter) so_far) }
    {
        let row = joined_row(self.made, self.events, meter);
        so_far.with(
            alloc,
            &[words("it was joined in line "), number(row as usize)],
        )
    }

    fn depot_finding(&self, alloc: Global, meter: u32) -> Result<Finding, AllocError>
        ensures { IfOk result (λ f. f ≡ findings.depot_finding self.now meter) }
    {
        if meter == 0 {
            return self.joined_from_start(alloc);
        }
        let so_far = self.joined_already(alloc, meter)?;
        self.with_joined(alloc, meter, so_far)
    }

    #[tactic(auto, unfolding(crate::specs::EventFindings::not_joined_word))]
    fn not_joined_word(
        &self,
        alloc: Global,
        place: Place,
        meter: u32,
    ) -> Result<Finding, AllocError>
        ensures { IfOk result (λ f. f ≡ findings.not_joined_word self.now place meter) }
    {
        found(
            alloc,
            self.line,
            place,
            &[node(meter), words(" is not joined")],
            &[words("`near` is for joined nodes")],
        )
    }

    fn not_joined(&self, alloc: Global, place: Place, meter: u32) -> Result<Finding, AllocError>
        ensures { IfOk result (λ f. f ≡ findings.not_joined self.now place meter) }
    {
        let so_far = self.not_joined_word(alloc, place, meter)?;
        put_depot(alloc, meter, so_far)
    }

    #[tactic(auto, unfolding(crate::specs::EventFindings::near_itself))]
    fn near_itself(&self, alloc: Global) -> Result<Finding, AllocError>
        ensures { IfOk result (λ f. f ≡ findings.near_itself self.now) }
    {
        found(
            alloc,
            self.line,
            Place::Third,
            &[words("a node is not near itself")],
            &[words("the same node twice")],
        )
    }

    #[tactic(auto, unfolding(crate::specs::EventFindings::near_already))]
    fn near_already(&self, alloc: Global, x: u32, y: u32) -> Result<Finding, AllocError>
        ensures { IfOk result (λ f. f ≡ findings.near_already self.now x y) }
    {
        found(
            alloc,
            self.line,
            Place::First,
            &[
                words("nodes "),
                number(x.min(y) as usize),
                words(" and "),
                number(x.max(y) as usize),
                words(" are near already"),
            ],
            &[],
        )
    }

    #[tactic(auto, unfolding(crate::specs::EventFindings::many_neighbours))]
    fn many_neighbours(&self, alloc: Global, place: Place, full: u32) -> Result<Finding, AllocError>
        ensures { IfOk result (λ f. f ≡ findings.many_neighbours self.now place full) }
    {
        found(
            alloc,
            self.line,
            place,
            &[
                words("node "),
                number(full as usize),
                words(" has 64 neighbours, and that is the most"),
            ],
            &[],
        )
    }

    fn full_finding(&self, alloc: Global, x: u32, y: u32) -> Result<Finding, AllocError>
        ensures { IfOk result (λ f. f ≡ findings.full_finding self.now x y) }
    {
        if 64 <= neighbours(self.events, x) {
            return self.many_neighbours(alloc, Place::Second, x);
        }
        self.many_neighbours(alloc, Place::Third, y)
    }

    fn near_by(&self, alloc: Global, row: u32, x: u32, y: u32) -> Result<Finding, AllocError>
        ensures { IfOk result (λ f. f ≡ findings.near_by row self.now x y) }
    {
        if 0 < row {
            let so_far = self.near_already(alloc, x, y)?;
            return by_line(alloc, row, so_far);
        }
        self.full_finding(alloc, x, y)
    }

    #[tactic(auto, unfolding(crate::specs::EventFindings::near_finding))]
    fn near_finding(&self, alloc: Global, x: u32, y: u32) -> Result<Finding, AllocError>
        ensures { IfOk result (λ f. f ≡ findings.near_finding self.now x y) }
    {
        if x == y {
            return self.near_itself(alloc);
        }
        if joined_row(self.made, self.events, x) == 0 {
            return self.not_joined(alloc, Place::Second, x);
        }
        if joined_row(self.made, self.events, y) == 0 {
            return self.not_joined(alloc, Place::Third, y);
        }
        let row = row_of(&Wanted::Near { a: x, b: y }, self.events);
        self.near_by(alloc, row, x, y)
    }

    #[tactic(auto, unfolding(crate::specs::EventFindings::late_word))]
    fn late_word(&self, alloc: Global) -> Result<Finding, AllocError>
        ensures { IfOk result (λ f. f ≡ findings.late_word self.now) }
    {
        let word = word_at(self.line, 0);
        let row = self.other_row;
        found(
            alloc,
            self.line,
            Place::First,
            &[words("a setup line stands behind another kind of line")],
            &[
                words("`"),
                octets(word),
                words("` belongs above line "),
                number(row as usize),
            ],
        )
    }

    #[tactic(auto, unfolding(crate::specs::EventFindings::late_note))]
    fn with_other(&self, alloc: Global, so_far: Finding) -> Result<Finding, AllocError>
        ensures { IfOk result (λ f. f ≡ noted (findings.late_note self.now) so_far) }
    {
        let row = self.other_row;
        let text = self.other_text;
        so_far.with(
            alloc,
            &[
                words("line "),
                number(row as usize),
                words(", `"),
                octets(text),
                words("`, is the first that is no setup"),
            ],
        )
    }

    fn late_setup(&self, alloc: Global) -> Result<Finding, AllocError>
        ensures { IfOk result (λ f. f ≡ noted (findings.late_note self.now) (findings.late_word self.now)) }
    {
        let so_far = self.late_word(alloc)?;
        self.with_other(alloc, so_far)
    }

    #[tactic(auto, unfolding(crate::specs::EventFindings::second_coordinator))]
    fn second_coordinator(&self, alloc: Global) -> Result<Finding, AllocError>
        ensures { IfOk result (λ f. f ≡ findings.second_coordinator self.now) }
    {
        found(
            alloc,
            self.line,
            Place::First,
            &[words("a second coordinator")],
            &[words("a line has one")],
        )
    }

    #[tactic(auto, unfolding(crate::specs::EventFindings::first_is_in))]
    fn with_first(&self, alloc: Global, so_far: Finding) -> Result<Finding, AllocError>
        ensures { IfOk result (λ f. f ≡ noted (findings.first_is_in self.now) so_far) }
    {
        let row = made_row(self.made, 0);
        so_far.with(
            alloc,
            &[words("the first is in line "), number(row as usize)],
        )
    }

    fn coordinator_finding(&self, alloc: Global) -> Result<Finding, AllocError>
        ensures { IfOk result (λ f. f ≡ noted (findings.first_is_in self.now) (findings.second_coordinator self.now)) }
    {
        let so_far = self.second_coordinator(alloc)?;
        self.with_first(alloc, so_far)
    }

    #[tactic(auto, unfolding(crate::specs::EventFindings::no_coordinator))]
    fn no_coordinator(&self, alloc: Global) -> Result<Finding, AllocError>
        ensures { IfOk result (λ f. f ≡ findings.no_coordinator self.now) }
    {
        found(
            alloc,
            self.line,
            Place::First,
            &[words("the first event is not `coordinator`")],
            &[words("expected `coordinator <eui> <key>` before it")],
        )
    }

    #[tactic(auto, unfolding(crate::specs::EventFindings::no_fit))]
    fn no_fit(&self, alloc: Global) -> Result<Finding, AllocError>
        ensures { IfOk result (λ f. f ≡ findings.no_fit self.now) }
    {
        found(
            alloc,
            self.line,
            Place::First,
            &[words("the line does not fit the setup")],
            &[],
        )
    }

    // By the kind of the event.
    fn unfit(&self, alloc: Global) -> Result<Finding, AllocError>
        ensures { IfOk result (λ f. f ≡ findings.unfit self.now.event self.now) }
    {
        match self.event {
            Event::Coordinator { .. } => self.coordinator_finding(alloc),
            Event::Meter { eui, .. } => self.meter_finding(alloc, *eui),
            Event::Depot { node } => self.depot_finding(alloc, *node),
            Event::Near { a, b, .. } => self.near_finding(alloc, *a, *b),
            _ => self.no_fit(alloc),
        }
    }

    // Whether a setup comes after another kind of event.
    fn is_late(&self) -> bool
        ensures { result ≡ findings.is_late self.now }
    {
        0 < self.other_row && is_setup(&act_of(self.event))
    }

    #[tactic(auto, unfolding(crate::specs::EventFindings::setup_finding))]
    fn setup_finding(&self, alloc: Global) -> Result<Finding, AllocError>
        ensures { IfOk result (λ f. f ≡ findings.setup_finding self.now) }
    {
        if self.made.len() == 0 {
            return self.no_coordinator(alloc);
        }
        if self.is_late() {
            return self.late_setup(alloc);
        }
        self.unfit(alloc)
    }

    // # A flight that is not there

    #[tactic(auto, unfolding(crate::specs::EventFindings::lost_word))]
    fn lost_word(&self, alloc: Global, flight: u32) -> Result<Finding, AllocError>
        ensures { IfOk result (λ f. f ≡ findings.lost_word self.now flight) }
    {
        found(
            alloc,
            self.line,
            Place::Second,
            &[
                words("flight "),
                number(flight as usize),
                words(" was lost"),
            ],
            &[words("it can't come any more")],
        )
    }

    #[tactic(auto, unfolding(crate::specs::EventFindings::none_sent))]
    fn none_sent(&self, alloc: Global, flight: u32) -> Result<Finding, AllocError>
        ensures { IfOk result (λ f. f ≡ findings.none_sent self.now flight) }
    {
        found(
            alloc,
            self.line,
            Place::Second,
            &[words("there is no flight "), number(flight as usize)],
            &[words("no flight was sent so far")],
        )
    }

    #[tactic(auto, unfolding(crate::specs::EventFindings::not_so_many))]
    fn not_so_many(&self, alloc: Global, flight: u32) -> Result<Finding, AllocError>
        ensures { IfOk result (λ f. f ≡ findings.not_so_many self.now flight) }
    {
        let last = self.flights;
        found(
            alloc,
            self.line,
            Place::Second,
            &[words("there is no flight "), number(flight as usize)],
            &[
                words("flights are 1 to "),
                number(last as usize),
                words(" here"),
            ],
        )
    }

    fn no_flight(&self, alloc: Global, flight: u32) -> Result<Finding, AllocError>
        ensures { IfOk result (λ f. f ≡ findings.no_flight self.now flight) }
    {
        if self.flights == 0 {
            return self.none_sent(alloc, flight);
        }
        self.not_so_many(alloc, flight)
    }

    fn line_of(&self, place: usize) -> u32
        ensures { result ≡ findings.line_by (slice_get self.now.events place) }
    {
        match self.events.get(place) {
            None => 0,
            Some(event) => event.line,
        }
    }

    #[tactic(auto, unfolding(crate::specs::EventFindings::last_note))]
    fn with_last_at(
        &self,
        alloc: Global,
        place: usize,
        row: u32,
        so_far: Finding,
    ) -> Result<Finding, AllocError>
        requires { place < 2 ^ 64 - 1 }
        ensures { IfOk result (λ f. f ≡ noted (findings.last_note self.now place row) so_far) }
    {
        let last = self.flights;
        let sender = self.sender;
        so_far.with(
            alloc,
            &[
                words("flight "),
                number(last as usize),
                words(", the last, was sent by node "),
                number(sender as usize),
                words(" at event "),
                number(place + 1),
                words(", line "),
                number(row as usize),
            ],
        )
    }

    // With the last flight.
    #[tactic(auto, unfolding(crate::specs::EventFindings::with_last))]
    fn with_last(&self, alloc: Global, so_far: Finding) -> Result<Finding, AllocError>
        ensures { IfOk result (λ f. f ≡ findings.with_last self.now so_far) }
    {
        match sending_of(self.events, self.flights) {
            None => Ok(so_far),
            Some(place) => self.with_last_at(alloc, place, self.line_of(place), so_far),
        }
    }

    // With the last refusal.
    #[tactic(auto, unfolding(crate::specs::EventFindings::with_refusal))]
    fn with_refusal(&self, alloc: Global, so_far: Finding) -> Result<Finding, AllocError>
        ensures { IfOk result (λ f. f ≡ findings.with_refusal self.now so_far) }
    {
        with_refusal_at(alloc, last_refusal(self.events), self.events, so_far)
    }

    fn flight_by(&self, alloc: Global, row: u32, flight: u32) -> Result<Finding, AllocError>
        ensures { IfOk result (λ f. f ≡ findings.flight_by row flight self.now) }
    {
        if 0 < row {
            let so_far = self.lost_word(alloc, flight)?;
            return by_line(alloc, row, so_far);
        }
        let so_far = self.no_flight(alloc, flight)?;
        let so_far = self.with_last(alloc, so_far)?;
        self.with_refusal(alloc, so_far)
    }

    #[tactic(auto, unfolding(crate::specs::EventFindings::flight_finding))]
    fn flight_finding(&self, alloc: Global) -> Result<Finding, AllocError>
        ensures { IfOk result (λ f. f ≡ findings.flight_finding self.now) }
    {
        let flight = flight_named(self.event);
        let row = row_of(&Wanted::Lost { flight }, self.events);
        self.flight_by(alloc, row, flight)
    }

    // # Too many events

    #[tactic(auto, unfolding(crate::specs::EventFindings::too_many))]
    fn too_many(&self, alloc: Global) -> Result<Finding, AllocError>
        ensures { IfOk result (λ f. f ≡ findings.too_many self.now) }
    {
        found(
            alloc,
            self.line,
            Place::First,
            &[words("a script has at most 50,000 events")],
            &[words("this would be event 50,001")],
        )
    }

    #[tactic(auto, unfolding(crate::specs::EventFindings::cut_it))]
    fn events_finding(&self, alloc: Global) -> Result<Finding, AllocError>
        ensures { IfOk result (λ f. f ≡ noted findings.cut_it (findings.too_many self.now)) }
    {
        let so_far = self.too_many(alloc)?;
        so_far.with(alloc, &[words("cut the script in two")])
    }

    /// What is wrong with the event, by the reason why the run does not take it.
    #[tactic(auto, unfolding(crate::specs::EventFindings::event_finding))]
    pub fn finding(&self, alloc: Global, reason: Reason) -> Result<Finding, AllocError>
        ensures { IfOk result (λ f. f ≡ findings.event_finding reason self.now) }
    {
        match reason {
            Reason::Events => self.events_finding(alloc),
            Reason::Node => self.node_finding(alloc),
            Reason::Flight => self.flight_finding(alloc),
            _ => self.setup_finding(alloc),
        }
    }
}

// With an event that was refused, of this number.
#[tactic(auto, unfolding(crate::specs::EventFindings::refusal_note))]
fn with_refused(
    alloc: Global,
    last: usize,
    event: &RecordedEvent,
    so_far: Finding,
) -> Result<Finding, AllocError>
    ensures { IfOk result (λ f. f ≡ noted (findings.refusal_note last event.now) so_far) }
{
    let word = answer_word(event.answer);
    so_far.with(
        alloc,
        &[
            words("event "),
            number(last),
            words(", line "),
            number(event.line as usize),
            words(", was answered `no "),
            words(word),
            words("`, and sent nothing"),
        ],
    )
}

fn with_event(
    alloc: Global,
    event: Option<&RecordedEvent>,
    last: usize,
    so_far: Finding,
) -> Result<Finding, AllocError>
    ensures { IfOk result (λ f. f ≡ findings.with_refusal_by (option_copied event.entry) last so_far) }
{
    match event {
        None => Ok(so_far),
        Some(found) => with_refused(alloc, last, found, so_far),
    }
}

// With the event of a number, which was refused; 0 is none.
fn with_refusal_at(
    alloc: Global,
    last: usize,
    events: &[RecordedEvent],
    so_far: Finding,
) -> Result<Finding, AllocError>
    ensures { IfOk result (λ f. f ≡ findings.with_refusal_at last events.now so_far) }
{
    if last == 0 {
        return Ok(so_far);
    }
    with_event(alloc, events.get(last - 1), last, so_far)
}
