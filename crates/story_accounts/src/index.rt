//! What is looked up of a run again and again, found once.
ghost use Rattle.std.specs.Prelude.{◌≡◌, ◌<◌, ◌^◌, IfOk, OnOk};
ghost use Rattle.line_record.specs.Lists.{changed_at};
ghost use Rattle.line_record.specs.RunRecords.{numbered};
ghost use Rattle.line_record.specs.Verdicts.{first_nonzero};
ghost use Rattle.story_accounts.specs.Indexes as indexes;

use crate::numbers::{Numbers, no_numbers, numbered, push_at, push_new_at};
use frame_facts::Gist;
use line_record::{
    Act, Course, RecordedEvent, RecordedFlight, RunRecord, first_nonzero, made_by, went_on,
};
use std::alloc::{AllocError, Global};
use std::marker::Model;

/// Numbers of sends, flights and events, each from 1, by the stories and flights that they belong to.
#[derive(Drop)]
pub struct Index {
    // The first send of each story, 0 where it has none.
    sends: Vec<usize>,
    // The events of each story.
    events: Vec<Numbers>,
    // The flights of each story with its datagram, or a piece of it, that did not go on.
    broken: Vec<Numbers>,
    // The events at which each flight came to a node.
    hearings: Vec<Numbers>,
    // The route requests that each node began.
    requests: Vec<Numbers>,
    // The flights of each search for a route, by the number of the request that began it.
    searches: Vec<Numbers>,
    // The last restart of each node, 0 where there was none.
    restarts: Vec<usize>,
}

impl Model for Index {
    ghost use Rattle.story_accounts.specs.Indexes.{Index};

    ghost Value = { Index };

    ghost view = { λ i. record {
      sends = i.sends.items;
      events = i.events.items;
      broken = i.broken.items;
      hearings = i.hearings.items;
      requests = i.requests.items;
      searches = i.searches.items;
      restarts = i.restarts.items;
    } };
}

fn is_broken(course: &Course) -> bool
    ensures { result ≡ indexes.is_broken course.now }
{
    course.bears && !went_on(&course.fate)
}

// A send of a story, if it is its first.
fn take_send(sends: &mut Vec<usize>, story: usize, send: usize)
    ensures { sends.new.items ≡ changed_at story (λ old. first_nonzero old send) sends.old.items }
{
    if story == 0 {
        return;
    }
    let Some(old) = sends.get(story - 1).copied() else {
        return;
    };
    sends[story - 1] = first_nonzero(old, send);
}

fn take_sends(sends: &mut Vec<usize>, sent: &[usize])
    ensures { sends.new.items ≡ indexes.sends_from 0 sent.now sends.old.items }
{
    for (i, story) in sent.iter().enumerate() {
        take_send(sends, *story, i + 1);
    }
}

fn sends_of(alloc: Global, count: usize, sent: &[usize]) -> Result<Vec<usize>, AllocError>
    ensures { IfOk result (λ sends. sends.items ≡ indexes.sends_of count sent.now) }
{
    let mut sends = Vec::new(alloc);
    sends.resize(count, 0)?;
    take_sends(&mut sends, sent);
    Ok(sends)
}

fn push_broken(broken: &mut Vec<Numbers>, flight: usize, course: &Course) -> Result<(), AllocError>
    ensures { OnOk result (broken.new.items ≡ indexes.broken_with flight course.now broken.old.items) }
{
    if !is_broken(course) {
        return Ok(());
    }
    push_at(broken, course.story, flight)
}

fn push_all_broken(broken: &mut Vec<Numbers>, courses: &[Course]) -> Result<(), AllocError>
    ensures { OnOk result (broken.new.items ≡ indexes.broken_from 0 courses.now broken.old.items) }
{
    for (i, course) in courses.iter().enumerate() {
        push_broken(broken, i + 1, course)?;
    }
    Ok(())
}

fn push_searches(searches: &mut Vec<Numbers>, courses: &[Course]) -> Result<(), AllocError>
    ensures { OnOk result (searches.new.items ≡ indexes.searches_from 0 courses.now searches.old.items) }
{
    for (i, course) in courses.iter().enumerate() {
        push_at(searches, course.search, i + 1)?;
    }
    Ok(())
}

// The place of a node among restarts, from 1, where an event restarts it; 0 else.
fn restarted(act: &Act) -> usize
    ensures { result ≡ indexes.restarted act.now }
{
    match act {
        Act::Restart { node } => *node as usize + 1,
        _ => 0,
    }
}

fn set_restart(restarts: &mut Vec<usize>, place: usize, event: usize)
    ensures { restarts.new.items ≡ changed_at place (indexes.later event) restarts.old.items }
{
    if place == 0 || place > restarts.len() {
        return;
    }
    restarts[place - 1] = event;
}

fn take_restarts(restarts: &mut Vec<usize>, events: &[RecordedEvent])
    ensures { restarts.new.items ≡ indexes.restarts_from 0 events.now restarts.old.items }
{
    for (i, event) in events.iter().enumerate() {
        set_restart(restarts, restarted(&event.act), i + 1);
    }
}

fn restarts_of(
    alloc: Global,
    nodes: usize,
    events: &[RecordedEvent],
) -> Result<Vec<usize>, AllocError>
    ensures { IfOk result (λ restarts. restarts.items ≡ indexes.restarts_of nodes events.now) }
{
    let mut restarts = Vec::new(alloc);
    restarts.resize(nodes, 0)?;
    take_restarts(&mut restarts, events);
    Ok(restarts)
}

fn begins_request(gist: &Gist) -> bool
    ensures { result ≡ indexes.begins_request gist.now }
{
    match gist {
        Gist::Seeks { cost, .. } => *cost == 0,
        _ => false,
    }
}

fn push_request(
    requests: &mut Vec<Numbers>,
    number: usize,
    flight: &RecordedFlight,
) -> Result<(), AllocError>
    ensures { OnOk result (requests.new.items ≡ indexes.requests_with number flight.now requests.old.items) }
{
    if !begins_request(&flight.gist) {
        return Ok(());
    }
    push_at(requests, flight.from as usize + 1, number)
}

fn push_requests(requests: &mut Vec<Numbers>, flights: &[RecordedFlight]) -> Result<(), AllocError>
    ensures { OnOk result (requests.new.items ≡ indexes.requests_from 0 flights.now requests.old.items) }
{
    for (i, flight) in flights.iter().enumerate() {
        push_request(requests, i + 1, flight)?;
    }
    Ok(())
}

fn push_hearings(hearings: &mut Vec<Numbers>, events: &[RecordedEvent]) -> Result<(), AllocError>
    ensures { OnOk result (hearings.new.items ≡ indexes.hearings_from 0 events.now hearings.old.items) }
{
    for (i, event) in events.iter().enumerate() {
        push_at(hearings, event.came as usize, i + 1)?;
    }
    Ok(())
}

// The story that owns an event has it.
fn push_owner(
    events: &mut Vec<Numbers>,
    number: usize,
    owner: Option<usize>,
) -> Result<(), AllocError>
    ensures { OnOk result (events.new.items ≡ indexes.owner_with number owner events.old.items) }
{
    match owner {
        None => Ok(()),
        Some(story) => push_new_at(events, story, number),
    }
}

// The stories of the flights that an event made have it.
fn push_makers(
    events: &mut Vec<Numbers>,
    number: usize,
    courses: &[Course],
) -> Result<(), AllocError>
    ensures { OnOk result (events.new.items ≡ indexes.makers_with number courses.now events.old.items) }
{
    for course in courses {
        push_new_at(events, course.story, number)?;
    }
    Ok(())
}

#[tactic(auto, unfolding(crate::specs::Indexes::event_with))]
fn push_event(
    events: &mut Vec<Numbers>,
    place: usize,
    event: &RecordedEvent,
    owners: &[usize],
    courses: &[Course],
) -> Result<(), AllocError>
    requires { place < 2 ^ 63 }
    ensures { OnOk result (events.new.items ≡ indexes.event_with place event.now owners.now courses.now events.old.items) }
{
    push_owner(events, place + 1, owners.get(place).copied())?;
    push_makers(events, place + 1, made_by(event, courses))
}

fn push_events(
    events: &mut Vec<Numbers>,
    all: &[RecordedEvent],
    owners: &[usize],
    courses: &[Course],
) -> Result<(), AllocError>
    ensures { OnOk result (events.new.items ≡ indexes.events_from 0 all.now owners.now courses.now events.old.items) }
{
    for (i, event) in all.iter().enumerate() {
        push_event(events, i, event, owners, courses)?;
    }
    Ok(())
}

impl Index {
    /// That of a run with this many stories and nodes: by what became of its flights, and the stories of its sends and of its events.
    ///
    /// It fails only where memory runs out.
    #[tactic(auto, unfolding(crate::specs::Indexes::index_of))]
    pub fn new(
        alloc: Global,
        count: usize,
        nodes: usize,
        run_record: &RunRecord,
        courses: &[Course],
        sent: &[usize],
        owners: &[usize],
    ) -> Result<Index, AllocError>
        ensures { IfOk result (λ index. index ≡ indexes.index_of count nodes run_record.now.events.items run_record.now.flights.items
            courses.now sent.now owners.now) }
    {
        let mut index = Index {
            sends: sends_of(alloc, count, sent)?,
            events: no_numbers(alloc, count)?,
            broken: no_numbers(alloc, count)?,
            hearings: no_numbers(alloc, courses.len())?,
            requests: no_numbers(alloc, nodes)?,
            searches: no_numbers(alloc, courses.len())?,
            restarts: restarts_of(alloc, nodes, run_record.events.as_slice())?,
        };
        push_events(
            &mut index.events,
            run_record.events.as_slice(),
            owners,
            courses,
        )?;
        push_all_broken(&mut index.broken, courses)?;
        push_hearings(&mut index.hearings, run_record.events.as_slice())?;
        push_requests(&mut index.requests, run_record.flights.as_slice())?;
        push_searches(&mut index.searches, courses)?;
        Ok(index)
    }

    /// The first send of a story, 0 where it has none.
    pub fn send(&self, story: usize) -> usize
        ensures { result ≡ indexes.send_at self.now story }
    {
        numbered(self.sends.as_slice(), story).unwrap_or(0)
    }

    /// The events of a story.
    pub fn events(&self, story: usize) -> &[usize]
        ensures { result.now ≡ indexes.events_at self.now story }
    {
        numbers_at(self.events.as_slice(), story)
    }

    /// The flights of a story with its datagram, or a piece of it, that did not go on.
    pub fn broken(&self, story: usize) -> &[usize]
        ensures { result.now ≡ indexes.broken_at self.now story }
    {
        numbers_at(self.broken.as_slice(), story)
    }

    /// The route requests that a node began, by its number from 0.
    pub fn requests(&self, node: u32) -> &[usize]
        ensures { result.now ≡ indexes.requests_at self.now node }
    {
        numbers_at(self.requests.as_slice(), node as usize + 1)
    }

    /// The flights of a search for a route, by the number of the request that began it.
    pub fn search(&self, request: usize) -> &[usize]
        ensures { result.now ≡ indexes.search_at self.now request }
    {
        numbers_at(self.searches.as_slice(), request)
    }

    /// The last event at which a node restarted, 0 where it never did.
    pub fn restart(&self, node: u32) -> usize
        ensures { result ≡ indexes.restart_at self.now node }
    {
        match self.restarts.get(node as usize) {
            Some(event) => *event,
            None => 0,
        }
    }

    /// The events at which a flight came to a node.
    pub fn hearings(&self, flight: usize) -> &[usize]
        ensures { result.now ≡ indexes.hearings_at self.now flight }
    {
        numbers_at(self.hearings.as_slice(), flight)
    }
}

// The list of a number from 1, no numbers where there is none.
fn numbers_at(lists: &[Numbers], number: usize) -> &[usize]
    ensures { result.now ≡ indexes.numbers_or_none (numbered lists.now number) }
{
    if number == 0 {
        return &[];
    }
    match lists.get(number - 1) {
        Some(list) => list.as_slice(),
        None => &[],
    }
}
