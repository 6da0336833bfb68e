//! The stories of a record, while it is gone through.
ghost use Rattle.std.specs.Prelude.{◌≡◌, IfOk, OnOk, length};
ghost use Rattle.line_record.specs.RunRecords.{numbered};
ghost use Rattle.line_record.specs.Kinds as story_kinds;
ghost use Rattle.line_record.specs.Lists.{changed_at};
ghost use Rattle.line_record.specs.Marks as story_marks;
ghost use Rattle.line_record.specs.Stories as spec_stories;

use crate::keeping::{
    begin, end_stories, hand_up, is_about, is_joining, leave, message_about, message_kept,
    piece_kept, still_kept, waiting_kept, waiting_story,
};
use crate::place::{place_of, take_place};
use crate::readiness::{push_owners, take_line, unready};
use crate::{
    Act, Course, Fate, Kept, RecordedEvent, RecordedFlight, RunRecord, Story, actor_of, came,
    change_courses, joins, keeps_joinings, made_by, makes_node, marked, may_end, person_of,
    prepares, sends,
};
use frame_facts::{FrameTarget, Gist};
use line_events::Answer;
use std::alloc::{AllocError, Global};
use std::marker::Model;

/// What is known of the stories of a record, while it is gone through. Stories, events, flights and sends have numbers from 1, nodes and
/// addresses from 0.
#[derive(Drop)]
pub struct RunStories {
    alloc: Global,
    /// The stories.
    pub stories: Vec<Story>,
    /// The story of each event.
    pub owners: Vec<usize>,
    /// What became of each flight.
    pub courses: Vec<Course>,
    /// The story of each send.
    pub sent: Vec<usize>,
    // The last joining or renewal of each node, 0 where there was none.
    joinings: Vec<usize>,
    /// The node of each short address.
    pub homes: Vec<u32>,
    // The nodes that the last events readied for a joining, which have no story so far.
    ready: Vec<u32>,
    // The flight that came at the last event, 0 where none did.
    came: u32,
    // What nodes keep of stories, in the order in which that began.
    keeping: Vec<Kept>,
    // The meter that the joining message is about which the last event made.
    message: Option<u32>,
}

impl Model for RunStories {
    ghost use Rattle.line_record.specs.Stories.{Stories};

    ghost Value = { Stories };

    ghost view = { λ t. record {
      stories = t.stories.items;
      owners = t.owners.items;
      courses = t.courses.items;
      sent = t.sent.items;
      joinings = t.joinings.items;
      homes = t.homes.items;
      ready = t.ready.items;
      came = t.came;
      keeping = t.keeping.items;
      message = t.message;
    } };
}

// The node that gets the next address, where this many are given.
fn newcomer(count: usize, act: &Act, answer: Answer, address: Option<u16>) -> Option<u32>
    ensures { result ≡ spec_stories.newcomer count act.now answer address }
{
    match act {
        Act::Coordinator { .. } => Some(0),
        Act::Depot { node } => depot_newcomer(*node, answer),
        Act::Allow { node } => allow_newcomer(count, *node, answer, address),
        _ => None,
    }
}

fn depot_newcomer(node: u32, answer: Answer) -> Option<u32>
    ensures { result ≡ spec_stories.depot_newcomer node answer }
{
    match answer {
        Answer::Joined => Some(node),
        _ => None,
    }
}

fn allow_newcomer(count: usize, node: u32, answer: Answer, address: Option<u16>) -> Option<u32>
    ensures { result ≡ spec_stories.allow_newcomer count node answer address }
{
    match answer {
        Answer::Allowed => addressed(count, node, address),
        _ => None,
    }
}

fn addressed(count: usize, node: u32, address: Option<u16>) -> Option<u32>
    ensures { result ≡ spec_stories.addressed count node address }
{
    let Some(address) = address else {
        return None;
    };
    if address as usize == count {
        return Some(node);
    }
    None
}

/// Adds a node at the next short address, where an event gives one.
///
/// It fails only where memory runs out, and nothing changes then.
pub fn push_home(homes: &mut Vec<u32>, event: &RecordedEvent) -> Result<(), AllocError>
    ensures { OnOk result (homes.new.items ≡ spec_stories.homes_with
        (spec_stories.newcomer (length homes.old.items) event.now.act event.now.answer event.now.address) homes.old.items) }
{
    match newcomer(homes.len(), &event.act, event.answer, event.address) {
        None => Ok(()),
        Some(node) => {
            homes.push(node)?;
            Ok(())
        }
    }
}

// An event of a story.
fn mark(stories: &mut Vec<Story>, story: usize, number: usize, event: &RecordedEvent)
    ensures { stories.new.items ≡ changed_at story (story_marks.marked number event.now) stories.old.items }
{
    if story == 0 {
        return;
    }
    let Some(old) = stories.get(story - 1) else {
        return;
    };
    let new = marked(number, event, old);
    stories[story - 1] = new;
}

// The datagram of a story is handed up.
fn bring(stories: &mut Vec<Story>, story: usize, number: usize)
    ensures { stories.new.items ≡ changed_at story (story_marks.came number) stories.old.items }
{
    if story == 0 {
        return;
    }
    let Some(old) = stories.get(story - 1) else {
        return;
    };
    let new = came(number, old);
    stories[story - 1] = new;
}

// A datagram of this note is handed up, or none is.
fn mark_up(stories: &mut Vec<Story>, up: Option<u32>, number: usize, sent: &[usize])
    ensures { stories.new.items ≡ spec_stories.up_marked up number sent.now stories.old.items }
{
    let Some(note) = up else {
        return;
    };
    if note == 0 {
        return;
    }
    let Some(story) = sent.get(note as usize - 1) else {
        return;
    };
    bring(stories, *story, number);
}

// A send of a story.
fn push_sent(sent: &mut Vec<usize>, event: &RecordedEvent, story: usize) -> Result<(), AllocError>
    ensures { OnOk result (sent.new.items
        ≡ spec_stories.sent_with (story_kinds.sends event.now.act event.now.answer) story sent.old.items) }
{
    if sends(&event.act, event.answer) {
        sent.push(story)?;
    }
    Ok(())
}

// The story is the last joining of a node.
fn begin_joining(joinings: &mut Vec<usize>, joined: Option<u32>, story: usize)
    ensures { joinings.new.items ≡ spec_stories.joinings_with joined story joinings.old.items }
{
    let Some(node) = joined else {
        return;
    };
    let node = node as usize;
    if node < joinings.len() {
        joinings[node] = story;
    }
}

// A node that is made has no joining.
fn push_node(joinings: &mut Vec<usize>, makes: bool) -> Result<(), AllocError>
    ensures { OnOk result (joinings.new.items ≡ spec_stories.nodes_with makes joinings.old.items) }
{
    if makes {
        joinings.push(0)?;
    }
    Ok(())
}

// The node that a flight is for.
fn node_of(target: &FrameTarget, device: Option<u32>, homes: &[u32]) -> Option<u32>
    ensures { result ≡ spec_stories.node_of target.now device homes.now }
{
    match target {
        FrameTarget::Nobody => None,
        FrameTarget::All => None,
        FrameTarget::Node { address } => homes.get(*address as usize).copied(),
        FrameTarget::Device { .. } => device,
    }
}

fn keeps_at(stories: &[Story], story: usize) -> bool
    ensures { result ≡ spec_stories.keeps_at (numbered stories.now story) }
{
    if story == 0 {
        return false;
    }
    match stories.get(story - 1) {
        None => false,
        Some(found) => keeps_joinings(found.kind),
    }
}

// Whether joining messages about a meter stay with a story.
fn keeps_for(stories: &[Story], story: usize, about: Option<u32>) -> bool
    ensures { result ≡ spec_stories.keeps_for (numbered stories.now story) about }
{
    if story == 0 {
        return false;
    }
    match stories.get(story - 1) {
        None => false,
        Some(found) => keeps_joinings(found.kind) && is_about(about, found.person),
    }
}

fn or_story(other: Option<usize>, story: usize) -> usize
    ensures { result ≡ spec_stories.or_story other story }
{
    match other {
        None => story,
        Some(number) => {
            if number == 0 {
                return story;
            }
            number
        }
    }
}

fn joining_of(device: Option<u32>, joinings: &[usize]) -> Option<usize>
    ensures { result ≡ spec_stories.joining_of device joinings.now }
{
    let Some(node) = device else {
        return None;
    };
    joinings.get(node as usize).copied()
}

fn sent_by(note: u32, sent: &[usize]) -> Option<usize>
    ensures { result ≡ numbered sent.now note }
{
    if note == 0 {
        return None;
    }
    sent.get(note as usize - 1).copied()
}

// The search that a flight is of with this number, by that of the flight for which it is sent.
fn search_of(gist: &Gist, number: usize, search: usize) -> usize
    ensures { result ≡ spec_stories.search_of gist.now number search }
{
    match gist {
        Gist::Seeks { cost, .. } => {
            if *cost == 0 {
                return number;
            }
            search
        }
        Gist::Replies { .. } => search,
        _ => 0,
    }
}

// Whether a meter is that of the message which an event made.
fn is_own(message: Option<u32>, device: Option<u32>) -> bool
    ensures { result ≡ spec_stories.is_own message device }
{
    match message {
        None => false,
        Some(about) => is_about(device, about),
    }
}

// Whether a flight carries the datagram of a story, or a piece of it, or a joining message of it.
fn bears_of(flight: &RecordedFlight, stories: &[Story], owner: usize) -> bool
    ensures { result ≡ spec_stories.bears_of flight.now (numbered stories.now owner) }
{
    if flight.note != 0 {
        return true;
    }
    if is_joining(&flight.gist) {
        return keeps_at(stories, owner);
    }
    false
}

// Whether a flight may have waited for a route.
fn may_leave(flight: &RecordedFlight) -> bool
    ensures { result ≡ spec_stories.may_leave flight.now }
{
    if flight.note != 0 {
        return true;
    }
    is_joining(&flight.gist)
}

impl RunStories {
    /// No stories. It takes no memory.
    pub fn new(alloc: Global) -> RunStories
        ensures { result ≡ spec_stories.no_stories }
    {
        RunStories {
            alloc,
            stories: Vec::new(alloc),
            owners: Vec::new(alloc),
            courses: Vec::new(alloc),
            sent: Vec::new(alloc),
            joinings: Vec::new(alloc),
            homes: Vec::new(alloc),
            ready: Vec::new(alloc),
            came: 0,
            keeping: Vec::new(alloc),
            message: None,
        }
    }

    // The events that readied something, and an event after them, get their stories.
    #[tactic(auto, unfolding(crate::specs::Stories::settled))]
    fn settle(&mut self, act: &Act) -> Result<(), AllocError>
        ensures { OnOk result (self.new ≡ spec_stories.settled act.now self.old) }
    {
        let joined = joins(act);
        let first = self.owners.len() + 1;
        let number = self.owners.len() + self.ready.len() + 1;
        let line = take_line(
            &mut self.stories,
            unready(joined, self.ready.as_slice()),
            first,
            number,
        )?;
        let place = place_of(act, self.stories.as_slice(), self.courses.as_slice());
        let story = take_place(&mut self.stories, place, number, person_of(act))?;
        push_owners(&mut self.owners, self.ready.as_slice(), joined, story, line)?;
        self.owners.push(story)?;
        self.ready.clear();
        Ok(())
    }

    // What an event says to its story and of the line.
    #[tactic(auto, unfolding(crate::specs::Stories::stories_after))]
    fn record(
        &mut self,
        event: &RecordedEvent,
        number: usize,
        story: usize,
    ) -> Result<(), AllocError>
        ensures { OnOk result (self.new ≡ spec_stories.stories_after event.now number story self.old) }
    {
        push_sent(&mut self.sent, event, story)?;
        push_home(&mut self.homes, event)?;
        begin_joining(&mut self.joinings, joins(&event.act), story);
        push_node(&mut self.joinings, makes_node(&event.act))?;
        mark(&mut self.stories, story, number, event);
        mark_up(&mut self.stories, event.up, number, self.sent.as_slice());
        change_courses(&mut self.courses, event, number);
        self.came = event.came;
        Ok(())
    }

    fn last_owner(&self) -> usize
        ensures { result ≡ spec_stories.last_owner self.now.owners }
    {
        match self.owners.last() {
            None => 0,
            Some(story) => *story,
        }
    }

    // An event that prepares a node for a joining has no story so far.
    fn get_ready(&mut self, event: &RecordedEvent, node: u32) -> Result<(), AllocError>
        ensures { OnOk result (self.new ≡ spec_stories.event_by (Some node) event.now self.old) }
    {
        let number = self.owners.len() + self.ready.len() + 1;
        self.ready.push(node)?;
        push_home(&mut self.homes, event)?;
        self.end_kept(event, number)
    }

    /// Adds the next event of a record.
    ///
    /// It fails only where memory runs out; what is left then is not said.
    #[tactic(auto, unfolding(crate::specs::Stories::event_seen))]
    pub fn push_event(&mut self, event: &RecordedEvent) -> Result<(), AllocError>
        ensures { OnOk result (self.new ≡ spec_stories.event_seen event.now self.old) }
    {
        if let Some(node) = prepares(&event.act) {
            return self.get_ready(event, node);
        }
        self.settle(&event.act)?;
        let number = self.owners.len();
        let story = self.last_owner();
        self.record(event, number, story)?;
        self.keep(event, number, story)
    }

    // Ends what an event of this number ends.
    fn end_kept(&mut self, event: &RecordedEvent, number: usize) -> Result<(), AllocError>
        ensures { OnOk result (self.new ≡ spec_stories.kept_ended event.now number self.old) }
    {
        if !may_end(event) {
            return Ok(());
        }
        end_stories(&mut self.stories, number, event, self.keeping.as_slice());
        self.keeping = still_kept(self.alloc, number, event, self.keeping.as_slice())?;
        Ok(())
    }

    // Begins to keep something, if there is such a thing.
    fn begin_kept(&mut self, kept: Option<Kept>) -> Result<(), AllocError>
        ensures { OnOk result (self.new ≡ spec_stories.kept_begun kept self.old) }
    {
        begin(&mut self.stories, &mut self.keeping, kept)
    }

    // Takes away the pieces of a datagram that is handed up.
    fn hand_up(&mut self, event: &RecordedEvent) -> Result<(), AllocError>
        ensures { OnOk result (self.new ≡ spec_stories.up_kept event.now self.old) }
    {
        let Some(note) = event.up else {
            return Ok(());
        };
        let Some(story) = sent_by(note, self.sent.as_slice()) else {
            return Ok(());
        };
        hand_up(&mut self.keeping, self.alloc, story, actor_of(&event.act))
    }

    // What an event of this number makes of what is kept, but for joining messages.
    #[tactic(auto, unfolding(crate::specs::Stories::kept_seen))]
    fn keep(&mut self, event: &RecordedEvent, number: usize, story: usize) -> Result<(), AllocError>
        ensures { OnOk result (self.new ≡ spec_stories.kept_seen event.now number story self.old) }
    {
        self.end_kept(event, number)?;
        self.hand_up(event)?;
        self.begin_kept(waiting_kept(event, number, story))?;
        let piece = piece_kept(
            event,
            number,
            self.courses.as_slice(),
            self.keeping.as_slice(),
        );
        self.begin_kept(piece)
    }

    // The story of a joining message about a meter that an event of a story makes.
    #[tactic(auto, unfolding(crate::specs::Stories::message_story))]
    fn message_story(&self, about: Option<u32>, story: usize) -> usize
        ensures { result ≡ spec_stories.message_story about story self.now }
    {
        if keeps_for(self.stories.as_slice(), story, about) {
            return story;
        }
        or_story(joining_of(about, self.joinings.as_slice()), story)
    }

    // The joining message that an event makes, by all flights of the record and those that the event made.
    #[tactic(auto, unfolding(crate::specs::Stories::announced))]
    fn announce(
        &mut self,
        event: &RecordedEvent,
        flights: &[RecordedFlight],
    ) -> Result<(), AllocError>
        ensures { OnOk result (self.new ≡ spec_stories.announced event.now flights.now self.old) }
    {
        let about = message_about(event, flights);
        let number = self.owners.len();
        let story = self.message_story(about, self.last_owner());
        let made = made_by(event, flights);
        self.begin_kept(message_kept(about, event, number, story, made))?;
        self.message = about;
        Ok(())
    }

    // The story of a joining message that flies.
    #[tactic(auto, unfolding(crate::specs::Stories::message_owner))]
    fn message_owner(&self, flight: &RecordedFlight, story: usize) -> usize
        ensures { result ≡ spec_stories.message_owner flight.now story self.now }
    {
        if is_own(self.message, flight.device) {
            return self.message_story(flight.device, story);
        }
        let from = u32::from(flight.from);
        match waiting_story(from, flight.device, self.keeping.as_slice()) {
            Some(other) => other,
            None => self.message_story(flight.device, story),
        }
    }

    // The story that owns a flight which an event of a story made.
    #[tactic(auto, unfolding(crate::specs::Stories::flight_owner))]
    fn flight_owner(&self, flight: &RecordedFlight, story: usize) -> usize
        ensures { result ≡ spec_stories.flight_owner flight.now story self.now }
    {
        if flight.note != 0 {
            return or_story(sent_by(flight.note, self.sent.as_slice()), story);
        }
        if is_joining(&flight.gist) {
            return self.message_owner(flight, story);
        }
        story
    }

    // The search that the flight is of which came at the last event.
    fn came_search(&self) -> usize
        ensures { result ≡ spec_stories.search_at (numbered self.now.courses self.now.came) }
    {
        if self.came == 0 {
            return 0;
        }
        match self.courses.get(self.came as usize - 1) {
            Some(course) => course.search,
            None => 0,
        }
    }

    // Lets leave what waited of a story for which a flight goes out.
    fn let_leave(&mut self, flight: &RecordedFlight, owner: usize) -> Result<(), AllocError>
        ensures { OnOk result (self.new ≡ spec_stories.let_leave flight.now owner self.old) }
    {
        if !may_leave(flight) {
            return Ok(());
        }
        leave(
            &mut self.stories,
            &mut self.keeping,
            self.alloc,
            owner,
            u32::from(flight.from),
        )
    }

    /// Adds the next flight of a record, after the event that made it.
    ///
    /// It fails only where memory runs out; what is left then is not said.
    #[tactic(auto, unfolding(crate::specs::Stories::flight_seen))]
    pub fn push_flight(&mut self, flight: &RecordedFlight) -> Result<(), AllocError>
        ensures { OnOk result (self.new ≡ spec_stories.flight_seen flight.now self.old) }
    {
        let owner = self.flight_owner(flight, self.last_owner());
        let course = Course {
            story: owner,
            to: node_of(&flight.target, flight.device, self.homes.as_slice()),
            fate: Fate::Missed,
            bears: bears_of(flight, self.stories.as_slice(), owner),
            overheard: false,
            search: search_of(&flight.gist, self.courses.len() + 1, self.came_search()),
        };
        self.courses.push(course)?;
        self.let_leave(flight, owner)
    }

    // The flights of an event.
    fn push_flights(&mut self, flights: &[RecordedFlight]) -> Result<(), AllocError>
        ensures { OnOk result (self.new ≡ spec_stories.flights_seen flights.now self.old) }
    {
        for flight in flights {
            self.push_flight(flight)?;
        }
        Ok(())
    }

    // An event and its flights, of all of the record.
    #[tactic(auto, unfolding(crate::specs::Stories::record_seen))]
    fn push_recorded(
        &mut self,
        event: &RecordedEvent,
        flights: &[RecordedFlight],
    ) -> Result<(), AllocError>
        ensures { OnOk result (self.new ≡ spec_stories.record_seen event.now flights.now self.old) }
    {
        self.push_event(event)?;
        self.announce(event, flights)?;
        self.push_flights(made_by(event, flights))
    }

    // What readied something last, and no joining came.
    fn end(&mut self) -> Result<(), AllocError>
        ensures { OnOk result (self.new ≡ spec_stories.ended self.old) }
    {
        let first = self.owners.len() + 1;
        let number = self.owners.len() + self.ready.len() + 1;
        let line = take_line(
            &mut self.stories,
            unready(None, self.ready.as_slice()),
            first,
            number,
        )?;
        push_owners(&mut self.owners, self.ready.as_slice(), None, 0, line)?;
        self.ready.clear();
        Ok(())
    }
}

/// The stories of a record, with the story of each event and each flight, and what became of each flight.
///
/// It fails only where memory runs out.
#[tactic(auto, unfolding(crate::specs::Stories::stories_of))]
pub fn stories_of(alloc: Global, run_record: &RunRecord) -> Result<RunStories, AllocError>
    ensures { IfOk result (λ run_stories. run_stories ≡ spec_stories.stories_of run_record.now.events.items run_record.now.flights.items) }
{
    let mut run_stories = RunStories::new(alloc);
    for event in &run_record.events {
        run_stories.push_recorded(event, run_record.flights.as_slice())?;
    }
    run_stories.end()?;
    Ok(run_stories)
}
