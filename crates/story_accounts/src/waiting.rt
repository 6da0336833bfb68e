//! What waits for a route, and why none came.
ghost use Rattle.std.specs.Prelude.{◌≡◌, ◌&&◌, ◌==◌, ◌++◌, IfOk, IfSome, OnOk, ◌<◌, ◌+◌, length, position, string_bytes};
ghost use Rattle.story_accounts.specs.Waits as waits;

use crate::account::Account;
use crate::fates::is_mute;
use crate::searches::{REFUSED, Reach, TOOK};
use frame_facts::Gist;
use line_record::{
    Act, Course, Fate, Kept, KeptEnd, RecordedEvent, RecordedFlight, Story, StoryKind,
    first_nonzero, made_by,
};
use sentence_parts::{node, number, push_parts, words};
use std::alloc::{AllocError, Global};

fn is_sought(wanted: usize, gist: &Gist) -> bool
    ensures { result ≡ waits.is_sought wanted gist.now }
{
    match gist {
        Gist::Seeks { sought, .. } => *sought as usize == wanted,
        _ => false,
    }
}

fn seeks(wanted: usize, flight: Option<RecordedFlight>) -> bool
    ensures { result ≡ waits.seeks wanted flight }
{
    match flight {
        None => false,
        Some(recorded) => is_sought(wanted, &recorded.gist),
    }
}

fn begins_search(gist: &Gist) -> bool
    ensures { result ≡ waits.begins_search gist.now }
{
    match gist {
        Gist::Seeks { cost, .. } => *cost == 0,
        _ => false,
    }
}

fn first_request(made: &[RecordedFlight]) -> Option<usize>
    ensures value { result ≡ position (λ f. waits.begins_search f.gist) made.now }
    ensures bound { IfSome result (λ p. p < length made.now) }
{
    made.iter().position(|flight| begins_search(&flight.gist))
}

// The place of a node's short address.
fn address_of(homes: &[u32], node: u32) -> Option<usize>
    ensures { result ≡ waits.address_of homes.now node }
{
    homes.iter().position(|home| *home == node)
}

fn send_word(send: usize) -> &'static str
    ensures { result.now ≡ waits.send_word send }
{
    if send == 0 {
        return "event ";
    }
    "send "
}

/// The event up to which something was kept, among this many.
pub fn until_of(end: &KeptEnd, count: usize) -> usize
    ensures { result ≡ waits.until_of end.now count }
{
    match end {
        KeptEnd::Still => count,
        KeptEnd::Aged { event, .. } => *event,
        KeptEnd::Restarted { event } => *event,
        KeptEnd::Left { event } => *event,
        KeptEnd::Halted { event } => *event,
    }
}

// Whether a node beside the one that asks refused a request, and took none.
fn is_refuser(asker: u32, place: usize, state: u8) -> bool
    ensures { result ≡ waits.is_refuser asker place state }
{
    state == REFUSED && asker as usize != place
}

fn has_refuser(states: &[u8], asker: u32) -> bool
    ensures { result ≡ waits.has_refuser asker 0 states.now }
{
    for (i, state) in states.iter().enumerate() {
        if is_refuser(asker, i, *state) {
            return true;
        }
    }
    false
}

/// Whether a node took a request.
pub fn has_taken(states: &[u8]) -> bool
    ensures { result ≡ waits.has_taken states.now }
{
    states.iter().any(|state| *state == TOOK)
}

fn push_taker(takers: &mut Vec<usize>, place: usize, state: u8) -> Result<(), AllocError>
    ensures { OnOk result (takers.new.items ≡ takers.old.items ++ waits.taker_if (state == TOOK) place) }
{
    if state == TOOK {
        takers.push(place)?;
    }
    Ok(())
}

// The nodes that took a request, in ascending order.
fn takers_of(alloc: Global, states: &[u8]) -> Result<Vec<usize>, AllocError>
    ensures { IfOk result (λ takers. takers.items ≡ waits.takers_from 0 states.now) }
{
    let mut takers = Vec::new(alloc);
    for (i, state) in states.iter().enumerate() {
        push_taker(&mut takers, i, *state)?;
    }
    Ok(takers)
}

fn comma(place: usize, count: usize) -> &'static str
    ensures { result.now ≡ waits.comma place count }
{
    if place == 0 {
        return "";
    }
    if place == count.saturating_sub(1) {
        return " and ";
    }
    ", "
}

fn push_number_at(
    text: &mut String,
    alloc: Global,
    place: usize,
    count: usize,
    value: usize,
) -> Result<(), AllocError>
    ensures { OnOk result (string_bytes text.new ≡ string_bytes text.old ++ waits.number_at place count value) }
{
    push_parts(text, alloc, &[words(comma(place, count)), number(value)])
}

fn push_numbers(text: &mut String, alloc: Global, numbers: &[usize]) -> Result<(), AllocError>
    ensures { OnOk result (string_bytes text.new ≡ string_bytes text.old ++ waits.numbers_from 0 (length numbers.now) numbers.now) }
{
    for (i, value) in numbers.iter().enumerate() {
        push_number_at(text, alloc, i, numbers.len(), *value)?;
    }
    Ok(())
}

fn meters_word(count: usize) -> &'static str
    ensures { result.now ≡ waits.meters_word count }
{
    if count == 1 {
        return "meter ";
    }
    "meters "
}

#[tactic(auto, unfolding(crate::specs::Waits::meters_text))]
fn push_meters(text: &mut String, alloc: Global, meters: &[usize]) -> Result<(), AllocError>
    ensures { OnOk result (string_bytes text.new ≡ string_bytes text.old ++ waits.meters_text meters.now) }
{
    text.push_str(meters_word(meters.len()))?;
    push_numbers(text, alloc, meters)
}

#[tactic(auto, unfolding(crate::specs::Waits::other_meters))]
fn push_other_meters(text: &mut String, alloc: Global, meters: &[usize]) -> Result<(), AllocError>
    ensures { OnOk result (string_bytes text.new ≡ string_bytes text.old ++ waits.other_meters meters.now) }
{
    if meters.is_empty() {
        return Ok(());
    }
    text.push_str(" and ")?;
    push_meters(text, alloc, meters)
}

#[tactic(auto, unfolding(crate::specs::Waits::coordinator_and))]
fn push_coordinator_and(
    text: &mut String,
    alloc: Global,
    meters: &[usize],
) -> Result<(), AllocError>
    ensures { OnOk result (string_bytes text.new ≡ string_bytes text.old ++ waits.coordinator_and meters.now) }
{
    text.push_str("the coordinator")?;
    push_other_meters(text, alloc, meters)
}

// The names of nodes, the coordinator first.
#[tactic(auto, unfolding(crate::specs::Waits::nodes_text))]
fn push_nodes(text: &mut String, alloc: Global, nodes: &[usize]) -> Result<(), AllocError>
    ensures { OnOk result (string_bytes text.new ≡ string_bytes text.old ++ waits.nodes_text nodes.now) }
{
    let Some((first, rest)) = nodes.split_first() else {
        return Ok(());
    };
    if *first == 0 {
        return push_coordinator_and(text, alloc, rest);
    }
    push_meters(text, alloc, nodes)
}

fn reached_end(refused: bool) -> &'static str
    ensures { result.now ≡ waits.reached_end refused }
{
    if refused {
        return ", and no other node took it";
    }
    ", and no other node heard it"
}

// What a request reached that was not answered.
#[tactic(auto, unfolding(crate::specs::Waits::reached_text))]
fn push_reached(
    text: &mut String,
    alloc: Global,
    states: &[u8],
    asker: u32,
) -> Result<(), AllocError>
    ensures { OnOk result (string_bytes text.new ≡ string_bytes text.old ++ waits.reached_text states.now asker) }
{
    let takers = takers_of(alloc, states)?;
    text.push_str("the request reached ")?;
    push_nodes(text, alloc, takers.as_slice())?;
    text.push_str(reached_end(has_refuser(states, asker)))
}

fn push_answered(text: &mut String, alloc: Global, event: usize) -> Result<(), AllocError>
    ensures { OnOk result (string_bytes text.new ≡ string_bytes text.old ++ waits.answered_text event) }
{
    push_parts(
        text,
        alloc,
        &[
            words("the request was answered (event "),
            number(event),
            words("), and the reply, "),
        ],
    )
}

fn push_late(text: &mut String, alloc: Global, event: usize) -> Result<(), AllocError>
    ensures { OnOk result (string_bytes text.new ≡ string_bytes text.old ++ waits.late_text event) }
{
    push_parts(
        text,
        alloc,
        &[words(", came too late (event "), number(event), words(")")],
    )
}

fn push_lost(text: &mut String, alloc: Global, event: usize) -> Result<(), AllocError>
    ensures { OnOk result (string_bytes text.new ≡ string_bytes text.old ++ waits.lost_text event) }
{
    push_parts(
        text,
        alloc,
        &[words(", was lost (event "), number(event), words(")")],
    )
}

fn push_all_taken(text: &mut String, alloc: Global, event: usize) -> Result<(), AllocError>
    ensures { OnOk result (string_bytes text.new ≡ string_bytes text.old ++ waits.all_taken_text event) }
{
    push_parts(
        text,
        alloc,
        &[
            words("a node answered (event "),
            number(event),
            words("), and no reply is missing"),
        ],
    )
}

fn before_words(mute: bool) -> &'static str
    ensures { result.now ≡ waits.before_words mute }
{
    if mute {
        return "";
    }
    " before that"
}

// What a story waits behind: the first words of it.
fn push_behind(
    text: &mut String,
    alloc: Global,
    what: &'static str,
    first: usize,
    request: usize,
) -> Result<(), AllocError>
    ensures { OnOk result (string_bytes text.new ≡ string_bytes text.old ++ waits.behind_words what.now first request) }
{
    push_parts(
        text,
        alloc,
        &[
            words("it waits behind "),
            words(what),
            number(first),
            words(", whose route request is flight "),
            number(request),
            words(": "),
        ],
    )
}

impl<'a> Account<'a> {
    /// The clock at an event, 0 if there is none.
    pub fn clock_at(&self, event: usize) -> u64
        ensures { result ≡ waits.clock_at self.now event }
    {
        match self.event(event) {
            Some(recorded) => recorded.clock,
            None => 0,
        }
    }

    // The reply that did not come back.
    fn push_reply_by(
        &self,
        text: &mut String,
        flight: usize,
        recorded: &RecordedFlight,
        course: &Course,
    ) -> Result<(), AllocError>
        ensures { OnOk result (string_bytes text.new
            ≡ string_bytes text.old ++ waits.reply_by course.now.fate self.now flight recorded.now course.now) }
    {
        match course.fate {
            Fate::Lost { event } => {
                let way = self.way_text(flight, recorded)?;
                text.push_str(way.as_str())?;
                push_lost(text, self.alloc, event)
            }
            Fate::WentOn { event } => {
                let way = self.way_text(flight, recorded)?;
                text.push_str(way.as_str())?;
                push_late(text, self.alloc, event)
            }
            _ => {
                let fate = self.fate_text(flight)?;
                text.push_str(fate.as_str())
            }
        }
    }

    #[tactic(auto, unfolding(crate::specs::Waits::reply_text))]
    fn push_reply(&self, text: &mut String, flight: usize) -> Result<(), AllocError>
        ensures { OnOk result (string_bytes text.new ≡ string_bytes text.old ++ waits.reply_text self.now flight) }
    {
        let Some(recorded) = self.flight(flight) else {
            return Ok(());
        };
        let Some(course) = self.course(flight) else {
            return Ok(());
        };
        self.push_reply_by(text, flight, &recorded, &course)
    }

    #[tactic(auto, unfolding(crate::specs::Waits::answer_text))]
    fn push_answer(&self, text: &mut String, reach: &Reach) -> Result<(), AllocError>
        ensures { OnOk result (string_bytes text.new ≡ string_bytes text.old ++ waits.answer_text self.now reach.now) }
    {
        if reach.reply() == 0 {
            return push_all_taken(text, self.alloc, reach.answered());
        }
        push_answered(text, self.alloc, reach.answered())?;
        self.push_reply(text, reach.reply())
    }

    // A request that no node heard so far.
    #[tactic(auto, unfolding(crate::specs::Waits::unheard_text))]
    fn push_unheard(
        &self,
        text: &mut String,
        request: usize,
        recorded: &RecordedFlight,
    ) -> Result<(), AllocError>
        ensures { OnOk result (string_bytes text.new ≡ string_bytes text.old ++ waits.unheard_text self.now request recorded.now) }
    {
        let Some(course) = self.course(request) else {
            return Ok(());
        };
        let unreached = self.unreached_text(request, recorded, &course.fate)?;
        text.push_str(unreached.as_str())?;
        text.push_str(before_words(is_mute(&course.fate)))
    }

    #[tactic(auto, unfolding(crate::specs::Waits::refused_text))]
    fn push_refused(
        &self,
        text: &mut String,
        request: usize,
        reach: &Reach,
        recorded: &RecordedFlight,
    ) -> Result<(), AllocError>
        ensures { OnOk result (string_bytes text.new ≡ string_bytes text.old ++ waits.refused_text self.now request reach.now recorded.now) }
    {
        if reach.refusals().is_empty() {
            return self.push_unheard(text, request, recorded);
        }
        let all = self.refused_by_all_text(request, recorded, reach.refusals())?;
        text.push_str(all.as_str())
    }

    #[tactic(auto, unfolding(crate::specs::Waits::unanswered_text))]
    fn push_unanswered(
        &self,
        text: &mut String,
        request: usize,
        reach: &Reach,
        recorded: &RecordedFlight,
    ) -> Result<(), AllocError>
        ensures { OnOk result (string_bytes text.new ≡ string_bytes text.old ++ waits.unanswered_text self.now request reach.now recorded.now) }
    {
        if has_taken(reach.states()) {
            return push_reached(text, self.alloc, reach.states(), u32::from(recorded.from));
        }
        self.push_refused(text, request, reach, recorded)
    }

    // Why a search up to an event gave no route.
    #[tactic(auto, unfolding(crate::specs::Waits::search_text))]
    fn push_search(&self, text: &mut String, request: usize, until: usize) -> Result<(), AllocError>
        ensures { OnOk result (string_bytes text.new ≡ string_bytes text.old ++ waits.search_text self.now request until) }
    {
        let reach = self.reach_of(request, until)?;
        if reach.answered() > 0 {
            return self.push_answer(text, &reach);
        }
        match self.flight(request) {
            None => Ok(()),
            Some(recorded) => self.push_unanswered(text, request, &reach, &recorded),
        }
    }

    // The request that an event makes itself, 0 where it makes none.
    #[tactic(auto, unfolding(crate::specs::Waits::own_request))]
    fn own_request(&self, recorded: &RecordedEvent) -> usize
        ensures { result ≡ waits.own_request self.now recorded.now }
    {
        let made = made_by(recorded, self.run_record.flights.as_slice());
        match first_request(made) {
            None => 0,
            Some(place) => recorded.first_flight as usize + place,
        }
    }

    fn request_in(&self, requests: &[usize], wanted: usize, before: usize) -> usize
        ensures { result ≡ waits.request_in self.now wanted before requests.now 0 }
    {
        let mut found = 0;
        for request in requests {
            if *request < before && seeks(wanted, self.flight(*request)) {
                found = *request;
            }
        }
        found
    }

    // The last request of a node before an event, for the address of another one; 0 if there is none.
    #[tactic(auto, unfolding(crate::specs::Waits::request_for))]
    fn request_before(&self, recorded: &RecordedEvent, node: u32, to: u32) -> usize
        ensures { result ≡ waits.request_for (waits.address_of self.now.homes to) self.now recorded.now node }
    {
        let Some(wanted) = address_of(self.homes, to) else {
            return 0;
        };
        let requests = self.index.requests(node);
        self.request_in(requests, wanted, recorded.first_flight as usize)
    }

    // The node to which a message of a story goes that waits at a node.
    #[tactic(auto, unfolding(crate::specs::Waits::message_to))]
    fn message_to(&self, story: &Story, kept: &Kept) -> u32
        ensures { result ≡ waits.message_to self.now story.now kept.now.node }
    {
        if kept.node != 0 {
            return 0;
        }
        match story.kind {
            StoryKind::Joining => self.agent_of(story),
            _ => story.person,
        }
    }

    // The node that the first flight of a story is for.
    #[tactic(auto, unfolding(crate::specs::Waits::agent_of))]
    fn agent_of(&self, story: &Story) -> u32
        ensures { result ≡ waits.agent_of self.now story.now }
    {
        let Some(recorded) = self.event(story.first) else {
            return story.person;
        };
        match self.course(recorded.first_flight as usize) {
            None => story.person,
            Some(course) => course.to.unwrap_or(story.person),
        }
    }

    fn asked_by(&self, act: &Act, story: &Story, kept: &Kept) -> u32
        ensures { result ≡ waits.asked_by act.now self.now story.now kept.now.node }
    {
        match act {
            Act::Send { to, .. } => *to,
            _ => self.message_to(story, kept),
        }
    }

    fn owner_of(&self, flight: usize) -> usize
        ensures { result ≡ waits.owner_of self.now flight }
    {
        match self.course(flight) {
            Some(course) => course.story,
            None => 0,
        }
    }

    #[tactic(auto, unfolding(crate::specs::Waits::behind_text))]
    fn push_behind(&self, text: &mut String, request: usize, until: usize) -> Result<(), AllocError>
        ensures { OnOk result (string_bytes text.new ≡ string_bytes text.old ++ waits.behind_text self.now request until) }
    {
        if request == 0 {
            return text.push_str("nothing went out");
        }
        let story = self.owner_of(request);
        let send = self.index.send(story);
        let first = first_nonzero(send, self.first_of(story));
        push_behind(text, self.alloc, send_word(send), first, request)?;
        self.push_search(text, request, until)
    }

    /// The request for which something of a story waits that began to at an event, 0 if there is none: of the event itself, or of its node before.
    #[tactic(auto, unfolding(crate::specs::Waits::request_of))]
    pub fn request_of(&self, story: &Story, kept: &Kept, recorded: &RecordedEvent) -> usize
        ensures { result ≡ waits.request_of self.now story.now kept.now recorded.now }
    {
        let own = self.own_request(recorded);
        if own > 0 {
            return own;
        }
        let to = self.asked_by(&recorded.act, story, kept);
        self.request_before(recorded, kept.node, to)
    }

    #[tactic(auto, unfolding(crate::specs::Waits::cause_at))]
    fn push_cause_at(
        &self,
        text: &mut String,
        story: &Story,
        kept: &Kept,
        recorded: &RecordedEvent,
    ) -> Result<(), AllocError>
        ensures { OnOk result (string_bytes text.new ≡ string_bytes text.old ++ waits.cause_at self.now story.now kept.now recorded.now) }
    {
        let until = until_of(&kept.end, self.run_record.events.len());
        let own = self.own_request(recorded);
        if own > 0 {
            return self.push_search(text, own, until);
        }
        let to = self.asked_by(&recorded.act, story, kept);
        self.push_behind(text, self.request_before(recorded, kept.node, to), until)
    }

    /// Appends why no route came for what a story waited for.
    ///
    /// It fails only where memory runs out; the text may end anywhere then.
    #[tactic(auto, unfolding(crate::specs::Waits::cause_text))]
    pub fn push_cause(
        &self,
        text: &mut String,
        story: &Story,
        kept: &Kept,
    ) -> Result<(), AllocError>
        ensures { OnOk result (string_bytes text.new ≡ string_bytes text.old ++ waits.cause_text self.now story.now kept.now) }
    {
        match self.event(kept.event) {
            None => Ok(()),
            Some(recorded) => self.push_cause_at(text, story, kept, &recorded),
        }
    }

    fn push_message_still(&self, text: &mut String, kept: &Kept) -> Result<(), AllocError>
        ensures { OnOk result (string_bytes text.new ≡ string_bytes text.old ++ waits.message_still kept.now) }
    {
        push_parts(
            text,
            self.alloc,
            &[
                words("the message waits at "),
                node(kept.node),
                words(" for a route since event "),
                number(kept.event),
                words("; "),
            ],
        )
    }

    fn push_message_aged(
        &self,
        text: &mut String,
        kept: &Kept,
        event: usize,
        seconds: u64,
    ) -> Result<(), AllocError>
        ensures { OnOk result (string_bytes text.new ≡ string_bytes text.old ++ waits.message_aged kept.now event seconds) }
    {
        push_parts(
            text,
            self.alloc,
            &[
                words("the message waited at "),
                node(kept.node),
                words(" for a route for "),
                number(seconds as usize),
                words(" s and was dropped (event "),
                number(event),
                words("); "),
            ],
        )
    }

    fn push_message_until(
        &self,
        text: &mut String,
        kept: &Kept,
        what: &'static str,
        event: usize,
    ) -> Result<(), AllocError>
        ensures { OnOk result (string_bytes text.new ≡ string_bytes text.old ++ waits.message_until kept.now what.now event) }
    {
        push_parts(
            text,
            self.alloc,
            &[
                words("the message waited for a route until "),
                node(kept.node),
                words(what),
                words(" (event "),
                number(event),
                words("); "),
            ],
        )
    }

    fn push_message_wait(&self, text: &mut String, kept: &Kept) -> Result<(), AllocError>
        ensures { OnOk result (string_bytes text.new ≡ string_bytes text.old ++ waits.message_wait kept.now.end kept.now) }
    {
        match kept.end {
            KeptEnd::Still => self.push_message_still(text, kept),
            KeptEnd::Aged { event, seconds } => self.push_message_aged(text, kept, event, seconds),
            KeptEnd::Restarted { event } => {
                self.push_message_until(text, kept, " restarted", event)
            }
            KeptEnd::Left { event } => self.push_message_until(text, kept, " left", event),
            KeptEnd::Halted { event } => self.push_message_until(text, kept, " lost power", event),
        }
    }

    #[tactic(auto, unfolding(crate::specs::Waits::waiting_text))]
    fn waiting_text(&self, story: &Story, kept: &Kept) -> Result<String, AllocError>
        ensures { IfOk result (λ text. string_bytes text ≡ waits.waiting_text self.now story.now kept.now) }
    {
        let mut text = String::new(self.alloc);
        self.push_message_wait(&mut text, kept)?;
        self.push_cause(&mut text, story, kept)?;
        Ok(text)
    }

    // The last flight by which a story goes.
    fn last_of(&self, kind: StoryKind, story: usize) -> usize
        ensures { result ≡ waits.last_of kind self.now story }
    {
        match kind {
            StoryKind::Joining => self.ends_of(story).borne,
            StoryKind::Renewal => self.ends_of(story).borne,
            StoryKind::Order => self.ends_of(story).borne,
            _ => self.ends_of(story).last,
        }
    }

    /// The loose end of a story: what of it waits, or what became of its last flight.
    #[tactic(auto, unfolding(crate::specs::Waits::loose_text))]
    pub fn loose_text(&self, number: usize) -> Result<String, AllocError>
        ensures { IfOk result (λ text. string_bytes text ≡ waits.loose_text self.now number) }
    {
        let Some(story) = self.story(number) else {
            return String::from_str(self.alloc, "nothing went out");
        };
        match story.waits {
            Some(kept) => self.waiting_text(&story, &kept),
            None => self.fate_text(self.last_of(story.kind, number)),
        }
    }
}
