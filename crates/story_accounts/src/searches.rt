//! What a search for a route reached, up to an event: which nodes took a copy of the request, who refused it, whether it was answered, and the reply that
//! did not come back.
ghost use Rattle.std.specs.Prelude.{◌≡◌, IfOk, OnOk};
ghost use Rattle.line_record.specs.Lists.{changed_at};
ghost use Rattle.story_accounts.specs.Searches as searches;

use crate::account::Account;
use frame_facts::Gist;
use line_events::Answer;
use line_record::{Course, Fate, RecordedEvent, RecordedFlight, actor_of, first_nonzero};
use std::alloc::{AllocError, Global};
use std::marker::Model;

/// A node that heard a request and refused it.
pub const REFUSED: u8 = 1;

/// A node that took a request: it sent it on, or answered it.
pub const TOOK: u8 = 2;

/// This many refusals are listed.
const MOST_REFUSALS: usize = 3;

/// What a search reached. Events and flights are meant by their numbers from 1.
#[derive(Drop)]
pub struct Reach {
    // What each node made of the request: 0 where it did not hear it, REFUSED or TOOK.
    states: Vec<u8>,
    // The first events at which a node refused it.
    refusals: Vec<usize>,
    // The first event at which it was answered, 0 where it was not.
    answered: usize,
    // The last reply that was not taken, 0 if there is none.
    reply: usize,
}

impl Model for Reach {
    ghost use Rattle.story_accounts.specs.Searches.{SearchReach};

    ghost Value = { SearchReach };

    ghost view = { λ r. record { states = r.states.items; refusals = r.refusals.items; answered = r.answered; reply = r.reply } };
}

fn state_of(answer: Answer) -> u8
    ensures { result ≡ searches.state_of answer }
{
    match answer {
        Answer::Relayed => TOOK,
        Answer::Answered => TOOK,
        _ => REFUSED,
    }
}

fn is_answered(answer: Answer) -> bool
    ensures { result ≡ searches.is_answered answer }
{
    match answer {
        Answer::Answered => true,
        _ => false,
    }
}

fn greater(state: u8, old: u8) -> u8
    ensures { result ≡ searches.greater state old }
{
    if old < state {
        return state;
    }
    old
}

// A node makes this of the request, by its place from 1.
fn set_state(states: &mut Vec<u8>, at: usize, state: u8)
    ensures { states.new.items ≡ changed_at at (searches.greater state) states.old.items }
{
    if at == 0 {
        return;
    }
    let Some(old) = states.get(at - 1).copied() else {
        return;
    };
    states[at - 1] = greater(state, old);
}

fn push_refusal(refusals: &mut Vec<usize>, refused: bool, event: usize) -> Result<(), AllocError>
    ensures { OnOk result (refusals.new.items ≡ searches.refusals_with refused event refusals.old.items) }
{
    if refused && refusals.len() < MOST_REFUSALS {
        refusals.push(event)?;
    }
    Ok(())
}

fn answered_at(answer: Answer, event: usize, before: usize) -> usize
    ensures { result ≡ searches.answered_at answer event before }
{
    if is_answered(answer) {
        return first_nonzero(before, event);
    }
    before
}

impl Reach {
    /// That of nothing, among this many nodes. It fails only where memory runs out.
    fn new(alloc: Global, nodes: usize) -> Result<Reach, AllocError>
        ensures { IfOk result (λ reach. reach ≡ searches.no_reach nodes) }
    {
        let mut states = Vec::new(alloc);
        states.resize(nodes, 0)?;
        Ok(Reach {
            states,
            refusals: Vec::new(alloc),
            answered: 0,
            reply: 0,
        })
    }

    /// What each node made of the request, by its number from 0: 0 where it did not hear it, [`REFUSED`] or [`TOOK`].
    pub fn states(&self) -> &[u8]
        ensures { result.now ≡ self.now.states }
    {
        self.states.as_slice()
    }

    /// The first three events at which a node refused it.
    pub fn refusals(&self) -> &[usize]
        ensures { result.now ≡ self.now.refusals }
    {
        self.refusals.as_slice()
    }

    /// The first event at which it was answered, 0 where it was not.
    pub fn answered(&self) -> usize
        ensures { result ≡ self.now.answered }
    {
        self.answered
    }

    /// The last reply that was not taken, 0 if there is none.
    pub fn reply(&self) -> usize
        ensures { result ≡ self.now.reply }
    {
        self.reply
    }

    // A node hears the request at an event of this number.
    fn hear(&mut self, event: usize, recorded: &RecordedEvent) -> Result<(), AllocError>
        ensures { OnOk result (self.new ≡ searches.heard event recorded.now self.old) }
    {
        let state = state_of(recorded.answer);
        let at = actor_of(&recorded.act) as usize + 1;
        set_state(&mut self.states, at, state);
        push_refusal(&mut self.refusals, state == REFUSED, event)?;
        self.answered = answered_at(recorded.answer, event, self.answered);
        Ok(())
    }

    // A reply with this number, which was not taken, or was.
    fn miss(&mut self, flight: usize, missed: bool)
        ensures { self.new ≡ searches.missed flight missed self.old }
    {
        if missed {
            self.reply = flight;
        }
    }
}

// Whether a flight is not taken up to an event.
fn is_missing(fate: &Fate, until: usize) -> bool
    ensures { result ≡ searches.is_missing fate.now until }
{
    match fate {
        Fate::WentOn { event } => until < *event,
        _ => true,
    }
}

impl<'a> Account<'a> {
    // Whether a flight is made up to an event.
    fn is_made_by(&self, until: usize, flight: usize) -> bool
        ensures { result ≡ searches.is_made_by self.now until flight }
    {
        match self.event(until) {
            None => false,
            Some(recorded) => flight < recorded.first_flight as usize + recorded.flights as usize,
        }
    }

    fn hear_at(&self, reach: &mut Reach, event: usize, until: usize) -> Result<(), AllocError>
        ensures { OnOk result (reach.new ≡ searches.heard_at self.now event until reach.old) }
    {
        let Some(recorded) = self.event(event) else {
            return Ok(());
        };
        if event <= until {
            reach.hear(event, &recorded)?;
        }
        Ok(())
    }

    fn hear_all(&self, reach: &mut Reach, events: &[usize], until: usize) -> Result<(), AllocError>
        ensures { OnOk result (reach.new ≡ searches.heard_from self.now events.now until reach.old) }
    {
        for event in events {
            self.hear_at(reach, *event, until)?;
        }
        Ok(())
    }

    fn is_reply_missing(&self, flight: usize, until: usize) -> bool
        ensures { result ≡ searches.is_reply_missing self.now flight until }
    {
        let course: Option<Course> = self.course(flight);
        match course {
            None => false,
            Some(course) => self.is_made_by(until, flight) && is_missing(&course.fate, until),
        }
    }

    fn follow_by(
        &self,
        reach: &mut Reach,
        recorded: &RecordedFlight,
        flight: usize,
        until: usize,
    ) -> Result<(), AllocError>
        ensures { OnOk result (reach.new ≡ searches.followed_by recorded.now.gist self.now flight until reach.old) }
    {
        match recorded.gist {
            Gist::Seeks { .. } => self.hear_all(reach, self.index.hearings(flight), until),
            Gist::Replies { .. } => {
                reach.miss(flight, self.is_reply_missing(flight, until));
                Ok(())
            }
            _ => Ok(()),
        }
    }

    fn follow(&self, reach: &mut Reach, flight: usize, until: usize) -> Result<(), AllocError>
        ensures { OnOk result (reach.new ≡ searches.followed self.now flight until reach.old) }
    {
        match self.flight(flight) {
            None => Ok(()),
            Some(recorded) => self.follow_by(reach, &recorded, flight, until),
        }
    }

    fn follow_all(
        &self,
        reach: &mut Reach,
        flights: &[usize],
        until: usize,
    ) -> Result<(), AllocError>
        ensures { OnOk result (reach.new ≡ searches.followed_from self.now flights.now until reach.old) }
    {
        for flight in flights {
            self.follow(reach, *flight, until)?;
        }
        Ok(())
    }

    /// What a search reached up to an event, by the number of the request that began it.
    ///
    /// It fails only where memory runs out.
    #[tactic(auto, unfolding(crate::specs::Searches::reach_of))]
    pub fn reach_of(&self, search: usize, until: usize) -> Result<Reach, AllocError>
        ensures { IfOk result (λ reach. reach ≡ searches.reach_of self.now search until) }
    {
        let mut reach = Reach::new(self.alloc, self.euis.len())?;
        self.follow_all(&mut reach, self.index.search(search), until)?;
        Ok(reach)
    }
}
