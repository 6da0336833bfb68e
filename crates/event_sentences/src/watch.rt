//! What is kept of a node beside what it shows: when its routes ended, which flights came to it, and when it restarted.
ghost use Rattle.std.specs.Prelude.{◌≡◌, [], IfOk, OnOk};
ghost use Rattle.event_sentences.specs.RouteEnds as spec_ends;
ghost use Rattle.event_sentences.specs.Watches as spec_watches;

use crate::route_ends::RouteEnds;
use line_record::{Act, RecordedEvent, takes_counter};
use node_rules::ShownRoute;
use std::alloc::{AllocError, Global};
use std::collections::BTreeMap;
use std::marker::Model;

/// How a flight came to a node: by the numbers of events, 0 if there is none.
#[derive(Clone, Copy)]
pub struct Coming {
    /// The event at which it came first.
    pub first: usize,
    /// The last event at which it was taken as far as its counter.
    pub taken: usize,
}

/// How each flight came to a node that did. A contract sees the list of that, by the numbers of the flights.
#[derive(Drop)]
pub struct Comings {
    events: BTreeMap<u32, Coming>,
}

impl Model for Comings {
    ghost use Rattle.std.specs.Prelude.{List, ℕ};
    ghost use Rattle.event_sentences.specs.declared.watch.Coming.{Coming};

    ghost Value = { List (ℕ × Coming) };

    ghost view = { λ c. c.events.entries };
}

// How a flight came that comes once more.
fn come_again(event: usize, taken: bool, old: Coming) -> Coming
    ensures { result ≡ spec_watches.come_again event taken old }
{
    Coming {
        first: if old.first == 0 { event } else { old.first },
        taken: if taken { event } else { old.taken },
    }
}

fn is_restart(act: &Act) -> bool
    ensures { result ≡ spec_watches.is_restart act.now }
{
    match act {
        Act::Restart { .. } => true,
        _ => false,
    }
}

impl Comings {
    /// No flight came. It takes no memory.
    pub fn new(alloc: Global) -> Comings
        ensures { result ≡ [] }
    {
        Comings {
            events: BTreeMap::new(alloc),
        }
    }

    /// How a flight came.
    pub fn of(&self, flight: u32) -> Coming
        ensures { result ≡ spec_watches.coming_of flight self.now }
    {
        match self.events.get(&flight) {
            Some(coming) => *coming,
            None => Coming { first: 0, taken: 0 },
        }
    }

    /// A flight comes at an event, and is taken as far as its counter or not. It fails only where memory runs out, and nothing changes then.
    #[tactic(auto, using(crate::proofs::InsertedAgain::inserted_again))]
    pub fn push(&mut self, flight: u32, event: usize, taken: bool) -> Result<(), AllocError>
        ensures { OnOk result (self.new ≡ spec_watches.comings_with flight event taken self.old) }
    {
        // Most flights come to a node once, so the flight is not looked up first.
        let first = come_again(event, taken, Coming { first: 0, taken: 0 });
        match self.events.insert(flight, first)? {
            None => Ok(()),
            Some(old) => {
                self.events.insert(flight, come_again(event, taken, old))?;
                Ok(())
            }
        }
    }
}

/// What is kept of a node.
#[derive(Drop)]
pub struct Watch {
    routes: RouteEnds,
    comings: Comings,
    restarted: usize,
}

impl Model for Watch {
    ghost use Rattle.event_sentences.specs.Watches.{Watched};

    ghost Value = { Watched };

    ghost view = { λ w. record { routes = w.routes; comings = w.comings; restarted = w.restarted } };
}

impl Watch {
    /// Nothing happened to it so far. It takes no memory.
    pub fn new(alloc: Global) -> Watch
        ensures { result ≡ spec_watches.unwatched }
    {
        Watch {
            routes: RouteEnds::new(alloc),
            comings: Comings::new(alloc),
            restarted: 0,
        }
    }

    /// The routes after an event of this number, as they are shown then. Answers whether one of them ended.
    ///
    /// It fails only where memory runs out; what is left then is not said.
    pub fn look(
        &mut self,
        alloc: Global,
        event: usize,
        shown: &[ShownRoute],
    ) -> Result<bool, AllocError>
        ensures ended { IfOk result (λ ended. ended ≡ spec_ends.has_ended (spec_ends.valid_dests shown.now) self.old.routes.valid) }
        ensures watch { OnOk result (self.new ≡ spec_watches.looked event shown.now self.old) }
    {
        self.routes.look(alloc, event, shown)
    }

    /// An event of this number, which was one of the node, as far as later sentences go by it.
    ///
    /// It fails only where memory runs out, and nothing changes then.
    pub fn note(&mut self, event: usize, recorded: &RecordedEvent) -> Result<(), AllocError>
        ensures { OnOk result (self.new ≡ spec_watches.noted recorded.now event self.old) }
    {
        if recorded.came > 0 {
            return self
                .comings
                .push(recorded.came, event, takes_counter(recorded.answer));
        }
        if is_restart(&recorded.act) {
            self.restarted = event;
        }
        Ok(())
    }

    /// The event at which the route to an address ended, 0 where it is valid or never was.
    pub fn ended(&self, dest: u16) -> usize
        ensures { result ≡ spec_ends.end_of dest self.now.routes }
    {
        self.routes.ended(dest)
    }

    /// How a flight came to the node.
    pub fn coming(&self, flight: u32) -> Coming
        ensures { result ≡ spec_watches.coming_of flight self.now.comings }
    {
        self.comings.of(flight)
    }

    /// The event at which it restarted last, 0 where it never did.
    pub fn restarted(&self) -> usize
        ensures { result ≡ self.now.restarted }
    {
        self.restarted
    }
}
