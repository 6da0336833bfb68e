//! Which flight was sealed with which counter.
ghost use Rattle.std.specs.Prelude.{◌≡◌, [], OnOk};
ghost use Rattle.line_record.specs.Counters.{counters_with, flight_with};

use frame_facts::FlightMore;
use std::alloc::{AllocError, Global};
use std::collections::BTreeMap;
use std::marker::Model;

/// The first flight of each counter of each sender. A contract sees the list of their numbers, by the address of the sender and the counter.
#[derive(Drop)]
pub struct Counters {
    flights: BTreeMap<(u16, u32), u32>,
}

impl Model for Counters {
    ghost use Rattle.std.specs.Prelude.{List, ℕ};

    ghost Value = { List ((ℕ × ℕ) × ℕ) };

    ghost view = { λ c. c.flights.entries };
}

impl Counters {
    /// No flight. It takes no memory.
    pub fn new(alloc: Global) -> Counters
        ensures { result ≡ [] }
    {
        Counters {
            flights: BTreeMap::new(alloc),
        }
    }

    /// The number of the first flight of a sender with a counter, from 1; 0 if there is none.
    #[tactic(auto, unfolding(crate::specs::Counters::flight_with))]
    pub fn flight(&self, from: u16, counter: u32) -> u32
        ensures { result ≡ flight_with from counter self.now }
    {
        match self.flights.get(&(from, counter)) {
            Some(flight) => *flight,
            None => 0,
        }
    }

    /// Adds the flight of this number, from 1. It fails only where memory runs out, and nothing changes then.
    #[tactic(auto, unfolding(crate::specs::Counters::counters_with))]
    pub fn push(&mut self, flight: u32, more: &FlightMore) -> Result<(), AllocError>
        ensures { OnOk result (self.new ≡ counters_with flight more.now self.old) }
    {
        if !more.sealed {
            return Ok(());
        }
        if self.flight(more.from, more.counter) > 0 {
            return Ok(());
        }
        self.flights.insert((more.from, more.counter), flight)?;
        Ok(())
    }
}
