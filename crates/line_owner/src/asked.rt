//! The readings, by their meter and round.
ghost use Rattle.std.specs.Prelude.{◌≡◌, [], OnOk, OnErr};
ghost use Rattle.line_owner.specs.Asked.{reading_at, with_reading};

use std::alloc::{AllocError, Global};
use std::collections::BTreeMap;
use std::marker::Model;

/// What the owner knows of a reading.
#[derive(Clone, Copy, Debug)]
pub struct Reading {
    /// How often it was tried.
    pub tries: u64,
    /// Whether its meter, or whoever asked for it, knows that it came.
    pub known: bool,
}

/// The readings that were tried, by their meter and round. A contract sees the list of them in that order.
#[derive(Drop)]
pub struct Asked {
    readings: BTreeMap<(u32, u32), Reading>,
}

impl Model for Asked {
    ghost use Rattle.std.specs.Prelude.{List, ℕ};
    ghost use Rattle.line_owner.specs.declared.asked.Reading.{Reading};

    ghost Value = { List ((ℕ × ℕ) × Reading) };

    ghost view = { λ a. a.readings.entries };
}

impl Asked {
    /// None was tried.
    pub fn new(alloc: Global) -> Asked
        ensures { result ≡ [] }
    {
        Asked {
            readings: BTreeMap::new(alloc),
        }
    }

    /// A reading, or one that was never tried.
    #[tactic(auto, unfolding(crate::specs::Asked::reading_at))]
    pub fn at(&self, node: u32, round: u32) -> Reading
        ensures { result ≡ reading_at node round self.now }
    {
        match self.readings.get(&(node, round)) {
            Some(reading) => *reading,
            None => Reading {
                tries: 0,
                known: false,
            },
        }
    }

    /// Puts a reading at its meter and round, in place of what was there. Where memory runs out, nothing changes.
    #[tactic(auto, unfolding(crate::specs::Asked::with_reading))]
    pub fn set(&mut self, node: u32, round: u32, reading: Reading) -> Result<(), AllocError>
        ensures changed { OnOk result (self.new ≡ with_reading node round reading self.old) }
        ensures unchanged { OnErr result (self.new ≡ self.old) }
    {
        self.readings.insert((node, round), reading)?;
        Ok(())
    }
}
