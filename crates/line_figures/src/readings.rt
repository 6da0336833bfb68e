//! What became of readings.
use crate::spread::Spread;
use serde::Serialize;
use std::alloc::{AllocError, Global};
use std::collections::BTreeMap;

/// A reading on its way.
#[derive(Clone, Copy, Debug)]
struct Progress {
    born: u64,
    came: bool,
    known: bool,
}

// A reading that came: over how many hops, and how long it took, in milliseconds.
#[derive(Clone, Copy, Debug)]
struct Way {
    hops: u32,
    took: u64,
}

/// The readings that came over the same number of hops: how many, and how long they took, in milliseconds.
#[derive(Drop, Debug, Serialize)]
pub struct HopFigures {
    pub hops: u32,
    pub came: u64,
    pub came_ms: Spread,
}

/// The readings, by their meter and round.
#[derive(Drop)]
pub struct Readings {
    readings: BTreeMap<(u32, u32), Progress>,
    pub(crate) tries: u64,
    pub(crate) came: u64,
    pub(crate) known: u64,
    // Those that came.
    ways: Vec<Way>,
    // Their hops in all, and the most of one.
    pub(crate) hops: u64,
    pub(crate) most_hops: u32,
}

impl Readings {
    pub(crate) fn new(alloc: Global) -> Readings {
        Readings {
            readings: BTreeMap::new(alloc),
            tries: 0,
            came: 0,
            known: 0,
            ways: Vec::new(alloc),
            hops: 0,
            most_hops: 0,
        }
    }

    pub(crate) fn count(&self) -> u64 {
        self.readings.len() as u64
    }

    // A reading so far.
    fn take(&mut self, node: u32, round: u32, now: u64) -> Progress {
        match self.readings.remove(&(node, round)) {
            Some(progress) => progress,
            None => Progress {
                born: now,
                came: false,
                known: false,
            },
        }
    }

    /// A reading is due.
    pub fn due(&mut self, node: u32, round: u32, now: u64) -> Result<(), AllocError> {
        let progress = self.take(node, round, now);
        self.readings.insert((node, round), progress)?;
        Ok(())
    }

    /// A reading is tried.
    pub fn tried(&mut self, node: u32, round: u32, now: u64) -> Result<(), AllocError> {
        self.tries = self.tries.saturating_add(1);
        self.due(node, round, now)
    }

    /// A reading came to the coordinator, over this many hops.
    pub fn came(&mut self, node: u32, round: u32, now: u64, hops: u32) -> Result<(), AllocError> {
        let mut progress = self.take(node, round, now);
        if !progress.came {
            progress.came = true;
            self.came = self.came.saturating_add(1);
            self.hops = self.hops.saturating_add(u64::from(hops));
            self.most_hops = self.most_hops.max(hops);
            self.ways.push(Way {
                hops,
                took: now.saturating_sub(progress.born) / 1_000,
            })?;
        }
        self.readings.insert((node, round), progress)?;
        Ok(())
    }

    // How long those took that came.
    fn took(&self, alloc: Global) -> Result<Vec<u64>, AllocError> {
        let mut took = Vec::new(alloc);
        for way in &self.ways {
            took.push(way.took)?;
        }
        Ok(took)
    }

    // How long those took that came over this many hops.
    fn took_over(&self, alloc: Global, hops: u32) -> Result<Vec<u64>, AllocError> {
        let mut took = Vec::new(alloc);
        for way in &self.ways {
            if way.hops == hops {
                took.push(way.took)?;
            }
        }
        Ok(took)
    }

    pub(crate) fn came_ms(&self, alloc: Global) -> Result<Spread, AllocError> {
        let mut took = self.took(alloc)?;
        Spread::of(&mut took)
    }

    /// Those that came by the number of their hops, where there are any, the fewest first.
    pub(crate) fn by_hops(&self, alloc: Global) -> Result<Vec<HopFigures>, AllocError> {
        let mut list = Vec::new(alloc);
        for hops in 0..self.most_hops.saturating_add(1) {
            let mut took = self.took_over(alloc, hops)?;
            if !took.is_empty() {
                list.push(HopFigures {
                    hops,
                    came: took.len() as u64,
                    came_ms: Spread::of(&mut took)?,
                })?;
            }
        }
        Ok(list)
    }

    /// Whoever waits for a reading knows that it came.
    pub fn known(&mut self, node: u32, round: u32, now: u64) -> Result<(), AllocError> {
        let mut progress = self.take(node, round, now);
        if !progress.known {
            progress.known = true;
            self.known = self.known.saturating_add(1);
        }
        self.readings.insert((node, round), progress)?;
        Ok(())
    }
}
