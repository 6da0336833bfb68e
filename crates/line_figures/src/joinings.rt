//! How long meters take to join.
use std::alloc::{AllocError, Global};
use std::collections::{BTreeMap, BTreeSet};

/// When meters began to join, and when they had.
#[derive(Drop)]
pub struct Joinings {
    // When each meter began that has not joined since.
    since: BTreeMap<u32, u64>,
    // How long each joining took, in milliseconds.
    pub(crate) took: Vec<u64>,
    pub(crate) tries: u64,
    // The meters that have a ring.
    joined: BTreeSet<u32>,
}

impl Joinings {
    pub(crate) fn new(alloc: Global) -> Joinings {
        Joinings {
            since: BTreeMap::new(alloc),
            took: Vec::new(alloc),
            tries: 0,
            joined: BTreeSet::new(alloc),
        }
    }

    /// A meter will begin at a time, unless it has begun before.
    pub fn begins(&mut self, node: u32, at: u64) -> Result<(), AllocError> {
        if !self.since.contains_key(&node) {
            self.since.insert(node, at)?;
        }
        Ok(())
    }

    /// A meter asks an agent.
    pub fn tried(&mut self) {
        self.tries = self.tries.saturating_add(1);
    }

    /// A meter took its grant.
    pub fn took(&mut self, node: u32, now: u64) -> Result<(), AllocError> {
        if let Some(since) = self.since.remove(&node) {
            self.took.push(now.saturating_sub(since) / 1_000)?;
        }
        self.has_joined(node)
    }

    /// A meter has a ring.
    pub fn has_joined(&mut self, node: u32) -> Result<(), AllocError> {
        self.joined.insert(node)?;
        Ok(())
    }

    /// A meter has no ring any more.
    pub fn left(&mut self, node: u32) {
        self.joined.remove(&node);
    }

    /// How many meters have a ring.
    pub fn joined(&self) -> u64 {
        self.joined.len() as u64
    }
}
