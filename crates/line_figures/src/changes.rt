//! What became of changes of the key.
use serde::Serialize;
use std::alloc::{AllocError, Global};

/// A change of the key. Times are seconds.
#[derive(Drop, Debug, Serialize)]
pub struct ChangeFigures {
    pub index: u8,
    /// When the key was drawn.
    pub began: u64,
    /// How often a meter was challenged.
    pub challenges: u64,
    /// How many meters have the key.
    pub done: u64,
    /// How many were not reached.
    pub unreached: u64,
    /// How many orders were given.
    pub orders: u64,
    /// How long it took until the coordinator sealed with the key; None where it does not.
    pub took: Option<u64>,
}

/// The changes of the key, in their order.
#[derive(Drop)]
pub struct Changes {
    pub(crate) changes: Vec<ChangeFigures>,
}

impl Changes {
    pub(crate) fn new(alloc: Global) -> Changes {
        Changes {
            changes: Vec::new(alloc),
        }
    }

    /// A key was drawn.
    pub fn begins(&mut self, index: u8, now: u64) -> Result<(), AllocError> {
        self.changes.push(ChangeFigures {
            index,
            began: now / 1_000_000,
            challenges: 0,
            done: 0,
            unreached: 0,
            orders: 0,
            took: None,
        })?;
        Ok(())
    }

    /// A meter was challenged.
    pub fn challenged(&mut self) {
        if let Some(change) = self.changes.last_mut() {
            change.challenges = change.challenges.saturating_add(1);
        }
    }

    /// A meter has the key.
    pub fn done(&mut self) {
        if let Some(change) = self.changes.last_mut() {
            change.done = change.done.saturating_add(1);
        }
    }

    /// A meter was not reached.
    pub fn unreached(&mut self) {
        if let Some(change) = self.changes.last_mut() {
            change.unreached = change.unreached.saturating_add(1);
        }
    }

    /// A meter was ordered to seal with the key.
    pub fn ordered(&mut self) {
        if let Some(change) = self.changes.last_mut() {
            change.orders = change.orders.saturating_add(1);
        }
    }

    /// The coordinator seals with the key. The first time counts.
    pub fn ends(&mut self, now: u64) {
        let Some(change) = self.changes.last_mut() else {
            return;
        };
        if change.took.is_none() {
            change.took = Some((now / 1_000_000).saturating_sub(change.began));
        }
    }
}
