//! What is due, and when.
ghost use Rattle.std.specs.Prelude.{◌≡◌, [], OnOk};
ghost use Rattle.line_air.specs.Calendars.{put, first_time, first_due, later};

use std::alloc::{AllocError, Global};
use std::collections::BTreeMap;
use std::marker::Model;

/// What is due.
#[derive(Clone, Copy, Debug)]
pub enum Moment {
    /// A node tries to send the first frame of its queue.
    Attempt {
        node: u32,
    },
    /// The frame of a node ends.
    End {
        node: u32,
        flight: u32,
        segments: u32,
    },
    /// A task of the line's owner, by its number.
    Task(u32),
}

/// A moment with its time.
#[derive(Clone, Copy, Debug)]
pub struct Due {
    /// In microseconds.
    pub at: u64,
    pub moment: Moment,
}

/// What is due, by its time in microseconds, and at one time in the order in which it was put there.
///
/// A contract sees the list of it.
#[derive(Drop)]
pub struct Calendar {
    // By the time and a number that grows with each put.
    moments: BTreeMap<(u64, u64), Moment>,
    next: u64,
}

impl Model for Calendar {
    ghost use Rattle.std.specs.Prelude.{List};
    ghost use Rattle.line_air.specs.declared.calendar.Due.{Due};
    ghost use Rattle.line_air.specs.Numbered.{due_of, AreBefore};

    ghost Value = { List Due };

    ghost view = { λ c. due_of c.moments.entries };

    ghost invariant = { λ c. AreBefore c.next c.moments.entries };
}

impl Calendar {
    /// Nothing is due.
    pub fn new(alloc: Global) -> Calendar
        ensures { result ≡ [] }
    {
        Calendar {
            moments: BTreeMap::new(alloc),
            next: 0,
        }
    }

    /// Puts a moment at a time, after all that is due no later. Where memory runs out, or after 2^64 - 1 moments, nothing changes.
    #[tactic(auto, using(crate::proofs::CalendarPuts::putting))]
    pub fn put(&mut self, at: u64, moment: Moment) -> Result<(), AllocError>
        ensures { OnOk result (self.new ≡ put at moment self.old) }
    {
        if self.next == u64::MAX {
            return Err(AllocError);
        }
        self.moments.insert((at, self.next), moment)?;
        self.next += 1;
        Ok(())
    }

    /// When the first moment is due.
    #[tactic(auto, using(crate::proofs::CalendarPuts::putting))]
    pub fn first(&self) -> Option<u64>
        ensures { result ≡ first_time self.now }
    {
        match self.moments.first_key_value() {
            Some((key, _)) => Some(key.0),
            None => None,
        }
    }

    /// Takes the first moment out, with its time.
    #[tactic(auto, using(crate::proofs::CalendarPuts::putting))]
    pub fn take(&mut self) -> Option<Due>
        ensures first { result ≡ first_due self.old }
        ensures rest { self.new ≡ later self.old }
    {
        match self.moments.pop_first() {
            Some((key, moment)) => Some(Due { at: key.0, moment }),
            None => None,
        }
    }
}
