//! Which neighbours have acknowledged the route replies that were sent to them.
ghost use Rattle.std.specs.Prelude.{◌≡◌, [], true, false, OnErr, MatchResult};
ghost use Rattle.neighbour_checks.specs.Neighbours.{nobody, is_listed, is_awaited, may_begin, sent_after, acked_after, tick_after};
ghost use Rattle.neighbour_checks.specs.History.{History, LeadsOn, Reply, Acknowledgement, Tick, after_history};

use crate::tables::{ListedNeighbours, OpenCheck, OpenChecks};
use plc_base::Short;
use std::marker::Model;
use thiserror::Error;

/// No open check has the neighbour, the number and the origin of the acknowledgement.
#[derive(Clone, Copy, Debug, PartialEq, Eq, Error)]
#[error("no acknowledgement like this is awaited")]
pub struct NotAwaited;

/// The checks of a node's neighbours: which route replies they have still to acknowledge, and which neighbours did not
/// acknowledge one in time and are listed. At most 64 neighbours are open or listed.
///
/// A contract sees both lists.
#[derive(Drop, Debug)]
pub struct Checks {
    checks: OpenChecks,
    listed: ListedNeighbours,
}

impl Model for Checks {
    ghost use Rattle.std.specs.Prelude.{◌≤◌, ◌+◌, length};
    ghost use Rattle.neighbour_checks.specs.Neighbours.{Neighbours};

    ghost Value = { Neighbours };

    ghost view = { λ c. record { checks = c.checks; listed = c.listed } };

    ghost invariant = { λ c. length c.checks + length c.listed ≤ 64 };
}

impl Checks {
    /// No open check and no listed neighbour.
    #[tactic(auto, unfolding(crate::specs::History::after_history))]
    pub fn new() -> Checks
        ensures value { result ≡ nobody }
        ensures history { result ≡ after_history [] }
    {
        Checks {
            checks: OpenChecks::new(),
            listed: ListedNeighbours::new(),
        }
    }

    /// Whether a neighbour is listed: its route requests are not believed.
    pub fn listed(&self, neighbour: Short) -> bool
        ensures { result ≡ is_listed self.now neighbour }
    {
        self.listed.has(neighbour)
    }

    // Whether a reply to a neighbour begins a check.
    fn may_begin(&self, neighbour: Short) -> bool
        ensures { result ≡ may_begin self.now neighbour }
    {
        if self.checks.has(neighbour) {
            return false;
        }
        if self.listed.has(neighbour) {
            return false;
        }
        self.checks.len() + self.listed.len() < 64
    }

    /// A route reply with this number and origin was sent to a neighbour, at a time in seconds. It begins a check exactly where
    /// the neighbour has no open check and is not listed, and fewer than 64 neighbours are open or listed.
    pub fn reply_sent(&mut self, neighbour: Short, number: u16, origin: Short, now: u64)
        ensures value { self.new ≡ sent_after self.old neighbour number origin now }
        ensures history { LeadsOn self.old (Reply neighbour number origin now) self.new }
    {
        if self.may_begin(neighbour) {
            self.checks.begin(OpenCheck {
                neighbour,
                number,
                origin,
                since: now,
            });
        }
    }

    /// A neighbour acknowledged the route reply with this number and origin: its check ends.
    ///
    /// NotAwaited exactly where no open check has this neighbour, number and origin. Nothing changes then.
    pub fn acked(&mut self, neighbour: Short, number: u16, origin: Short) -> Result<(), NotAwaited>
        ensures answer { MatchResult result (λ _. is_awaited self.old neighbour number origin ≡ true)
            (λ _. is_awaited self.old neighbour number origin ≡ false) }
        ensures value { self.new ≡ acked_after self.old neighbour number origin }
        ensures same { OnErr result (self.new ≡ self.old) }
        ensures history { LeadsOn self.old (Acknowledgement neighbour number origin) self.new }
    {
        if !self.checks.awaits(neighbour, number, origin) {
            return Err(NotAwaited);
        }
        self.checks.end(neighbour, number, origin);
        Ok(())
    }

    /// The time is now this, in seconds. Neighbours that have been listed for `LISTED_TIME` are let go, and then the
    /// neighbours whose checks have been open for `CHECK_TIME` are listed.
    pub fn tick(&mut self, now: u64)
        ensures value { self.new ≡ tick_after self.old now }
        ensures history { LeadsOn self.old (Tick now) self.new }
    {
        self.listed.expire(now);
        self.listed.list(self.checks.as_slice(), now);
        self.checks.expire(now);
    }

    /// Forgets all open checks and all listed neighbours, as a restart does.
    #[tactic(auto, unfolding(crate::specs::History::after_history))]
    pub fn clear(&mut self)
        ensures value { self.new ≡ nobody }
        ensures history { self.new ≡ after_history [] }
    {
        self.checks.clear();
        self.listed.clear();
    }
}

impl Default for Checks {
    /// No open check and no listed neighbour.
    fn default() -> Checks
        ensures { result ≡ nobody }
    {
        Checks::new()
    }
}
