//! The tables of a node's open checks and of its listed neighbours.
ghost use Rattle.std.specs.Prelude.{◌≡◌, ◌<◌, ◌≤◌, ◌+◌, ◌++◌, ◌∷◌, ◌==◌, [], length, not};
ghost use Rattle.std.specs.List.{filter, list_any};
ghost use Rattle.neighbour_checks.specs.Neighbours as neighbours;

use arrayvec::ArrayVec;
use plc_base::{Short, is_within};
use std::marker::Model;

/// How long a neighbour has to acknowledge a route reply, in seconds (RREP_ACK of draft-clausen-lln-loadng; the value is this
/// network's own).
pub const CHECK_TIME: u64 = 2;

/// How long a neighbour that did not acknowledge is listed, in seconds (the blacklisted neighbours of
/// draft-clausen-lln-loadng; the value is this network's own).
pub const LISTED_TIME: u64 = 300;

/// A check that is open: a route reply that a neighbour has still to acknowledge.
#[derive(Clone, Copy, Debug, Default)]
pub struct OpenCheck {
    /// The neighbour that the reply went to.
    pub neighbour: Short,
    /// The sequence number of the reply, 1 to 65,535.
    pub number: u16,
    /// The node that gave the number.
    pub origin: Short,
    /// When the reply was sent, in seconds.
    pub since: u64,
}

/// A neighbour that did not acknowledge a route reply.
#[derive(Clone, Copy, Debug, Default)]
pub struct ListedNeighbour {
    /// The neighbour.
    pub neighbour: Short,
    /// The tick, in seconds, that ended its check.
    pub since: u64,
}

/// At most 64 open checks. A contract sees the list of them, in the order in which they began.
#[derive(Drop, Debug)]
pub(crate) struct OpenChecks {
    items: ArrayVec<OpenCheck, 64>,
}

impl Model for OpenChecks {
    ghost use Rattle.std.specs.Prelude.{List};
    ghost use Rattle.neighbour_checks.specs.declared.tables.OpenCheck.{OpenCheck};

    ghost Value = { List OpenCheck };

    ghost view = { λ t. t.items.items };
}

impl OpenChecks {
    /// No check.
    pub(crate) fn new() -> OpenChecks
        ensures { result ≡ [] }
    {
        OpenChecks {
            items: ArrayVec::new(),
        }
    }

    /// How many are open.
    pub(crate) fn len(&self) -> usize
        ensures value { result ≡ length self.now }
        ensures fits { result ≤ 64 }
    {
        self.items.len()
    }

    /// The checks in the order in which they began.
    pub(crate) fn as_slice(&self) -> &[OpenCheck]
        ensures { result.now ≡ self.now }
    {
        self.items.as_slice()
    }

    /// Whether one is of a neighbour.
    pub(crate) fn has(&self, neighbour: Short) -> bool
        ensures { result ≡ list_any (neighbours.is_of neighbour) self.now }
    {
        self.items
            .iter()
            .any(|check| check.neighbour.number() == neighbour.number())
    }

    /// Whether one waits for an acknowledgement with this neighbour, number and origin.
    pub(crate) fn awaits(&self, neighbour: Short, number: u16, origin: Short) -> bool
        ensures { result ≡ list_any (neighbours.waits_for neighbour number origin) self.now }
    {
        self.items
            .iter()
            .any(|check| check.waits_for(neighbour, number, origin))
    }

    /// One more.
    pub(crate) fn begin(&mut self, check: OpenCheck)
        requires { length self.old < 64 }
        ensures { self.new ≡ self.old ++ check ∷ [] }
    {
        self.items.push(check);
    }

    /// Ends what waits for an acknowledgement with this neighbour, number and origin.
    pub(crate) fn end(&mut self, neighbour: Short, number: u16, origin: Short)
        ensures { self.new ≡ filter (λ c. not (neighbours.waits_for neighbour number origin c)) self.old }
    {
        self.items
            .retain(|check| !check.waits_for(neighbour, number, origin));
    }

    /// Ends what has been open for the time of a check.
    pub(crate) fn expire(&mut self, now: u64)
        ensures { self.new ≡ filter (neighbours.is_open_at now) self.old }
    {
        self.items.retain(|check| check.is_open_at(now));
    }

    /// Ends all.
    pub(crate) fn clear(&mut self)
        ensures { self.new ≡ [] }
    {
        self.items.clear();
    }
}

impl OpenCheck {
    // Whether it waits for an acknowledgement with this neighbour, number and origin.
    fn waits_for(&self, neighbour: Short, number: u16, origin: Short) -> bool
        ensures { result ≡ neighbours.waits_for neighbour number origin self.now }
    {
        self.neighbour.number() == neighbour.number()
            && self.number == number
            && self.origin.number() == origin.number()
    }

    // Whether the time of a check has not passed since its reply.
    fn is_open_at(&self, now: u64) -> bool
        ensures { result ≡ neighbours.is_open_at now self.now }
    {
        is_within(CHECK_TIME, now, self.since)
    }
}

impl ListedNeighbour {
    // Whether the time of a listing has not passed since it was listed.
    fn is_listed_at(&self, now: u64) -> bool
        ensures { result ≡ neighbours.is_listed_at now self.now }
    {
        is_within(LISTED_TIME, now, self.since)
    }
}

/// At most 64 listed neighbours. A contract sees the list of them, in the order in which they were listed.
#[derive(Drop, Debug)]
pub(crate) struct ListedNeighbours {
    items: ArrayVec<ListedNeighbour, 64>,
}

impl Model for ListedNeighbours {
    ghost use Rattle.std.specs.Prelude.{List};
    ghost use Rattle.neighbour_checks.specs.declared.tables.ListedNeighbour.{ListedNeighbour};

    ghost Value = { List ListedNeighbour };

    ghost view = { λ t. t.items.items };
}

impl ListedNeighbours {
    /// None.
    pub(crate) fn new() -> ListedNeighbours
        ensures { result ≡ [] }
    {
        ListedNeighbours {
            items: ArrayVec::new(),
        }
    }

    /// How many are listed.
    pub(crate) fn len(&self) -> usize
        ensures value { result ≡ length self.now }
        ensures fits { result ≤ 64 }
    {
        self.items.len()
    }

    /// Whether a neighbour is.
    pub(crate) fn has(&self, neighbour: Short) -> bool
        ensures { result ≡ list_any (λ (l : ListedNeighbour). l.neighbour == neighbour) self.now }
    {
        self.items
            .iter()
            .any(|listed| listed.neighbour.number() == neighbour.number())
    }

    /// Lets those go that have been listed for the time of a listing.
    pub(crate) fn expire(&mut self, now: u64)
        ensures { self.new ≡ filter (neighbours.is_listed_at now) self.old }
    {
        self.items.retain(|listed| listed.is_listed_at(now));
    }

    // Lists the neighbour of a check, if the time of a check has passed for it.
    fn list_one(&mut self, check: &OpenCheck, now: u64)
        requires { length self.old + length (neighbours.newly_listed now (check.now ∷ [])) ≤ 64 }
        ensures { self.new ≡ self.old ++ neighbours.newly_listed now (check.now ∷ []) }
    {
        if check.is_open_at(now) {
            return;
        }
        self.items.push(ListedNeighbour {
            neighbour: check.neighbour,
            since: now,
        });
    }

    /// Lists the neighbours of those checks that the time of a check has passed for.
    pub(crate) fn list(&mut self, checks: &[OpenCheck], now: u64)
        requires { length self.old + length (neighbours.newly_listed now checks.now) ≤ 64 }
        ensures { self.new ≡ self.old ++ neighbours.newly_listed now checks.now }
    {
        for check in checks {
            self.list_one(check, now);
        }
    }

    /// Lets all go.
    pub(crate) fn clear(&mut self)
        ensures { self.new ≡ [] }
    {
        self.items.clear();
    }
}
