//! Which routes end.
ghost use Rattle.std.specs.Prelude.{◌≡◌};
ghost use Rattle.routing_set.specs.RoutingSet.{without_route};
ghost use Rattle.routing_set.specs.RouteEnds.{takes, after_ending};

use crate::RoutingEntry;
use plc_base::Short;

// Which routes end.
#[derive(Clone, Copy)]
pub(crate) enum Ending {
    // Those by a next hop.
    By(Short),
    // The one to an address, if it goes by a next hop: first the address, then the next hop.
    To(Short, Short),
    // Every one.
    Every,
    // Those that were offered `ROUTE_VALID_TIME` before a time or earlier.
    Old(u64),
}

impl Ending {
    fn takes(&self, entry: &RoutingEntry) -> bool
        ensures { result ≡ takes self.now entry.now }
    {
        match *self {
            Ending::By(next) => entry.goes_by(next),
            Ending::To(dest, next) => {
                entry.address.number() == dest.number() && entry.goes_by(next)
            }
            Ending::Every => true,
            Ending::Old(now) => entry.is_old(now),
        }
    }

    // The entry with no route, if its route is one of those that end. Its rank stays.
    pub(crate) fn applied(&self, entry: RoutingEntry) -> RoutingEntry
        ensures entry { result ≡ after_ending self.now entry }
        ensures rest { without_route result ≡ without_route entry }
    {
        if !self.takes(&entry) {
            return entry;
        }
        RoutingEntry {
            address: entry.address,
            rank: entry.rank,
            route: None,
        }
    }
}
