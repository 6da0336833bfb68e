//! What is kept of one address.
ghost use Rattle.std.specs.Prelude.{◌≡◌, Option};
ghost use Rattle.routing_set.specs.FirstEnd.{end_by};
ghost use Rattle.routing_set.specs.RoutingSet.{is_fresh, goes_before, comes_first, first_of, is_old, goes_by};

use crate::Rank;
use byteorder::{BigEndian, ByteOrder};
use plc_base::{Record, Short, earlier_end, is_within};
use store_tables::SlotEntry;

/// A valid route.
#[derive(Clone, Copy, Debug, PartialEq, Eq)]
pub struct Route {
    /// The neighbour that it goes by.
    pub next: Short,
    /// When it was offered, in seconds.
    pub offered: u64,
}

/// One address with its rank, and the valid route to it, if there is one (a Routing Tuple of LOADng).
#[derive(Clone, Copy, Debug, Default, PartialEq, Eq)]
pub struct RoutingEntry {
    /// The address.
    pub address: Short,
    /// Its kept rank.
    pub rank: Rank,
    /// The valid route to it.
    pub route: Option<Route>,
}

/// The first slot of the ranks.
const FIRST_SLOT: u32 = 0x0200;

/// How long a route counts as fresh after its offer, in seconds: an entry is not forgotten for another address as long as its
/// route is fresh (a rule of this network).
pub const ROUTE_FRESH_TIME: u64 = 60;

/// How long a route is valid after its offer, in seconds (the validity time of a Routing Tuple of LOADng; the value is this
/// network's own).
pub const ROUTE_VALID_TIME: u64 = 21_600;

impl SlotEntry for RoutingEntry {
    ghost use Rattle.std.specs.Prelude.{refl};
    ghost use Rattle.routing_set.specs.RoutingSet.{ranks, entry_in-rests};

    ghost layout = { ranks };

    ghost rests = { λ _ octets e h. entry_in-rests octets e h };

    ghost keeps_key = { λ _. refl };

    fn key(&self) -> u64 {
        self.address.key()
    }

    fn slot(place: usize) -> u32 {
        FIRST_SLOT + place as u32
    }

    fn read(_place: usize, octets: &[u8]) -> Option<RoutingEntry> {
        if octets.len() != 6 {
            return None;
        }
        let address = Short::new(BigEndian::read_u16(octets))?;
        let number = BigEndian::read_u16(&octets[2..]);
        if number == 0 {
            return None;
        }
        let cost = BigEndian::read_u16(&octets[4..]);
        Some(RoutingEntry {
            address,
            rank: Rank { number, cost },
            route: None,
        })
    }

    fn record(&self, _place: usize) -> Record {
        let mut octets = Record::new();
        octets.push_be_u16(self.address.number());
        octets.push_be_u16(self.rank.number);
        octets.push_be_u16(self.rank.cost);
        octets
    }
}

impl RoutingEntry {
    // Whether it has a valid route that is fresh.
    pub(crate) fn is_fresh(&self, now: u64) -> bool
        ensures { result ≡ is_fresh now self.now }
    {
        match self.route {
            Some(route) => is_within(ROUTE_FRESH_TIME, now, route.offered),
            None => false,
        }
    }

    // Whether it has a route that is valid no more at this time.
    pub(crate) fn is_old(&self, now: u64) -> bool
        ensures { result ≡ is_old now self.now }
    {
        match self.route {
            Some(route) => !is_within(ROUTE_VALID_TIME, now, route.offered),
            None => false,
        }
    }

    // The earlier of a time and of when its valid route ends.
    pub(crate) fn end_by(&self, time: u64) -> u64
        ensures { result ≡ end_by time self.now }
    {
        match self.route {
            Some(route) => earlier_end(ROUTE_VALID_TIME, time, route.offered),
            None => time,
        }
    }

    // Whether it has a valid route by a next hop.
    pub(crate) fn goes_by(&self, next: Short) -> bool
        ensures { result ≡ goes_by next self.now }
    {
        match self.route {
            Some(route) => route.next.number() == next.number(),
            None => false,
        }
    }

    // Whether it is forgotten before another entry: one with no valid route is, then the lower number, and else the earlier
    // offer; of equal ones the lower address.
    fn goes_before(self, other: RoutingEntry) -> bool
        ensures { result ≡ goes_before self other }
    {
        match (self.route, other.route) {
            (None, None) => comes_first(
                u64::from(self.rank.number),
                self.address,
                u64::from(other.rank.number),
                other.address,
            ),
            (None, Some(_)) => true,
            (Some(_), None) => false,
            (Some(one), Some(two)) => {
                comes_first(one.offered, self.address, two.offered, other.address)
            }
        }
    }
}

// Whether a number with its address comes before another: the lower one, of equal ones that of the lower address.
fn comes_first(number: u64, address: Short, other: u64, other_address: Short) -> bool
    ensures { result ≡ comes_first number address other other_address }
{
    number < other || (number == other && address.number() < other_address.number())
}

// The one so far or another one, whichever can be forgotten and goes before.
pub(crate) fn first_of(
    now: u64,
    best: Option<RoutingEntry>,
    entry: RoutingEntry,
) -> Option<RoutingEntry>
    ensures { result ≡ first_of now best entry }
{
    if entry.is_fresh(now) {
        return best;
    }
    let Some(other) = best else {
        return Some(entry);
    };
    Some(if entry.goes_before(other) {
        entry
    } else {
        other
    })
}
