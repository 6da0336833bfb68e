//! How a sealed frame came, and the rank that a route message in it offers.
ghost use Rattle.std.specs.Prelude.{◌≡◌, ◌==◌, ◌+◌, ◌||◌, ◌≤◌, not, IfOk, IfSome};
ghost use Rattle.std.specs.Result.{result_err};
ghost use Rattle.routing_set.specs.RoutingSet as routing;
ghost use Rattle.node_rules.specs.HearingRules as hearing_rules;
ghost use Rattle.plc_station.specs.Offers.{CanBeKept, offer_of, offered_rank};

use crate::station::Station;
use node_rules::Dropped;
use plc_base::{Grant, Keeper, LinkCost, Short};
use routing_set::Rank;

/// The last hop of a sealed frame: which neighbour sent it, whether to all, over a link of which cost, under which number of the caller's,
/// and when, in seconds.
#[derive(Clone, Copy)]
pub struct LastHop {
    pub(crate) by: Short,
    pub(crate) to_all: bool,
    pub(crate) link: LinkCost,
    pub(crate) note: u32,
    pub(crate) time: u64,
}

/// A rank for an address as a route message offers it, with the cost of the link that it came over, which may pass what a rank can hold.
#[derive(Clone, Copy)]
pub struct Offered {
    pub(crate) origin: Short,
    pub(crate) number: u16,
    pub(crate) cost: u32,
}

impl LastHop {
    // The rank for an address that a route message offers at this hop, whose link adds its cost.
    pub(crate) fn offered(&self, origin: Short, number: u16, cost: u16) -> Offered
        ensures { result ≡ record { origin = origin; number = number; cost = cost + self.now.link } }
    {
        Offered {
            origin,
            number,
            cost: u32::from(cost) + u32::from(self.link.number()),
        }
    }
}

/// A rank for an address that is taken: from which neighbour, and when, in seconds.
#[derive(Clone, Copy)]
pub struct Offer {
    pub(crate) by: Short,
    pub(crate) origin: Short,
    pub(crate) rank: Rank,
    pub(crate) time: u64,
}

impl<K: Keeper + Drop> Station<K> {
    // Whether a rank that is offered is not to be taken: the address is the own one, or the rank does not beat that which it has.
    fn is_no_better(&self, grant: &Grant, offered: &Offered) -> bool
        ensures { IfSome self.now.memory
            (λ l. result ≡ ((offered.now.origin == grant.now.address) || not
            (routing.is_better l.routing offered.now.origin (offered_rank offered.now)))) }
    {
        offered.origin.number() == grant.address.number()
            || !self
                .parts
                .routing
                .is_better(offered.origin, offered.number, offered.cost)
    }

    // The rank that is offered, if it is to be taken. NotBetter, CostSpent, RoutesFull, in this order.
    pub(crate) fn take_offer(
        &self,
        grant: &Grant,
        last: &LastHop,
        offered: &Offered,
    ) -> Result<Offer, Dropped>
        requires valid { 1 ≤ offered.now.number }
        ensures fault { IfSome self.now.memory (λ l. hearing_rules.rank_fault l grant.now.address offered.now.origin
            (offered_rank offered.now) last.now.time ≡ result_err result) }
        ensures offer { IfOk result (λ offer. offer ≡ offer_of last.now offered.now) }
        ensures kept { IfOk result (λ offer. IfSome self.now.memory (λ l. CanBeKept l.routing offer)) }
    {
        if self.is_no_better(grant, offered) {
            return Err(Dropped::NotBetter);
        }
        let Ok(cost) = u16::try_from(offered.cost) else {
            return Err(Dropped::CostSpent);
        };
        if self.parts.routing.full(offered.origin, last.time) {
            return Err(Dropped::RoutesFull);
        }
        Ok(Offer {
            by: last.by,
            origin: offered.origin,
            rank: Rank {
                number: offered.number,
                cost,
            },
            time: last.time,
        })
    }
}
