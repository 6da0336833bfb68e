//! Laws of ranks, routes and floors. Each is the contract of a function that does nothing.
ghost use Rattle.routing_set.specs.Laws.{RanksOnlyRise, OffersBeginTheirRoute, EndingsKeepRanks, TheFirstIsForgotten, AnOfferIsFound, OtherHopsStay};
ghost use Rattle.routing_set.specs.Laws.{OffersLead, NumbersLead};

/// The rank of an address, kept or a floor, only rises: over any offers, failed puts, forgetting, routes that end and new
/// starts.
pub fn ranks_only_rise()
    ensures { RanksOnlyRise }
{}

/// An offer that is taken begins the route that it offers, and no other one.
pub fn offers_begin_their_route()
    ensures { OffersBeginTheirRoute }
{}

/// Where routes end, by whatever test, no route begins, and every rank and floor stays.
pub fn endings_keep_ranks()
    ensures { EndingsKeepRanks }
{}

/// The rank that is forgotten is the first in order of those that may be, and there is one exactly where not every entry has a
/// fresh route.
pub fn the_first_is_forgotten()
    ensures { TheFirstIsForgotten }
{}

/// An offer that is taken is then the rank of its address, and the route to it.
pub fn an_offer_is_found()
    ensures { AnOfferIsFound }
{}

/// Where the route to a lost address by a neighbour ends, each next hop stays but that one.
pub fn other_hops_stay()
    ensures { OtherHopsStay }
{}

/// After an offer ranks and floors are what the records give, and where one of its puts failed some ranks and floors are.
pub fn offers_lead()
    ensures { OffersLead }
{}

/// After a number was given out it is what the records give, and where its put failed some number is.
pub fn numbers_lead()
    ensures { NumbersLead }
{}
