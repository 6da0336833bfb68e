//! What becomes of datagrams and units over one hop and over several.
ghost use Rattle.worked_scripts.specs.HopScripts.{ARepeatIsRefused, DatagramsOfEverySize, DiscoveryOverTwoRelays, ABrokenRouteStaysBroken};
ghost use Rattle.worked_scripts.specs.HopScripts.{ALostFlightComesNoMore, AUnitGoesOnWhileHopsAreLeft, EveryUnitGoesOn, AUnitWithoutARouteIsReported};
ghost use Rattle.worked_scripts.specs.HopScripts.{GoingOnTakesACounter, AnErrorGoesOnToItsTarget, AnErrorThatGoesOnTakesACounter, AnErrorForItsTargetGoesOn};
ghost use Rattle.worked_scripts.specs.HopScripts.{WhatIsShownIsInOrder};

/// A datagram over one hop is handed up, and its repeat is refused.
#[tactic(auto, using(crate::proofs::HopScripts::a_repeat_is_refused))]
pub fn a_repeat_is_refused()
    ensures { ARepeatIsRefused }
{}

/// A datagram of 375 octets goes whole, a longer one goes in pieces, and a piece that was overtaken on one hop is refused.
#[tactic(auto, using(crate::proofs::HopScripts::datagrams_of_every_size))]
pub fn datagrams_of_every_size()
    ensures { DatagramsOfEverySize }
{}

/// A route over two relays is found by the cheaper way, and what waited is handed up; it waits no more, so that the next datagram seeks the
/// route again.
#[tactic(auto, using(crate::proofs::HopScripts::discovery_over_two_relays))]
pub fn discovery_over_two_relays()
    ensures { DiscoveryOverTwoRelays }
{}

/// An old request does not revive a route that broke, whose rank stays.
#[tactic(auto, using(crate::proofs::HopScripts::a_broken_route_stays_broken))]
pub fn a_broken_route_stays_broken()
    ensures { ABrokenRouteStaysBroken }
{}

/// A flight that was lost is not there any more.
#[tactic(auto, using(crate::proofs::HopScripts::a_lost_flight_comes_no_more))]
pub fn a_lost_flight_comes_no_more()
    ensures { ALostFlightComesNoMore }
{}

/// A unit goes on with one hop less while it has two, and its hops are spelled in their shortest form.
#[tactic(auto, using(crate::proofs::HopScripts::a_unit_goes_on_while_hops_are_left))]
pub fn a_unit_goes_on_while_hops_are_left()
    ensures { AUnitGoesOnWhileHopsAreLeft }
{}

/// Pieces and joining commands for another node go on as datagrams do, unread.
#[tactic(auto, using(crate::proofs::HopScripts::every_unit_goes_on))]
pub fn every_unit_goes_on()
    ensures { EveryUnitGoesOn }
{}

/// A unit that can't go on is reported to its origin, where a route leads there and it is another node; no hop need be left to it.
#[tactic(auto, using(crate::proofs::HopScripts::a_unit_without_a_route_is_reported))]
pub fn a_unit_without_a_route_is_reported()
    ensures { AUnitWithoutARouteIsReported }
{}

/// Going on and reporting take one counter each, and hops are judged before counters.
#[tactic(auto, using(crate::proofs::HopScripts::going_on_takes_a_counter))]
pub fn going_on_takes_a_counter()
    ensures { GoingOnTakesACounter }
{}

/// A route error ends the route to the lost address where it goes by the neighbour, keeps its rank, and goes on to another target.
#[tactic(auto, using(crate::proofs::HopScripts::an_error_goes_on_to_its_target))]
pub fn an_error_goes_on_to_its_target()
    ensures { AnErrorGoesOnToItsTarget }
{}

/// An error that can't go on is refused and ends no route; one that need not go on takes no counter.
#[tactic(auto, using(crate::proofs::HopScripts::an_error_that_goes_on_takes_a_counter))]
pub fn an_error_that_goes_on_takes_a_counter()
    ensures { AnErrorThatGoesOnTakesACounter }
{}

/// A route error whose lost address is its target goes on by a route that another hop leads, which takes a counter; where the route goes by
/// the sender, none is left, and no frame goes out.
#[tactic(auto, using(crate::proofs::HopScripts::an_error_for_its_target_goes_on))]
pub fn an_error_for_its_target_goes_on()
    ensures { AnErrorForItsTargetGoesOn }
{}

/// Ranks and marks are shown in the order of addresses, and not in that of hearing.
#[tactic(auto, using(crate::proofs::HopScripts::what_is_shown_is_in_order))]
pub fn what_is_shown_is_in_order()
    ensures { WhatIsShownIsInOrder }
{}
