//! A datagram without a route finds its way and arrives; where the nodes of the way lack one thing alone, it does not.
ghost use Rattle.worked_scripts.specs.DiscoveryScripts.{TheWayMayBeFound, ADatagramFindsItsWay, TheWayMayBeFoundForPieces, PiecesFindTheirWay};
ghost use Rattle.worked_scripts.specs.DiscoveryScripts.{EachNodeOfAWayIsReady, TheWayIsStraight, TheNodeMaySeek, EachNodeTakesTheRequest};
ghost use Rattle.worked_scripts.specs.DiscoveryScripts.{EachNodeTakesTheReply, TheNodeThatAsksLearns, NeighboursHaveTheirAddresses};
ghost use Rattle.worked_scripts.specs.DiscoveryScripts.{WhatElseASearchNeeds};

/// A datagram of one octet may find its way between meters that know no route.
#[tactic(auto, using(crate::proofs::DiscoveryScripts::the_way_may_be_found))]
pub fn the_way_may_be_found()
    ensures { TheWayMayBeFound }
{}

/// It arrives.
#[tactic(auto, using(crate::proofs::DiscoveryScripts::a_datagram_finds_its_way))]
pub fn a_datagram_finds_its_way()
    ensures { ADatagramFindsItsWay }
{}

/// A datagram in two pieces may find its way too.
#[tactic(auto, using(crate::proofs::DiscoveryScripts::the_way_may_be_found_for_pieces))]
pub fn the_way_may_be_found_for_pieces()
    ensures { TheWayMayBeFoundForPieces }
{}

/// It arrives, piece by piece.
#[tactic(auto, using(crate::proofs::DiscoveryScripts::pieces_find_their_way))]
pub fn pieces_find_their_way()
    ensures { PiecesFindTheirWay }
{}

/// A datagram does not arrive where a node of the way is not there, is halted, loses power or is not joined, where its address or its index is
/// out of its range, or where it has no key to seal with.
#[tactic(auto, using(crate::proofs::DiscoveryScripts::each_node_of_a_way_is_ready))]
pub fn each_node_of_a_way_is_ready()
    ensures { EachNodeOfAWayIsReady }
{}

/// Nor where the request comes to a node twice, or, by these events, where neighbours are checked and the frames have other numbers.
#[tactic(auto, using(crate::proofs::DiscoveryScripts::the_way_is_straight))]
pub fn the_way_is_straight()
    ensures { TheWayIsStraight }
{}

/// Nor where its node has a route that leads nowhere, seeks the address already, has no room, no number or no counter, or has the address itself;
/// nor where it is empty or has more than 1,280 octets.
#[tactic(auto, using(crate::proofs::DiscoveryScripts::the_node_may_seek))]
pub fn the_node_may_seek()
    ensures { TheNodeMaySeek }
{}

/// Nor where a node before the last has the address that is sought, has another key, admits the counter no more, has the address of the sender or
/// of the origin, knows a better rank, where the way costs too much, a table of ranks is full, something waits for the origin, a counter is
/// lacking, or the last node has no number for its reply.
#[tactic(auto, using(crate::proofs::DiscoveryScripts::each_node_takes_the_request))]
pub fn each_node_takes_the_request()
    ensures { EachNodeTakesTheRequest }
{}

/// Nor where a node between lacks the key of the one after it, admits its counter no more, knows a better rank of it, has no room for one more, has
/// something that waits for it, or lacks a counter for the reply or for the datagram.
#[tactic(auto, using(crate::proofs::DiscoveryScripts::each_node_takes_the_reply))]
pub fn each_node_takes_the_reply()
    ensures { EachNodeTakesTheReply }
{}

/// Nor where the node that asks does not take it: the counter is admitted no more, it costs too much, there is no room for it, or there is no
/// counter for the datagram.
#[tactic(auto, using(crate::proofs::DiscoveryScripts::the_node_that_asks_learns))]
pub fn the_node_that_asks_learns()
    ensures { TheNodeThatAsksLearns }
{}

/// Nor where the nodes before and after a node have one address, so that the counters of the one hide those of the other.
#[tactic(auto, using(crate::proofs::DiscoveryScripts::neighbours_have_their_addresses))]
pub fn neighbours_have_their_addresses()
    ensures { NeighboursHaveTheirAddresses }
{}

/// Nor, in pieces, where the target gathers 8 datagrams; nor where the run may not have the events, or the ciphers do not open what they seal.
#[tactic(auto, using(crate::proofs::DiscoveryScripts::what_else_a_search_needs))]
pub fn what_else_a_search_needs()
    ensures { WhatElseASearchNeeds }
{}
