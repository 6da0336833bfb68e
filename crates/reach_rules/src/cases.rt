//! Single commands and calls of further reach that the checker computes: each stands as the contract of a function that does nothing.
ghost use Rattle.reach_rules.specs.ReachCases.{StrangeCommandsAreDropped, BroadcastsAreJudgedInOrder, ABroadcastStoresItsMark, OwnBroadcastsAreJudgedInOrder};
ghost use Rattle.reach_rules.specs.ReachCases.{PathsAreJudgedInOrder, AsksAreJudgedInOrder, DiscoveryIsJudgedInOrder, DiscoveryIsKnownByItsType};
ghost use Rattle.reach_rules.specs.ReachCases.{OnlyTheUnjoinedScan, AnAcknowledgementTakesACounter, ARelayIsCheckedToo};

/// Octets that are none of these commands are dropped, and so is a command that came on a wrong way or to a node without an address.
#[tactic(auto, using(crate::proofs::ReachCases::strange_commands_are_dropped))]
pub fn strange_commands_are_dropped()
    ensures { StrangeCommandsAreDropped }
{}

/// A broadcast is old before origins are full, and counters are judged last; one that goes no further takes no counter.
#[tactic(auto, using(crate::proofs::ReachCases::broadcasts_are_judged_in_order))]
pub fn broadcasts_are_judged_in_order()
    ensures { BroadcastsAreJudgedInOrder }
{}

/// The mark of a broadcast is stored before the counter, and ahead of its number.
#[tactic(auto, using(crate::proofs::ReachCases::a_broadcast_stores_its_mark))]
pub fn a_broadcast_stores_its_mark()
    ensures { ABroadcastStoresItsMark }
{}

/// An own broadcast is refused in the order of its refusals, and stores its number before its counter.
#[tactic(auto, using(crate::proofs::ReachCases::own_broadcasts_are_judged_in_order))]
pub fn own_broadcasts_are_judged_in_order()
    ensures { OwnBroadcastsAreJudgedInOrder }
{}

/// Path messages are refused in the order of their refusals.
#[tactic(auto, using(crate::proofs::ReachCases::paths_are_judged_in_order))]
pub fn paths_are_judged_in_order()
    ensures { PathsAreJudgedInOrder }
{}

/// A path is not asked for, in the order of the refusals.
#[tactic(auto, using(crate::proofs::ReachCases::asks_are_judged_in_order))]
pub fn asks_are_judged_in_order()
    ensures { AsksAreJudgedInOrder }
{}

/// Frames of discovery are refused in the order of their refusals.
#[tactic(auto, using(crate::proofs::ReachCases::discovery_is_judged_in_order))]
pub fn discovery_is_judged_in_order()
    ensures { DiscoveryIsJudgedInOrder }
{}

/// The lowest three bits of the first octet say what is heard as discovery.
#[tactic(auto, using(crate::proofs::ReachCases::discovery_is_known_by_its_type))]
pub fn discovery_is_known_by_its_type()
    ensures { DiscoveryIsKnownByItsType }
{}

/// A meter that is joined neither scans nor chooses; one that heard no agent has none to choose.
#[tactic(auto, using(crate::proofs::ReachCases::only_the_unjoined_scan))]
pub fn only_the_unjoined_scan()
    ensures { OnlyTheUnjoinedScan }
{}

/// A reply is acknowledged with the last counter, and taken without an acknowledgement where none is left.
#[tactic(auto, using(crate::proofs::ReachCases::an_acknowledgement_takes_a_counter))]
pub fn an_acknowledgement_takes_a_counter()
    ensures { AnAcknowledgementTakesACounter }
{}

/// A reply that is sent on is acknowledged, and the neighbour that it goes on to is checked too.
#[tactic(auto, using(crate::proofs::ReachCases::a_relay_is_checked_too))]
pub fn a_relay_is_checked_too()
    ensures { ARelayIsCheckedToo }
{}
