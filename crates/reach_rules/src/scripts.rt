//! Scripts of further reach that the checker computes: each stands as the contract of a function that does nothing.
ghost use Rattle.reach_rules.specs.ReachScripts.{ALateNeighbourIsListed, ANeighbourInTimeIsBelieved, WithoutChecksAllAreBelieved, BroadcastsGoOnAndEnd};
ghost use Rattle.reach_rules.specs.ReachScripts.{TheCheapestAgentIsChosen, TheCoordinatorIsAnAgent, APathIsAnswered, ABrokenPathIsNotAnswered};

/// A neighbour that acknowledges a reply after two seconds is not believed for 300 seconds, and its acknowledgement is not awaited.
#[tactic(auto, using(crate::proofs::ReachScripts::a_late_neighbour_is_listed))]
pub fn a_late_neighbour_is_listed()
    ensures { ALateNeighbourIsListed }
{}

/// A neighbour that acknowledges a reply in time is believed.
#[tactic(auto, using(crate::proofs::ReachScripts::a_neighbour_in_time_is_believed))]
pub fn a_neighbour_in_time_is_believed()
    ensures { ANeighbourInTimeIsBelieved }
{}

/// Where checks are off, no reply is acknowledged and every neighbour is believed.
#[tactic(auto, using(crate::proofs::ReachScripts::without_checks_all_are_believed))]
pub fn without_checks_all_are_believed()
    ensures { WithoutChecksAllAreBelieved }
{}

/// A broadcast goes on from each node that it comes to, and each hands it up once.
#[tactic(auto, using(crate::proofs::ReachScripts::broadcasts_go_on_and_end))]
pub fn broadcasts_go_on_and_end()
    ensures { BroadcastsGoOnAndEnd }
{}

/// A meter joins by the agents that it heard in the order of their totals and addresses.
#[tactic(auto, using(crate::proofs::ReachScripts::the_cheapest_agent_is_chosen))]
pub fn the_cheapest_agent_is_chosen()
    ensures { TheCheapestAgentIsChosen }
{}

/// The coordinator is an agent at the cost of the link alone; a node that has an address takes no beacon.
#[tactic(auto, using(crate::proofs::ReachScripts::the_coordinator_is_an_agent))]
pub fn the_coordinator_is_an_agent()
    ensures { TheCoordinatorIsAnAgent }
{}

/// A node that asks for a path is answered the nodes of the way.
#[tactic(auto, using(crate::proofs::ReachScripts::a_path_is_answered))]
pub fn a_path_is_answered()
    ensures { APathIsAnswered }
{}

/// An ask goes no further where no route leads on.
#[tactic(auto, using(crate::proofs::ReachScripts::a_broken_path_is_not_answered))]
pub fn a_broken_path_is_not_answered()
    ensures { ABrokenPathIsNotAnswered }
{}
