//! The worked rows of further reach.
ghost use Rattle.worked_scripts.specs.FurtherScripts.{RepliesAreAcknowledged, BroadcastsComeOnce, MetersChooseAgents, PathsAreAnswered};

/// A neighbour that does not acknowledge a reply in time is not believed for a while, and one that does is.
#[tactic(auto, using(crate::proofs::FurtherScripts::replies_are_acknowledged))]
pub fn replies_are_acknowledged()
    ensures { RepliesAreAcknowledged }
{}

/// A broadcast goes from node to node and is handed up once by each.
#[tactic(auto, using(crate::proofs::FurtherScripts::broadcasts_come_once))]
pub fn broadcasts_come_once()
    ensures { BroadcastsComeOnce }
{}

/// A meter scans, and joins by the k-th cheapest agent that it heard.
#[tactic(auto, using(crate::proofs::FurtherScripts::meters_choose_agents))]
pub fn meters_choose_agents()
    ensures { MetersChooseAgents }
{}

/// A node asks for the way to another one, and learns it where no link on it broke.
#[tactic(auto, using(crate::proofs::FurtherScripts::paths_are_answered))]
pub fn paths_are_answered()
    ensures { PathsAreAnswered }
{}
