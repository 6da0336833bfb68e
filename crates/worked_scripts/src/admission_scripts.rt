//! A meter joins over the air where it may; where one thing alone is lacking, it does not.
ghost use Rattle.worked_scripts.specs.AdmissionScripts.{TheMeterMayJoin, TheMeterJoins, TheMeterIsOutside, TheCoordinatorLetsItIn, PacketsHaveToPass};
ghost use Rattle.worked_scripts.specs.AdmissionScripts.{TheMeterMayJoinByAnAgent, TheAgentCarries, TheAgentHasRoutes};

/// A meter that the coordinator allows may join over the air.
#[tactic(auto, using(crate::proofs::AdmissionScripts::the_meter_may_join))]
pub fn the_meter_may_join()
    ensures { TheMeterMayJoin }
{}

/// It joins.
#[tactic(auto, using(crate::proofs::AdmissionScripts::the_meter_joins))]
pub fn the_meter_joins()
    ensures { TheMeterJoins }
{}

/// A meter does not join where its node is not there, is halted or loses power, where it is joined, or has no random value; nor where its EUI has seven
/// octets. Where another node before it has its EUI, the joining that is done is the other one's.
#[tactic(auto, using(crate::proofs::AdmissionScripts::the_meter_is_outside))]
pub fn the_meter_is_outside()
    ensures { TheMeterIsOutside }
{}

/// Nor where the coordinator is halted, loses power or is not joined, or has the meter's EUI, one of seven octets, or another address; where it does not
/// allow the meter, has another pair key for it, eight sessions, no random value, or one of 15 octets.
#[tactic(auto, using(crate::proofs::AdmissionScripts::the_coordinator_lets_it_in))]
pub fn the_coordinator_lets_it_in()
    ensures { TheCoordinatorLetsItIn }
{}

/// Nor where a packet is not taken, or the run may not have the events.
#[tactic(auto, using(crate::proofs::AdmissionScripts::packets_have_to_pass))]
pub fn packets_have_to_pass()
    ensures { PacketsHaveToPass }
{}

/// A meter may join by another one, which is joined beside the coordinator.
#[tactic(auto, using(crate::proofs::AdmissionScripts::the_meter_may_join_by_an_agent))]
pub fn the_meter_may_join_by_an_agent()
    ensures { TheMeterMayJoinByAnAgent }
{}

/// A meter does not join by an agent that is halted, loses power or is not joined, has the meter's EUI, has another key than the coordinator, two counters
/// only, or is admitted no more; nor where the coordinator has two counters only or is admitted no more, the ciphers do not open what they seal, or the
/// run may not have the events.
#[tactic(auto, using(crate::proofs::AdmissionScripts::the_agent_carries))]
pub fn the_agent_carries()
    ensures { TheAgentCarries }
{}

/// Nor where the agent or the coordinator has no route to the other, so that a message waits and a route is sought; or where the coordinator would give the
/// meter the agent's address, since the last message is then not for the meter; or where the agent seals under an index above 1.
#[tactic(auto, using(crate::proofs::AdmissionScripts::the_agent_has_routes))]
pub fn the_agent_has_routes()
    ensures { TheAgentHasRoutes }
{}
