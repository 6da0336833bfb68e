//! Laws of joinings that come to their end, and of what frames without a seal cost: each carried by a function that does nothing.
ghost use Rattle.line_progress.specs.AgentJoinings.{JoiningsArriveByAgent};
ghost use Rattle.line_progress.specs.Joinings.{JoiningsArrive};
ghost use Rattle.line_progress.specs.Packets.{NetworkPacketsPass};
ghost use Rattle.line_progress.specs.PlainCosts.{AcceptingPlainFramesIsFree, PlainFramesCostMetersLittle};
ghost use Rattle.line_progress.specs.PlainCosts.{PlainFramesCostTheCoordinatorLittle};

/// The packets of EAP-PSK that the network's ends make pass: in each session with names of 8 octets, random values of 16 and a grant in its ranges, what
/// one end makes the other one takes.
pub fn network_packets_pass()
    ensures { NetworkPacketsPass }
{}

/// A meter that the coordinator allows with the same pair key, where both have a random value and the coordinator has room for a session, and that asks
/// it over the air, has joined when six messages have come, each once.
pub fn joinings_arrive()
    ensures { JoiningsArrive }
{}

/// So has one that asks a meter which is joined and has the coordinator for a neighbour, where the link between these two holds for three frames each way,
/// when six messages have come, each once to the agent and once from there.
pub fn joinings_arrive_by_agent()
    ensures { JoiningsArriveByAgent }
{}

/// A frame without a seal, which anybody can make, costs a node nothing to accept. Where a node finds no pair tag right in it, hearing it costs at most one
/// frame that the node sends and two records that it stores. Keys, marks, ranks, routes, pieces and the book stay as they are; one random value at most is
/// taken. At a meter one body more waits at most, and its own session may be another one; at the coordinator nothing more waits, and one session at most is
/// opened, of a meter that the book allows.
pub fn plain_frames_cost_little()
    ensures accepting { AcceptingPlainFramesIsFree }
    ensures meters { PlainFramesCostMetersLittle }
    ensures coordinator { PlainFramesCostTheCoordinatorLittle }
{}
