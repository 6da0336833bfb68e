//! Which joining messages are taken by which way, and what each other one is answered.
ghost use Rattle.worked_scripts.specs.WayScripts.{OnlyAJoinGoesUp, PlainFramesComeDown, CommandsComeFromTheCoordinator, OnlyAJoinReachesTheCoordinator};
ghost use Rattle.worked_scripts.specs.WayScripts.{AnAnswerByCommandMayLackRoom};

/// A joined meter carries up a JOIN of the node that sent it, and nothing else.
#[tactic(auto, using(crate::proofs::WayScripts::only_a_join_goes_up))]
pub fn only_a_join_goes_up()
    ensures { OnlyAJoinGoesUp }
{}

/// A plain frame down is taken for its own EUI alone: an ACCEPT by each meter, a CHALLENGE and a DECLINE by one that asked that agent.
#[tactic(auto, using(crate::proofs::WayScripts::plain_frames_come_down))]
pub fn plain_frames_come_down()
    ensures { PlainFramesComeDown }
{}

/// A command is taken from the coordinator's address alone: orders for the own EUI, and what may go down for another one.
#[tactic(auto, using(crate::proofs::WayScripts::commands_come_from_the_coordinator))]
pub fn commands_come_from_the_coordinator()
    ensures { CommandsComeFromTheCoordinator }
{}

/// The coordinator takes a JOIN alone: in a plain frame of its own node, or in a command of any origin about any meter.
#[tactic(auto, using(crate::proofs::WayScripts::only_a_join_reaches_the_coordinator))]
pub fn only_a_join_reaches_the_coordinator()
    ensures { OnlyAJoinReachesTheCoordinator }
{}

/// An answer that goes by command, as a message that is carried up, lacks room, a number or a counter as any other command does.
#[tactic(auto, using(crate::proofs::WayScripts::an_answer_by_command_may_lack_room))]
pub fn an_answer_by_command_may_lack_room()
    ensures { AnAnswerByCommandMayLackRoom }
{}
