//! Laws of further reach, over the definitions alone: each stands as the contract of a function that does nothing.
ghost use Rattle.reach_rules.specs.Laws.{HearsAsWithout, NodesHearAsWithout, CommandsAreHandedOn, OnlyCommandsAreHandedOn, AnEmptyStoreGivesNothing};
ghost use Rattle.reach_rules.specs.Laws.{NothingIsAwaited, NobodyIsListedByTime, RepliesAreAcknowledged, ListedAreNotBelieved, NoScanHearsNothing};
ghost use Rattle.reach_rules.specs.Laws.{CommandsRefuseCleanly, CallsRefuseCleanly, FramesRefuseCleanly, HandedUpOnce, CommandsWriteInTurn, CallsWriteInTurn};
ghost use Rattle.reach_rules.specs.Laws.{CommandsSendCommands, CallsSendCommands, MarkedBeforeTheCounter, AcknowledgementsAreCommands, CommandsKeepTheRest};
ghost use Rattle.reach_rules.specs.Laws.{CallsKeepTheRest};

/// Where checks are off, a frame that carries no command of code 03, 04 or 05 is heard as without further reach: the same is answered,
/// stored, kept in memory, sent, made and checked, and what the node holds beside its memory is left as it is.
#[tactic(auto, using(crate::proofs::AsWithout::hears))]
pub fn frames_are_heard_as_without<M, H>()
    ensures { HearsAsWithout M H }
{}

/// So does a meter, and so does the coordinator.
pub fn nodes_hear_as_without()
    ensures { NodesHearAsWithout }
{}

/// A command of code 03, 04 or 05 is one that a station without further reach hands on unread, and of which it changes nothing.
#[tactic(auto, using(crate::proofs::AsWithout::handed_on))]
pub fn commands_are_handed_on()
    ensures { CommandsAreHandedOn }
{}

/// And a station hands on no other frame so: what it hands on is the command that the frame carries.
pub fn only_commands_are_handed_on()
    ensures { OnlyCommandsAreHandedOn }
{}

/// A store without records gives a restarted node what a new one holds beside its memory.
#[tactic(auto, using(crate::proofs::AsWithout::nothing_stored))]
pub fn an_empty_store_gives_nothing()
    ensures { AnEmptyStoreGivesNothing }
{}

/// Where no check is open, as where checks are off, a command of code 03 that goes to all or has no reading is BadUnit, and every other
/// one is NotAwaited; nothing changes.
#[tactic(auto, using(crate::proofs::AsWithout::nothing_is_awaited))]
pub fn nothing_is_awaited_without_checks<M>()
    ensures { NothingIsAwaited M }
{}

/// Where nobody is checked or listed, time changes nothing of what a node holds beside its memory.
#[tactic(auto, using(crate::proofs::AsWithout::nobody_is_listed))]
pub fn time_changes_nothing_without_checks()
    ensures { NobodyIsListedByTime }
{}

/// Where checks are on, a reply that a node takes is acknowledged to the neighbour that sent it, after all that its own rule did; where no
/// counter is left, nothing more is done.
pub fn replies_are_acknowledged<M, H>()
    ensures { RepliesAreAcknowledged M H }
{}

/// Where checks are on, a request of a listed neighbour is dropped before all else.
pub fn listed_are_not_believed<M, H>()
    ensures { ListedAreNotBelieved M H }
{}

/// A node that does not scan hears no agent, whatever octets come.
#[tactic(auto, using(crate::proofs::AsWithout::no_scan))]
pub fn nothing_is_heard_without_a_scan()
    ensures { NoScanHearsNothing }
{}

/// A command of code 03, 04 or 05 that is dropped changes nothing.
#[tactic(auto, using(crate::proofs::Commands::commands_cleanly))]
pub fn commands_refuse_cleanly<M>()
    ensures { CommandsRefuseCleanly M }
{}

/// A broadcast that is not sent, and a path that is not asked for, change nothing.
pub fn further_calls_refuse_cleanly<M>()
    ensures { CallsRefuseCleanly M }
{}

/// A frame that is dropped changes nothing, with checks on or off, where its own rule changes nothing when it drops it.
pub fn frames_refuse_cleanly<M, H>()
    ensures { FramesRefuseCleanly M H }
{}

/// A broadcast that was handed up is old from then on, whichever way it comes again.
pub fn a_broadcast_is_handed_up_once<M>()
    ensures { HandedUpOnce M }
{}

/// What is stored for a command is stored in order, the counter last.
#[tactic(auto, using(crate::proofs::Commands::commands_in_turn))]
pub fn commands_write_in_turn<M>()
    ensures { CommandsWriteInTurn M }
{}

/// What is stored for a broadcast of one's own or an ask is stored in order, the counter last.
pub fn further_calls_write_in_turn<M>()
    ensures { CallsWriteInTurn M }
{}

/// A command is answered with at most one frame, a command of code 03, 04 or 05 alone under the note 0: no route message, no datagram of
/// a send and no grant.
#[tactic(auto, using(crate::proofs::Commands::commands_speak))]
pub fn commands_send_commands<M>()
    ensures { CommandsSendCommands M }
{}

/// So is what a broadcast of one's own and an ask send.
pub fn further_calls_send_commands<M>()
    ensures { CallsSendCommands M }
{}

/// And so is an acknowledgement, which stores at most the counter of its frame.
pub fn acknowledgements_are_commands<M>()
    ensures { AcknowledgementsAreCommands M }
{}

/// Of a broadcast that is handed up the mark of its origin is stored, where it has to be, before the counter of the frame by which it
/// goes on.
pub fn a_broadcast_is_marked_first<M>()
    ensures { MarkedBeforeTheCounter M }
{}

/// A command changes nothing of a node's memory but the counter of the frame that it sends: ring, marks, ranks, routes, what is gathered and
/// what waits stay, and so does the scan.
pub fn commands_keep_the_rest<M>()
    ensures { CommandsKeepTheRest M }
{}

/// Nor does a broadcast of one's own, or an ask.
pub fn further_calls_keep_the_rest<M>()
    ensures { CallsKeepTheRest M }
{}
