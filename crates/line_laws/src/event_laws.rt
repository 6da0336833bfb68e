//! Laws of single events and moves of a line: each carried by a function that does nothing.
ghost use Rattle.line_laws.specs.FurtherLines.{CallsKeepAll, CallsKeepTheLine, CommandsFit, CommandsKeepTheLine, DiscoveryKeepsTheLine, LineLogsHold};
ghost use Rattle.line_laws.specs.FurtherLines.{LineStepsHold, LineStepsRise, LineStepsSpell, LinesSpellBeacons, LogsFit, TablesAreShort};
ghost use Rattle.line_laws.specs.Later.{BesideKeeps, CommandsMayBeSealed, DiscoveringKeeps, JoinedNodesSeal, KeepsInTurn, OthersMayNot, PlainKeeps, PlansSplit};
ghost use Rattle.line_laws.specs.Later.{RunningKeeps, SealingKeeps, StartHolds, StoringKeeps, UnsentHolds};
ghost use Rattle.line_laws.specs.LineAccounts.{LineBooksGrow, LineFlightsFall, LineKicksShut, LineNodesAcceptOnce, LineRestartsAreRight, LineSendersAreRight};
ghost use Rattle.line_laws.specs.LineAccounts.{LineStepsShut, LineTagsRise, LineTracesRight};
ghost use Rattle.line_laws.specs.OnePlan.{AcknowledgesInTurn, ChecksInTurn, CommandsInTurn, OthersInTurn, RepliesTakenAlike};

/// Where a node seals a command alone of code 03, 04 or 05, under note 0 and with its next counter, as it seals each of its commands, all is
/// kept that the laws rest on: no mark and no stored rank falls, no flight comes to life, and the flight has the address of its node. A
/// rule that comes later and does no more than this needs no further law.
#[tactic(auto)]
pub fn sealing_keeps<E>()
    ensures { SealingKeeps E }
{}

/// Where a node stores records at the slots of its log of broadcasts, all of this is kept too, whatever power is lost.
#[tactic(auto)]
pub fn storing_keeps()
    ensures { StoringKeeps }
{}

/// A node that stores records of its log before its other writes does the same as one that stores them and then does the rest.
#[tactic(auto)]
pub fn plans_split<A>()
    ensures { PlansSplit A }
{}

/// A node that hears a reply and acknowledges it by one plan does the same as one that hears it and then acknowledges it, whichever write fails:
/// it is left the same, and sends both, or nothing where a write failed.
#[tactic(auto)]
pub fn acknowledges_in_turn<A>()
    ensures { AcknowledgesInTurn A }
{}

/// A command for the neighbours is heard by the one plan of a node with further reach as by the two moves of a line, of which the first leaves the
/// node as it is.
#[tactic(auto)]
pub fn commands_in_turn<H>()
    ensures { CommandsInTurn H }
{}

/// Where checks are off, every other frame is heard by that one plan as by the first move of a line alone.
#[tactic(auto)]
pub fn others_in_turn<H>()
    ensures { OthersInTurn H }
{}

/// Where checks are on, the one plan drops a request of a listed neighbour and leaves the node as it is, and hears every other frame that carries no
/// command by its own rule, which is followed by the acknowledgement of a reply that was taken.
#[tactic(auto)]
pub fn checks_in_turn<H>()
    ensures { ChecksInTurn H }
{}

/// The replies that a line acknowledges, answered Learned or Relayed, are those that the plan acknowledges: those that their own rule did not refuse.
#[tactic(auto)]
pub fn replies_are_taken_alike()
    ensures { RepliesTakenAlike }
{}

/// Where a frame of discovery flies, all of this is kept too.
#[tactic(auto)]
pub fn discovering_keeps()
    ensures { DiscoveringKeeps }
{}

/// Where checks are turned on, or nodes hold other things beside their memories, all of this is kept too.
#[tactic(auto)]
pub fn beside_keeps()
    ensures { BesideKeeps }
{}

/// Where flights that a step would have sent are not sent after all, all holds as before.
#[tactic(auto)]
pub fn unsent_holds()
    ensures { UnsentHolds }
{}

/// What is kept from one world to the next, and from that to a third, is kept from the first to the third.
#[tactic(auto)]
pub fn keeps_in_turn()
    ensures { KeepsInTurn }
{}

/// Where a node sends a plain frame of octets, all of this is kept too.
#[tactic(auto)]
pub fn plain_keeps()
    ensures { PlainKeeps }
{}

/// That an event of no setup kind is taken keeps it.
#[tactic(auto)]
pub fn running_keeps()
    ensures { RunningKeeps }
{}

/// A command alone of code 03, 04 or 05 may be sealed so, with each body that a frame has room for.
#[tactic(auto)]
pub fn commands_may_be_sealed()
    ensures { CommandsMayBeSealed }
{}

/// A route message, a datagram, a piece of one and a joining message may not.
#[tactic(auto)]
pub fn others_may_not()
    ensures { OthersMayNot }
{}

/// A joined node with a counter left, and no loss of power to come, does seal and send it, under its active key and with its next counter.
#[tactic(auto)]
pub fn joined_nodes_seal<E>()
    ensures { JoinedNodesSeal E }
{}

/// The world before the first event is one that holds.
#[tactic(auto)]
pub fn the_start_holds()
    ensures { StartHolds }
{}

/// What holds of a line of nodes in every run, forged or not, holds after a broadcast and after an ask for a path.
#[tactic(auto)]
pub fn calls_keep_the_line()
    ensures { CallsKeepTheLine }
{}

/// And after a scan that begins, and frames of discovery that come.
#[tactic(auto)]
pub fn discovery_keeps_the_line()
    ensures { DiscoveryKeepsTheLine }
{}

/// And after a command for the neighbours that was heard.
#[tactic(auto)]
pub fn commands_keep_the_line()
    ensures { CommandsKeepTheLine }
{}

/// So it does after every event of a line with further reach, for any ciphers that keep their ranges and whatever power is lost; no event
/// sends more than 24 frames, and the flights that it says are those that it adds. A log that is what its store gives fits its slots,
/// and the tables of such a line are as short as the law of the logs asks.
#[tactic(auto)]
pub fn line_steps_hold()
    ensures holds { LineStepsHold }
    ensures logs { LogsFit }
    ensures tables { TablesAreShort }
{}

/// No event of such a line makes a mark fall, so no node admits a counter again that it did not admit before.
#[tactic(auto)]
pub fn line_steps_rise()
    ensures { LineStepsRise }
{}

/// And the log of each node is what its store gives after every event of such a line, and where a node is halted some log is: what that asks
/// of a command that comes holds too.
#[tactic(auto)]
pub fn line_logs_hold()
    ensures commands { CommandsFit }
    ensures logs { LineLogsHold }
{}

/// And each flight is what its key says after every event of a line with further reach, where it was before: a sealed frame under it, and
/// without a key a plain frame or one of discovery. What the nodes of a line send of discovery can be spelled.
#[tactic(auto)]
pub fn line_steps_spell()
    ensures flights { LineStepsSpell }
    ensures beacons { LinesSpellBeacons }
{}

/// A broadcast of octets and an ask keep all that the laws rest on, whatever power is lost.
#[tactic(auto)]
pub fn further_calls_keep_all()
    ensures { CallsKeepAll }
{}

/// The flights that an event of a line with further reach adds have in their sender field the address that their node has after it.
#[tactic(auto)]
pub fn line_senders_are_right()
    ensures { LineSendersAreRight }
{}

/// No event of such a line takes an address back, whatever writes fail, and nodes keep their EUIs.
#[tactic(auto)]
pub fn line_books_grow()
    ensures { LineBooksGrow }
{}

/// A meter that is shut out stays so at every event of such a line but one that allows it, and a kick shuts it out.
#[tactic(auto)]
pub fn line_steps_shut()
    ensures shut { LineStepsShut }
    ensures kicks { LineKicksShut }
{}

/// The tags of one node's datagrams that are cut into pieces rise at every event of such a line.
#[tactic(auto)]
pub fn line_tags_rise()
    ensures { LineTagsRise }
{}

/// No flight comes to life at an event of such a line, and a frame to one node that this node accepts was live, and is live no more.
#[tactic(auto)]
pub fn line_flights_fall()
    ensures { LineFlightsFall }
{}

/// What a node of such a line accepts under seal, its marks admitted, and what has become of the node does not admit it again.
#[tactic(auto)]
pub fn line_nodes_accept_once()
    ensures { LineNodesAcceptOnce }
{}

/// Whatever the ciphers are, what the history has of an event is what the report says of it, the counts of the world are those of its history, and an event
/// is reported as forged exactly where it is. Of a broadcast, whose word is that of a send, the history has no send.
#[tactic(auto)]
pub fn line_traces_are_right()
    ensures { LineTracesRight }
{}

/// A restart on such a line is answered, and its node has no valid route after it.
#[tactic(auto)]
pub fn line_restarts_are_right()
    ensures { LineRestartsAreRight }
{}
