//! Laws of the runs: each carried by a function that does nothing.
ghost use Rattle.line_laws.specs.OpenFlights.{EveryRunStaysInOpenCustody};
ghost use Rattle.line_laws.specs.AdmittedRight.{EveryAdmissionIsRight};
ghost use Rattle.line_laws.specs.AgreedRight.{EveryAgreementIsSaid};
ghost use Rattle.line_laws.specs.CheckHistories.{EveryCheckIsRight};
ghost use Rattle.line_laws.specs.FurtherLines.{EveryRunHolds};
ghost use Rattle.line_laws.specs.Invariant.{EveryRunHoldsThroughout};
ghost use Rattle.line_laws.specs.FurtherState.{EveryIssuedKeyStood, EveryRunIsRanged};
ghost use Rattle.line_laws.specs.Issued.{EveryJoiningAgrees, OnlyIssuedKeys};
ghost use Rattle.line_laws.specs.IssuedRight.{EveryKeyIsIssuedRight};
ghost use Rattle.line_laws.specs.Kicked.{EveryKickedMeterStaysOut, EveryShutOutMeterStaysOut};
ghost use Rattle.line_laws.specs.Laws.{EveryAddressDiffers, EveryCountIsRight, EveryCounterRises, EveryFlightIsAFrame, EveryFlightIsOctets};
ghost use Rattle.line_laws.specs.Laws.{EveryFlightIsSpelled, EveryForgeryIsReported, EveryNetworkRunIsSized, EveryNonceDiffers};
ghost use Rattle.line_laws.specs.Laws.{EveryRestartIsAnswered, EveryRunIsSized, EverySenderIsRight, EveryStoreIsReadable, EveryTraceIsRight};
ghost use Rattle.line_laws.specs.Live.{EveryFlightFalls, EveryMarkRises};
ghost use Rattle.line_laws.specs.Loops.{EveryRestartEndsRoutes, EveryRunIsLoopFree};
ghost use Rattle.line_laws.specs.Network.{EveryNetworkRunIsRight, EveryRunIsSafe, LastFlightsSayAll};
ghost use Rattle.line_laws.specs.Once.{EveryFrameIsAcceptedOnce, EveryNodeAcceptsOnce};
ghost use Rattle.line_laws.specs.Owed.{KeepsRanges};
ghost use Rattle.line_laws.specs.OwnKeys.{EveryKeyIsOwn};
ghost use Rattle.line_laws.specs.Reach.{EveryBroadcastIsOnce, EveryHistoryIsKept, EveryLogIsKept, EveryWalkWasTaken};
ghost use Rattle.line_laws.specs.ReachTraces.{EveryBroadcastIsListed, EveryEventIsReported};
ghost use Rattle.line_laws.specs.StepsTaken.{EveryStepIsTaken};
ghost use Rattle.line_laws.specs.Tags.{EverySendHasOctets, EveryTagRises};
ghost use Rattle.line_laws.specs.Ups.{EveryDatagramWasSent};
ghost use Rattle.node_rules.specs.Ciphers.{OpensWhatItSeals, network};

use node_rules::the_network_opens_what_it_seals;

/// What the network's ciphers open of octets, under keys of octets, is octets, and each grant that they open can be
/// stored.
#[tactic(auto)]
pub fn network_keeps_ranges()
    ensures { KeepsRanges network }
{}

/// What a key of the network seals, the same key opens, under the same head; a sealed body is four octets longer than
/// its payload.
#[tactic(auto)]
pub fn network_opens_what_it_seals()
    ensures { OpensWhatItSeals network }
{
    the_network_opens_what_it_seals();
}

/// In every run, forged or not, no table passes its size, and no event sends more than 24 frames. In every run of the network a command
/// that waits has at most 374 octets, its code first; with other ciphers a packet, and so a command, may have any length.
#[tactic(auto)]
pub fn every_run_is_sized()
    ensures network { EveryNetworkRunIsSized }
    ensures others { EveryRunIsSized }
{}

/// In every run, forged or not, whatever power was lost: a restart finds a store that has a reading.
#[tactic(auto)]
pub fn every_restart_is_answered()
    ensures { EveryRestartIsAnswered }
{}

/// In every run, forged or not, after every event: the records of each node have a reading, also those of a node that a failed write has
/// halted.
#[tactic(auto)]
pub fn every_store_is_readable()
    ensures { EveryStoreIsReadable }
{}

/// In every run of the network, forged or not: after a restart its node has no valid route, whatever it had before.
#[tactic(auto)]
pub fn every_restart_ends_routes()
    ensures { EveryRestartEndsRoutes }
{}

/// In every run, forged or not, over restarts and failed writes, the counters of the sealed flights of one node rise.
#[tactic(auto)]
pub fn every_counter_rises()
    ensures { EveryCounterRises }
{}

/// In every run, forged or not, over restarts and failed writes, the tags of one node's datagrams that are cut into pieces rise: no two
/// of them have one tag.
#[tactic(auto)]
pub fn every_tag_rises()
    ensures { EveryTagRises }
{}

/// In every run, forged or not, whatever the ciphers are, no datagram that was sent is empty.
#[tactic(auto)]
pub fn every_send_has_octets()
    ensures { EverySendHasOctets }
{}

/// In every run, forged or not, whatever the ciphers are, a flight with a key is a sealed frame under this key, and one without a key is a plain
/// frame or one of discovery. Where the ciphers keep ranges and flights are octets, the address and the cost of a beacon are in their ranges too.
#[tactic(auto)]
pub fn every_flight_is_spelled()
    ensures frames { EveryFlightIsAFrame }
    ensures ranges { EveryFlightIsSpelled }
{}

/// In every run of the network, forged or not, whatever power was lost, every flight is octets: numbers below 256.
#[tactic(auto)]
pub fn every_flight_is_octets()
    ensures { EveryFlightIsOctets }
{}

/// In every run of the network, before its first forged event, over restarts, failed writes and presets: after each event no valid next
/// hops form a loop, and no stored rank is lower than before.
#[tactic(auto)]
pub fn every_run_is_loop_free()
    ensures { EveryRunIsLoopFree }
{}

/// In every run, before its first forged event, over restarts and failed writes, a joined meter holds only keys that were issued to it.
#[tactic(auto)]
pub fn only_issued_keys()
    ensures { OnlyIssuedKeys }
{}

/// In every run of the network, before its first forged event, over restarts and failed writes: a meter that was kicked never holds a key that
/// had not stood in the coordinator's ring up to the kick, as long as it is not allowed again.
#[tactic(auto)]
pub fn every_kicked_meter_stays_out()
    ensures { EveryKickedMeterStaysOut }
{}

/// In every run of the network, before its first forged event, over restarts and failed writes: a meter that the coordinator's book does not
/// allow after an event, and after each of the next ones, holds after none of them a key that had not stood in the coordinator's ring up to that
/// event. So it is also of a kick whose write failed and is there after the restart.
#[tactic(auto)]
pub fn every_shut_out_meter_stays_out()
    ensures { EveryShutOutMeterStaysOut }
{}

/// In every run, before its first forged event, a joining that is done was taken by that meter before, with the same random values.
#[tactic(auto)]
pub fn every_joining_agrees()
    ensures { EveryJoiningAgrees }
{}

/// In every run, forged or not, what the history has of a joining is what the tags say that were found right in its event: where a meter took its
/// grant with two random values, that of the third message is over them, and where the coordinator has done the joining, that of the fourth.
#[tactic(auto)]
pub fn every_agreement_is_said()
    ensures { EveryAgreementIsSaid }
{}

/// In every run, forged or not, whatever the ciphers are, the world counts events, sends, datagrams that were handed up, forged events, joinings, flights and
/// pair tags as its history has them.
#[tactic(auto)]
pub fn every_count_is_right()
    ensures { EveryCountIsRight }
{}

/// In every run, forged or not, whatever the ciphers are, the history has a send, a datagram that was handed up, a grant that was taken, issued keys or a
/// joining that is done exactly where the answer of the event says so; a broadcast, which is answered as a send, is none.
#[tactic(auto)]
pub fn every_trace_is_right()
    ensures { EveryTraceIsRight }
{}

/// In every run, forged or not, whatever the ciphers are, an event has an admission exactly where its answer is Allowed: it is the event that allows this
/// meter, and after it the coordinator's book allows the meter and has it at the address of the admission.
#[tactic(auto)]
pub fn every_admission_is_right()
    ensures { EveryAdmissionIsRight }
{}

/// In every run, whatever the ciphers are, exactly those events are reported to be forged in which a node accepted octets that no node sent under their key, or
/// found a pair tag right that no node made.
#[tactic(auto)]
pub fn every_forgery_is_reported()
    ensures { EveryForgeryIsReported }
{}

/// In every run, forged or not, each sealed flight has in its sender field the address that its node has after the event that sent it.
#[tactic(auto)]
pub fn every_sender_is_right()
    ensures { EverySenderIsRight }
{}

/// In every run of the network, forged or not, over restarts and failed writes: each sealed flight is under the key that its node seals with after the event
/// that sent it, the one at the active index of its ring.
#[tactic(auto)]
pub fn every_key_is_own()
    ensures { EveryKeyIsOwn }
{}

/// In every run, before its first forged event, no two nodes have one address.
#[tactic(auto)]
pub fn every_address_differs()
    ensures { EveryAddressDiffers }
{}

/// In every run, before its first forged event, over restarts, failed writes and presets, no two flights that were sealed under one key
/// have one nonce.
#[tactic(auto)]
pub fn every_nonce_differs()
    ensures { EveryNonceDiffers }
{}

/// In every run, forged or not, over restarts and failed writes, no node admits a counter of a sender again that it did not admit.
#[tactic(auto)]
pub fn every_mark_rises()
    ensures { EveryMarkRises }
{}

/// In every run, before its first forged event, no flight comes to life, and a flight to one node that is opened was live, and is not live
/// any more.
#[tactic(auto)]
pub fn every_flight_falls()
    ensures { EveryFlightFalls }
{}

/// In every run, forged or not, over restarts, failed writes and changes of keys, no node accepts the same octets twice as a sealed frame.
#[tactic(auto)]
pub fn every_node_accepts_once()
    ensures { EveryNodeAcceptsOnce }
{}

/// In every run, before its first forged event, octets that a node accepted as a sealed frame to it alone are accepted so by no node again.
#[tactic(auto)]
pub fn every_frame_is_accepted_once()
    ensures { EveryFrameIsAcceptedOnce }
{}

/// In every run of the network, before its first forged event, over restarts, failed writes, presets and changes of keys, and where flights
/// are lost or come again: each datagram that is handed up was sent to that node before, with the same octets, and none is handed up twice.
#[tactic(auto)]
pub fn every_datagram_was_sent()
    ensures { EveryDatagramWasSent }
{}

/// In every run of the network, forged or not, over restarts and failed writes: the line holds, what flies is octets, the log of each node is
/// what its store gives, and no event sends more than 24 frames.
#[tactic(auto)]
pub fn every_run_holds()
    ensures { EveryRunHolds }
{}

/// In every run of the network, up to its first forged event, over restarts, failed writes and presets: the world after each event holds, with the keys
/// that were issued, the sends and the joinings that were taken and what was handed up until then. So each node has one address for the whole run, no node
/// keeps a rank of its own, the next hop of a valid route has a better rank, counters are below the stored limit, and of each octet of a send at most one copy
/// may still come.
#[tactic(auto)]
pub fn every_run_holds_throughout()
    ensures { EveryRunHoldsThroughout }
{}

/// In every run of the network, up to its first forged event, over restarts, failed writes and presets: each octet of each datagram that was sent is at one
/// place at most after each event, where those flights count whose octets no node has accepted as a frame to it alone, live or not.
#[tactic(auto)]
pub fn every_run_stays_in_open_custody()
    ensures { EveryRunStaysInOpenCustody }
{}

/// In every run of the network, before its first forged event, over restarts and failed writes: what every node holds is in its ranges, and what
/// flies is letters in theirs, plain frames and frames of discovery.
#[tactic(auto)]
pub fn every_run_is_ranged()
    ensures { EveryRunIsRanged }
{}

/// In every run of the network, before its first forged event, each key that an event issues stands in the coordinator's ring before it.
#[tactic(auto)]
pub fn every_issued_key_stood()
    ensures { EveryIssuedKeyStood }
{}

/// In every run of the network, up to its first forged event and at it, over restarts and failed writes: each key that an event issues stands at its
/// index in the coordinator's ring before the event, and goes to a meter that the coordinator's book allows before it, or to the one that the
/// event joins in the workshop.
#[tactic(auto)]
pub fn every_key_is_issued_right()
    ensures { EveryKeyIsIssuedRight }
{}

/// In every run of the network, forged or not, over restarts and failed writes: what each node holds of its checks and of its scan is what its
/// history says, which lists the replies that it sent, the acknowledgements that it heard and the beacons that it took.
#[tactic(auto)]
pub fn every_history_is_kept()
    ensures { EveryHistoryIsKept }
{}

/// In every run of the network, forged or not, every store gives a log, which is that of its node, as a new start finds it, where the node is not halted.
#[tactic(auto)]
pub fn every_log_is_kept()
    ensures { EveryLogIsKept }
{}

/// In every run of the network, before its first forged event, over restarts and failed writes: the steps of each walk that is reported were taken
/// before, in its order.
#[tactic(auto)]
pub fn every_walk_was_taken()
    ensures { EveryWalkWasTaken }
{}

/// In every run of the network, before its first forged event, over restarts and failed writes: each broadcast that is handed up was sent by
/// another node with the same octets, and no node hands up two of one origin and number.
#[tactic(auto)]
pub fn every_broadcast_is_once()
    ensures { EveryBroadcastIsOnce }
{}

/// In every run of the network, forged or not, over restarts and failed writes, what the history and the report have of further reach is there
/// exactly where the answer of its event says so: a broadcast where a `bcast` line was answered Sent, of its node and with its datagram; a broadcast
/// that is handed up and a walk that is reported at the answers Bup and Path, with what came in the frame that was accepted; an acknowledgement, a
/// beacon and a scan at Acked, Beaconed and Scanning, with the frame that came; and a reply that begins a check is one of the flights of its event.
#[tactic(auto)]
pub fn every_event_is_reported()
    ensures { EveryEventIsReported }
{}

/// In every run of the network the history lists exactly the broadcasts that `bcast` lines sent, each once and in their order.
#[tactic(auto)]
pub fn every_broadcast_is_listed()
    ensures { EveryBroadcastIsListed }
{}

/// In every run of the network, forged or not, over restarts and failed writes, an event is answered Blacklisted exactly where checks are on and a
/// request came of a neighbour that the history of its node lists, Acked only where the history has an open check of the reply that was acknowledged,
/// and NotAwaited only where it has none.
#[tactic(auto)]
pub fn every_check_is_right()
    ensures { EveryCheckIsRight }
{}

/// In every run of the network, forged or not, over restarts and failed writes, each step of an ask that the history has was taken by a node of the
/// address that the step names, whose valid next hop to the target it leads to; a `path` line had asked it, or it had accepted the ask in a frame to it
/// alone, from the neighbour that is the last of the ask's walk.
#[tactic(auto)]
pub fn every_step_is_taken()
    ensures { EveryStepIsTaken }
{}

/// Every run of the network is safe before its first forged event: each datagram that is handed up was sent to that node before, with the
/// same octets, and none is handed up twice; after each event valid next hops form no loop, a joined meter holds only keys that were
/// issued to it, and no table passes its size; and no event sends more than 24 frames.
#[tactic(auto)]
pub fn every_run_is_safe()
    ensures { EveryRunIsSafe }
{}

/// In every run of the network these laws hold, with nothing asked of the ciphers or of the flights.
#[tactic(auto)]
pub fn every_network_run_is_right()
    ensures { EveryNetworkRunIsRight }
{}

/// In every run where the flights of the last world are octets, those of each world are.
#[tactic(auto)]
pub fn the_last_flights_say_all()
    ensures { LastFlightsSayAll }
{}
