//! Laws of runs: each stands as the contract of a function that does nothing.
ghost use Rattle.run_laws.specs.Agreements.{EveryJoiningAgreesOnItsGrant};
ghost use Rattle.run_laws.specs.Choices.{EveryChoiceIsRight};
ghost use Rattle.run_laws.specs.BesideSizes.{TablesBesideKeepTheirSizes};
ghost use Rattle.run_laws.specs.DatagramFates.{EverySendHasAFate};
ghost use Rattle.run_laws.specs.Datagrams.{EveryDatagramIsMoved};
ghost use Rattle.run_laws.specs.FatePlaces.{EveryFateIsAtOnePlace};
ghost use Rattle.run_laws.specs.Forgeries.{EveryFirstForgeryIsInTheGame};
ghost use Rattle.run_laws.specs.JoiningsApart.{EveryJoiningIsItsOwn};
ghost use Rattle.run_laws.specs.OctetPlaces.{EveryOctetIsAtOnePlace};
ghost use Rattle.run_laws.specs.RunLaws.{EveryRunIsLawful};

use line_laws::{
    every_count_is_right, every_datagram_was_sent, every_flight_falls, every_flight_is_octets,
    every_flight_is_spelled, every_forgery_is_reported, every_history_is_kept,
    every_joining_agrees, every_log_is_kept, every_nonce_differs, every_run_holds,
    every_run_holds_throughout, every_run_stays_in_open_custody, every_tag_rises,
    every_trace_is_right, network_keeps_ranges, the_start_holds,
};
use line_progress::{
    datagrams_came, deliveries_have_fates, events_keep_bodies, events_keep_flights,
    events_keep_pieces, pieces_arrive, sends_fly,
};
use line_rules::it_starts_with_nothing_further;
use neighbour_checks::laws::at_most_64;

/// In every run of the network, forged or not, over restarts and failed writes: a `choose` line is answered Asked exactly where an agent is reported. It is the
/// k-th cheapest of all senders of beacons that the meter heard since its scan began, with its least total, and the session of the meter is by it.
pub fn every_choice_is_right()
    ensures { EveryChoiceIsRight }
{
    it_starts_with_nothing_further();
    every_history_is_kept();
}

/// In every run of the network, forged or not, over restarts and failed writes, after each event: a node has at most 64 open checks and listed neighbours
/// together, at most 16 agents in its scan, and, where it runs, at most 32 origins of broadcasts.
pub fn tables_beside_keep_their_sizes()
    ensures { TablesBesideKeepTheirSizes }
{
    every_history_is_kept();
    every_log_is_kept();
    at_most_64();
}

/// In every run of the network, forged or not, over restarts and failed writes, of each event: what it hands up was in the frame that came in it, and what
/// it sends is in its flights or waits. A unit that comes is handed up, held, sent on or ends by the answer; what waits or is gathered stays so, goes on, or
/// ends for a reason of a closed list; and a flight stays as it was, or is lost by `lose`.
pub fn every_datagram_is_moved()
    ensures { EveryDatagramIsMoved }
{
    every_run_holds();
    datagrams_came();
    sends_fly();
    deliveries_have_fates();
    pieces_arrive();
    events_keep_bodies();
    events_keep_pieces();
    events_keep_flights();
}

/// In every run of the network, before its first forged event, over restarts and failed writes, after each event: no octet of a datagram that was sent is at
/// two places at once, of those that were handed up, the flights, what waits for a route, and what is gathered. So it is where the flights count that may
/// still come, and where those count that no node has accepted so far.
pub fn every_octet_is_at_one_place()
    ensures { EveryOctetIsAtOnePlace }
{
    every_run_holds_throughout();
    every_run_stays_in_open_custody();
}

/// In every run of the network without a forged event, whatever power is lost and whatever octets are injected, after each event: each octet of each
/// datagram that was sent was handed up; is in a flight of a number, lost or not, that nobody accepted; waits or is gathered at a node of a number; or was
/// ended by an event of a number, which answered NoRoute, HopsSpent, CounterSpent, BufferFull, Reported or Store where the node accepted it, or else by
/// time, a restart, a leave or a loss of power.
pub fn every_send_has_a_fate()
    ensures { EverySendHasAFate }
{
    every_run_holds_throughout();
    every_nonce_differs();
    every_forgery_is_reported();
    every_flight_falls();
    every_flight_is_octets();
    every_tag_rises();
    every_count_is_right();
    network_keeps_ranges();
    the_start_holds();
}

/// After every run of the network in which no event is forged, over restarts and failed writes: two fates of an octet of a datagram that was sent, of which
/// no event has ended either, are at one place.
pub fn every_fate_is_at_one_place()
    ensures { EveryFateIsAtOnePlace }
{
    every_octet_is_at_one_place();
    every_datagram_was_sent();
}

/// In every run of the network, over restarts, failed writes and changes of keys: where the first event that is forged is so by a frame, this frame is a
/// forgery in the game by which authenticated encryption is judged. What nodes have sealed until then is what the game answers, with no nonce twice under one
/// key; the frame opens under its key, and is none of it. Where it is forged otherwise, a pair tag was right that no node made.
pub fn every_first_forgery_is_in_the_game()
    ensures { EveryFirstForgeryIsInTheGame }
{
    every_flight_is_octets();
    every_flight_is_spelled();
    every_forgery_is_reported();
    every_nonce_differs();
    network_keeps_ranges();
}

/// In every run of the network, before its first forged event, over restarts, failed writes and changes of keys: where a meter takes a grant, an event before
/// it was answered Keyed, in which the coordinator issued the keys of this grant to this meter and made the tag of the third message over it and over the same
/// random values; and the grant, with its address, its keys and its active index, is the ring that the meter then holds. Where a joining is done, its meter
/// took such a grant before with the same random values.
pub fn every_joining_agrees_on_its_grant()
    ensures { EveryJoiningAgreesOnItsGrant }
{
    every_count_is_right();
    every_flight_is_octets();
    every_forgery_is_reported();
    every_joining_agrees();
    every_run_holds_throughout();
    every_trace_is_right();
    network_keeps_ranges();
}

/// In every run of the network in which the coordinator is given no random value twice, forged or not, over restarts and failed writes, two joinings that are
/// done have another RAND_S each: so no joining that a meter took is done twice.
pub fn every_joining_is_its_own()
    ensures { EveryJoiningIsItsOwn }
{
    every_flight_is_octets();
    network_keeps_ranges();
}

/// In every run of the network these laws hold.
pub fn every_run_is_lawful()
    ensures { EveryRunIsLawful }
{
    every_choice_is_right();
    tables_beside_keep_their_sizes();
    every_datagram_is_moved();
    every_octet_is_at_one_place();
    every_send_has_a_fate();
    every_fate_is_at_one_place();
    every_joining_agrees_on_its_grant();
    every_joining_is_its_own();
}
