//! Laws of progress: each carried by a function that does nothing.
ghost use Rattle.line_progress.specs.AnyOrder.{DatagramsArriveInAnyOrder};
ghost use Rattle.line_progress.specs.Arrival.{DatagramsArrive};
ghost use Rattle.line_progress.specs.BodyFates.{BodiesHaveFates};
ghost use Rattle.line_progress.specs.BroadcastFates.{BroadcastsGoFurther};
ghost use Rattle.line_progress.specs.Discovery.{DiscoveriesArrive, RequestsArrive};
ghost use Rattle.line_progress.specs.EventFates.{EventsKeepBodies, EventsKeepFlights, EventsKeepPieces, PiecesArrive};
ghost use Rattle.line_progress.specs.Held.{EventsKeepHeld, EventsLeaveOthers};
ghost use Rattle.line_progress.specs.PieceFates.{HearingKeepsPieces, PiecesComeIn, PiecesHaveFates};
ghost use Rattle.line_progress.specs.SendFates.{SendEventsHaveFates, SendsFly, SendsHaveFates};
ghost use Rattle.line_progress.specs.TimeFates.{TicksHaveFates, TimeComesToAll};
ghost use Rattle.line_progress.specs.UnitFates.{DeliveriesHaveFates, UnitsHaveFates};
ghost use Rattle.line_progress.specs.Ups.{DatagramsCame, StationsHandUp};

/// A datagram of 1 to 1,280 octets that is sent along a route of at most 14 links that hold, whole or in pieces, each of which comes over all
/// links before the next one, is handed up at the last node with the same octets, after one delivery of each frame for each link.
pub fn datagrams_arrive()
    ensures { DatagramsArrive }
{}

/// So is one whose frames come over the links in any other order: each frame once over each link, and over each link in the order in which they were
/// sent, with no tick between.
pub fn datagrams_arrive_in_any_order()
    ensures { DatagramsArriveInAnyOrder }
{}

/// Where the nodes of a way take the request of a node that has no route, it is passed on by each of them and answered by the node that is sought,
/// after one delivery for each link; then each of them has a route back to its origin.
pub fn requests_arrive()
    ensures { RequestsArrive }
{}

/// Where the nodes of a way of at most 14 links take a request and its reply, a datagram of 1 to 1,280 octets that is sent without a route waits, and
/// after one delivery for each link, there and back, it leaves, and is handed up at the last node with the same octets.
pub fn discoveries_arrive()
    ensures { DiscoveriesArrive }
{}

/// A datagram that is to be sent goes out whole, waits for a route, or is refused.
pub fn sends_have_fates()
    ensures { SendsHaveFates }
{}

/// A unit of a datagram that a node has accepted is handed up, taken in as a piece, sent on, or ends with a reason.
pub fn units_have_fates()
    ensures { UnitsHaveFates }
{}

/// A piece that is held is held still where another one comes, or is handed up with it, unless that one overlaps its reassembly.
pub fn pieces_have_fates()
    ensures { PiecesHaveFates }
{}

/// A piece that comes is gathered in a reassembly of its name, or completes one, which is handed up; or there is no room.
pub fn pieces_come_in()
    ensures { PiecesComeIn }
{}

/// A body that waits for a route waits still where a frame is heard, or leaves with all its units.
pub fn bodies_have_fates()
    ensures { BodiesHaveFates }
{}

/// Whatever power is lost, an event in which a node accepts a unit of a datagram hands it up, holds it, sends it on in one flight more, or
/// is answered with one of six words that end it.
pub fn deliveries_have_fates()
    ensures { DeliveriesHaveFates }
{}

/// A station that hears a frame changes no reassembly but by the rule of reassembly.
pub fn hearing_keeps_pieces()
    ensures { HearingKeepsPieces }
{}

/// Time ends only the bodies that have waited for `WAITING_TIME`, and the reassemblies that began `REASSEMBLY_TIME` ago.
pub fn ticks_have_fates()
    ensures { TicksHaveFates }
{}

/// Whatever power is lost, an event in which a node that runs is to send a datagram has its units fly, lets it wait, or does not take it.
pub fn send_events_have_fates()
    ensures { SendEventsHaveFates }
{}

/// A tick is the tick of each node that runs.
pub fn time_comes_to_all()
    ensures { TimeComesToAll }
{}

/// A datagram that a station hands up was in the frame that it has just accepted: whole, or with a piece that makes its reassembly whole.
pub fn stations_hand_up()
    ensures { StationsHandUp }
{}

/// Whatever power is lost and whatever is forged, what an event hands up was in the frame that came in it, under the note of that frame: whole,
/// or with a piece that makes a reassembly of that node whole, which has the note.
pub fn datagrams_came()
    ensures { DatagramsCame }
{}

/// Whatever power is lost and whatever is forged, what an event has in the history as sent is in its new flights, as exactly the units of the
/// datagram under the number of the send, or it is the last body that waits.
pub fn sends_fly()
    ensures { SendsFly }
{}

/// Whatever power is lost and whatever is forged, in an event that is no `leave`, `deliver`, `inject`, `tick` or `restart` each node that runs
/// before and after it holds all that it held: what waits has at most more after it, and what is gathered is the same.
pub fn events_keep_held()
    ensures { EventsKeepHeld }
{}

/// Whatever power is lost and whatever is forged, a `leave`, `deliver`, `inject` or `restart` leaves each node but its own as it is.
pub fn events_leave_others()
    ensures { EventsLeaveOthers }
{}

/// Whatever power is lost and whatever is forged, in each event of a line: a body that waits at a node waits still, or all its units are new flights
/// of the node under its note, or the event ends it, for one of five reasons.
pub fn events_keep_bodies()
    ensures { EventsKeepBodies }
{}

/// Whatever power is lost and whatever is forged, in each event of a line: a piece that is gathered at a node is gathered still under the same name
/// and note, or it is handed up with the whole under that note, or a piece that overlaps comes, or the event ends it, for one of five reasons.
pub fn events_keep_pieces()
    ensures { EventsKeepPieces }
{}

/// Whatever power is lost and whatever is forged, in each event of a line: a flight is there as it was, or it is lost by `lose` of its number.
pub fn events_keep_flights()
    ensures { EventsKeepFlights }
{}

/// Whatever power is lost and whatever is forged, an event in which a node accepts a piece for its address gathers it, or hands up the datagram that it
/// makes whole, or has no room for it, or halts the node.
pub fn pieces_arrive()
    ensures { PiecesArrive }
{}

/// A broadcast that a node hands up goes on to all with one hop less, in the one frame that it then sends, while it has a hop more.
pub fn broadcasts_go_further()
    ensures { BroadcastsGoFurther }
{}
