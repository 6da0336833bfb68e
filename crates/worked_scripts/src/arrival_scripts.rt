//! A datagram arrives along a route that may carry it; where the route lacks one thing alone, it does not.
ghost use Rattle.worked_scripts.specs.ArrivalScripts.{TheRouteMayCarry, ADatagramArrives};
ghost use Rattle.worked_scripts.specs.ArrivalScripts.{TheRouteMayCarryPieces, ADatagramInPiecesArrives, EachPieceNeedsACounter};
ghost use Rattle.worked_scripts.specs.ArrivalScripts.{BothAreOrders, ADatagramArrivesLinkByLink, EachOrderIsNeeded};
ghost use Rattle.worked_scripts.specs.ArrivalScripts.{PiecesNeedRoom, PiecesNeedTheirName};
ghost use Rattle.worked_scripts.specs.ArrivalScripts.{EachNodeIsReady, EachLinkHolds, TheRouteIsStraight, TheRestIsNeeded, FourteenLinksCarry};

/// A route that was found may carry a datagram of one octet.
#[tactic(auto, using(crate::proofs::ArrivalScripts::the_route_may_carry))]
pub fn the_route_may_carry()
    ensures { TheRouteMayCarry }
{}

/// The ciphers open what they seal, and a datagram arrives along this route, as one octet and as 375.
#[tactic(auto, using(crate::proofs::ArrivalScripts::a_datagram_arrives))]
pub fn a_datagram_arrives()
    ensures { ADatagramArrives }
{}

/// The route may carry a datagram in two pieces.
#[tactic(auto, using(crate::proofs::ArrivalScripts::the_route_may_carry_pieces))]
pub fn the_route_may_carry_pieces()
    ensures { TheRouteMayCarryPieces }
{}

/// It arrives along this route, piece by piece.
#[tactic(auto, using(crate::proofs::ArrivalScripts::a_datagram_in_pieces_arrives))]
pub fn a_datagram_in_pieces_arrives()
    ensures { ADatagramInPiecesArrives }
{}

/// Piece by piece and link by link are orders of its deliveries.
#[tactic(auto, using(crate::proofs::ArrivalScripts::both_are_orders))]
pub fn both_are_orders()
    ensures { BothAreOrders }
{}

/// It arrives link by link too.
#[tactic(auto, using(crate::proofs::ArrivalScripts::a_datagram_arrives_link_by_link))]
pub fn a_datagram_arrives_link_by_link()
    ensures { ADatagramArrivesLinkByLink }
{}

/// It does not arrive where a link brings its second piece first, where one has a delivery less, where a piece comes over the first link twice, or where
/// 60 seconds pass between its pieces.
#[tactic(auto, using(crate::proofs::ArrivalScripts::each_order_is_needed))]
pub fn each_order_is_needed()
    ensures { EachOrderIsNeeded }
{}

/// A datagram does not arrive where a node of the route is not there, is halted, loses power or is not joined, where its address or its index
/// is out of its range, or where it has no key to seal with.
#[tactic(auto, using(crate::proofs::ArrivalScripts::each_node_is_ready))]
pub fn each_node_is_ready()
    ensures { EachNodeIsReady }
{}

/// Nor where a link does not hold: a node has the address of the target or of its next hop, no route, no counter, another key than the next
/// one, or a counter that the next one does not admit any more.
#[tactic(auto, using(crate::proofs::ArrivalScripts::each_link_holds))]
pub fn each_link_holds()
    ensures { EachLinkHolds }
{}

/// Nor where a node stands on the route twice.
#[tactic(auto, using(crate::proofs::ArrivalScripts::the_route_is_straight))]
pub fn the_route_is_straight()
    ensures { TheRouteIsStraight }
{}

/// Nor where the datagram is empty or has more than 1,280 octets, the run may not have the events, or the ciphers do not open what they seal.
#[tactic(auto, using(crate::proofs::ArrivalScripts::the_rest_is_needed))]
pub fn the_rest_is_needed()
    ensures { TheRestIsNeeded }
{}

/// Nor a datagram in two pieces where its origin or a node between has one counter left.
#[tactic(auto, using(crate::proofs::ArrivalScripts::each_piece_needs_a_counter))]
pub fn each_piece_needs_a_counter()
    ensures { EachPieceNeedsACounter }
{}

/// Nor where its target gathers 8 datagrams already, or has too few blocks left.
#[tactic(auto, using(crate::proofs::ArrivalScripts::pieces_need_room))]
pub fn pieces_need_room()
    ensures { PiecesNeedRoom }
{}

/// Nor where its target holds a piece under its name, or its tag is out of its range.
#[tactic(auto, using(crate::proofs::ArrivalScripts::pieces_need_their_name))]
pub fn pieces_need_their_name()
    ensures { PiecesNeedTheirName }
{}

/// A datagram arrives over 14 links, and ends for want of hops where there are 15.
#[tactic(auto, using(crate::proofs::ArrivalScripts::fourteen_links_carry))]
pub fn fourteen_links_carry()
    ensures { FourteenLinksCarry }
{}
