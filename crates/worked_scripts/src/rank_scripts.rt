//! What becomes of ranks that messages offer: which are refused, which are kept, and which are forgotten.
ghost use Rattle.worked_scripts.specs.RankScripts.{CostsAreSpent, RequestsOfferRanks, RepliesOfferRanks, AReplyGoesByTheHopFromBefore, AnAnswerTakesANumber};
ghost use Rattle.worked_scripts.specs.RankScripts.{ARouteEndsAfterSixHours, AFullTableRefuses, AFullTableForgetsTheEarliest, AFullTableForgetsTheBroken};
ghost use Rattle.worked_scripts.specs.RankScripts.{FloorsAreStoredFirst, ANodeHearsSixtyFourSenders};

/// A request goes on as long as its cost has a number of 16 bits.
#[tactic(auto, using(crate::proofs::RankScripts::costs_are_spent))]
pub fn costs_are_spent()
    ensures { CostsAreSpent }
{}

/// A request is taken where its rank beats the kept one: by a greater number, or by a lower cost at the same number. Its own origin refuses
/// it, a sum above 65,535 is compared whole, and one that is not for all is no request. The node that is sought answers with a number of
/// its own.
#[tactic(auto, using(crate::proofs::RankScripts::requests_offer_ranks))]
pub fn requests_offer_ranks()
    ensures { RequestsOfferRanks }
{}

/// A reply to another node needs a route to it; then its rank is judged as that of a request, and one to all is no reply.
#[tactic(auto, using(crate::proofs::RankScripts::replies_offer_ranks))]
pub fn replies_offer_ranks()
    ensures { RepliesOfferRanks }
{}

/// A reply goes on by the hop that led to its target before its own offer, also where its origin is its target.
#[tactic(auto, using(crate::proofs::RankScripts::a_reply_goes_by_the_hop_from_before))]
pub fn a_reply_goes_by_the_hop_from_before()
    ensures { AReplyGoesByTheHopFromBefore }
{}

/// Only the node that is sought needs an own number, which is judged after the rank and before the counters.
#[tactic(auto, using(crate::proofs::RankScripts::an_answer_takes_a_number))]
pub fn an_answer_takes_a_number()
    ensures { AnAnswerTakesANumber }
{}

/// A route is valid for less than 21,600 seconds, and its rank stays.
#[tactic(auto, using(crate::proofs::RankScripts::a_route_ends_after_six_hours))]
pub fn a_route_ends_after_six_hours()
    ensures { ARouteEndsAfterSixHours }
{}

/// A full table takes an offer for an address that it keeps, and refuses another one while each of its routes was offered less than 60
/// seconds ago; the cost is judged before.
#[tactic(auto, using(crate::proofs::RankScripts::a_full_table_refuses))]
pub fn a_full_table_refuses()
    ensures { AFullTableRefuses }
{}

/// After 60 seconds the earliest offer is forgotten, of equal ones the lowest address; its number is the floor of its class, which a rank
/// of that class has to pass.
#[tactic(auto, using(crate::proofs::RankScripts::a_full_table_forgets_the_earliest))]
pub fn a_full_table_forgets_the_earliest()
    ensures { AFullTableForgetsTheEarliest }
{}

/// A rank without a valid route is forgotten before any other one and at once, of several the lowest number.
#[tactic(auto, using(crate::proofs::RankScripts::a_full_table_forgets_the_broken))]
pub fn a_full_table_forgets_the_broken()
    ensures { AFullTableForgetsTheBroken }
{}

/// Forgetting stores the floors before the rank, which takes the slot of the forgotten one; nothing of a floor is stored where none rises.
#[tactic(auto, using(crate::proofs::RankScripts::floors_are_stored_first))]
pub fn floors_are_stored_first()
    ensures { FloorsAreStoredFirst }
{}

/// A node hears 64 senders, each by counters that rise, and no other sender.
#[tactic(auto, using(crate::proofs::RankScripts::a_node_hears_sixty_four_senders))]
pub fn a_node_hears_sixty_four_senders()
    ensures { ANodeHearsSixtyFourSenders }
{}
