//! What becomes of keys: rotation, activation, kicks, and leaving.
ghost use Rattle.worked_scripts.specs.KeyScripts.{RotationAndKick, AMeterAnswersUnderItsNewRing, OrdersAreRefused, AnotherKeyIsNotIssued, AnOrderMayLackRoom};
ghost use Rattle.worked_scripts.specs.KeyScripts.{KickGoesWhereItCan, LeavingKeepsRanksAndMarks};

/// A meter is given the second key, a kicked one leaves and hears nothing under it, and what is sealed under the old one opens no more.
#[tactic(auto, using(crate::proofs::KeyScripts::rotation_and_kick))]
pub fn rotation_and_kick()
    ensures { RotationAndKick }
{}

/// A meter answers the first packet under the key that it has, and the third under the ring that it was just granted.
#[tactic(auto, using(crate::proofs::KeyScripts::a_meter_answers_under_its_new_ring))]
pub fn a_meter_answers_under_its_new_ring()
    ensures { AMeterAnswersUnderItsNewRing }
{}

/// A key is activated where the coordinator holds it and, for a meter, issued it to that meter; a kick takes back what was issued, and the
/// meter's address stays its own.
#[tactic(auto, using(crate::proofs::KeyScripts::orders_are_refused))]
pub fn orders_are_refused()
    ensures { OrdersAreRefused }
{}

/// A key that was drawn since is another one than that which was issued at its index.
#[tactic(auto, using(crate::proofs::KeyScripts::another_key_is_not_issued))]
pub fn another_key_is_not_issued()
    ensures { AnotherKeyIsNotIssued }
{}

/// An order lacks room, a number or a counter as any other command does, a challenge after its random value.
#[tactic(auto, using(crate::proofs::KeyScripts::an_order_may_lack_room))]
pub fn an_order_may_lack_room()
    ensures { AnOrderMayLackRoom }
{}

/// A kick needs neither a route nor a counter; the word goes out where both are there.
#[tactic(auto, using(crate::proofs::KeyScripts::kick_goes_where_it_can))]
pub fn kick_goes_where_it_can()
    ensures { KickGoesWhereItCan }
{}

/// Leaving ends the ring, the routes, what is gathered, what waits and the session; ranks, marks, numbers and random values stay.
#[tactic(auto, using(crate::proofs::KeyScripts::leaving_keeps_ranks_and_marks))]
pub fn leaving_keeps_ranks_and_marks()
    ensures { LeavingKeepsRanksAndMarks }
{}
