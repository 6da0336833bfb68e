//! What becomes of joinings: over the air and through an agent, in time and late, with packets that are refused.
ghost use Rattle.worked_scripts.specs.JoiningScripts.{AMeterJoinsOverTheAir, AnOldThirdPacketIsRefused, PlainFramesTakeNoCounter, AMeterJoinsThroughAnAgent};
ghost use Rattle.worked_scripts.specs.JoiningScripts.{ASessionEndsAfterTwoMinutes, ChallengesAreJudgedInOrder, AForgedGrantIsNamed, AForgedAnswerIsNamed};
ghost use Rattle.worked_scripts.specs.JoiningScripts.{PacketsAreChecked, EightSessionsAreOpen, AKickedMeterMayNotKnow, TwoJoiningsHaveTwoValues};

/// A meter joins over the air: both ends come to an end, and the meter has its address; its session is over, and the keys of its grant are
/// known as issued.
#[tactic(auto, using(crate::proofs::JoiningScripts::a_meter_joins_over_the_air))]
pub fn a_meter_joins_over_the_air()
    ensures { AMeterJoinsOverTheAir }
{}

/// A meter that has asked again hears only what answers that: the third packet of its earlier session is refused.
#[tactic(auto, using(crate::proofs::JoiningScripts::an_old_third_packet_is_refused))]
pub fn an_old_third_packet_is_refused()
    ensures { AnOldThirdPacketIsRefused }
{}

/// Plain frames take no counter and no own number.
#[tactic(auto, using(crate::proofs::JoiningScripts::plain_frames_take_no_counter))]
pub fn plain_frames_take_no_counter()
    ensures { PlainFramesTakeNoCounter }
{}

/// A meter joins through another one that is joined, as over the air.
#[tactic(auto, using(crate::proofs::JoiningScripts::a_meter_joins_through_an_agent))]
pub fn a_meter_joins_through_an_agent()
    ensures { AMeterJoinsThroughAnAgent }
{}

/// A meter's session lasts less than 120 seconds from the call that began it, and again from its answer; the coordinator's lasts less than
/// 120 seconds from its first packet, which the third does not lengthen.
#[tactic(auto, using(crate::proofs::JoiningScripts::a_session_ends_after_two_minutes))]
pub fn a_session_ends_after_two_minutes()
    ensures { ASessionEndsAfterTwoMinutes }
{}

/// A challenge comes by the agent that was asked. A packet whose sixth octet begins with two zero bits is a first one, which needs a random
/// value before its form is judged, and leaves it where it is refused; each other one is a third, which needs an answered challenge.
#[tactic(auto, using(crate::proofs::JoiningScripts::challenges_are_judged_in_order))]
pub fn challenges_are_judged_in_order()
    ensures { ChallengesAreJudgedInOrder }
{}

/// A pair tag that no node made is named as forged where the node found it right, also where its store fails then; a wrong one is refused.
#[tactic(auto, using(crate::proofs::JoiningScripts::a_forged_grant_is_named))]
pub fn a_forged_grant_is_named()
    ensures { AForgedGrantIsNamed }
{}

/// A second packet that the meter did not make, under its pair key, is named as forged where the coordinator found its tag right; under
/// another key it is refused and not named.
#[tactic(auto, using(crate::proofs::JoiningScripts::a_forged_answer_is_named))]
pub fn a_forged_answer_is_named()
    ensures { AForgedAnswerIsNamed }
{}

/// Packets are checked at both ends, and a refused one leaves the session as it was.
#[tactic(auto, using(crate::proofs::JoiningScripts::packets_are_checked))]
pub fn packets_are_checked()
    ensures { PacketsAreChecked }
{}

/// The coordinator has eight sessions at most; room is judged before random values, and a meter with a session needs none. A kick makes
/// room.
#[tactic(auto, using(crate::proofs::JoiningScripts::eight_sessions_are_open))]
pub fn eight_sessions_are_open()
    ensures { EightSessionsAreOpen }
{}

/// A meter that was kicked without a route knows nothing of it.
#[tactic(auto, using(crate::proofs::JoiningScripts::a_kicked_meter_may_not_know))]
pub fn a_kicked_meter_may_not_know()
    ensures { AKickedMeterMayNotKnow }
{}

/// Two joinings have the two values that the coordinator was given; where it is given one value twice, two joinings that are done have this value.
#[tactic(auto, using(crate::proofs::JoiningScripts::two_joinings_have_two_values))]
pub fn two_joinings_have_two_values()
    ensures { TwoJoiningsHaveTwoValues }
{}
