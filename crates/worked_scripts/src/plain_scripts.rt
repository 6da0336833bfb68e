//! What a frame without a seal costs a node, which anybody can make, and what other frames cost.
ghost use Rattle.worked_scripts.specs.PlainScripts.{TheFirstFramesHaveNoSeal, ARightTagCostsMore, ASealCostsMore};

/// The frames with which a joining begins meet what `plain_frames_cost_little` of `line_progress` asks: the coordinator and a meter accept them without a seal,
/// and find no pair tag right in them.
#[tactic(auto, using(crate::proofs::PlainScripts::the_first_frames_have_no_seal))]
pub fn the_first_frames_have_no_seal()
    ensures { TheFirstFramesHaveNoSeal }
{}

/// A frame without a seal in which a pair tag is right costs more: a key noted in the coordinator's book, the ring of a meter.
#[tactic(auto, using(crate::proofs::PlainScripts::a_right_tag_costs_more))]
pub fn a_right_tag_costs_more()
    ensures { ARightTagCostsMore }
{}

/// A frame with a seal costs more, also where no pair tag is right in it: a mark, a rank that the coordinator keeps, the ring of a meter.
#[tactic(auto, using(crate::proofs::PlainScripts::a_seal_costs_more))]
pub fn a_seal_costs_more()
    ensures { ASealCostsMore }
{}
