//! Laws of meters: each carried by a function that does nothing.
ghost use Rattle.meter_node.specs.Laws.{AcceptedFramesCame};

/// A frame that its station accepts meets what `Meter::hear` requires of it: one that came up to the meter's address came to a meter that
/// is joined, and it is joined still when the frame has been accepted.
#[tactic(auto, using(crate::proofs::AcceptingRules::came))]
pub fn accepted_frames_came()
    ensures { AcceptedFramesCame }
{}
