//! What becomes of frames that no node sent, and how frames are spelled.
ghost use Rattle.worked_scripts.specs.FrameScripts.{AForgedFrameIsNamed, ALostFrameIsNotForged, MaliciousFramesAreRefused, FramesHaveTheirNodes};
ghost use Rattle.worked_scripts.specs.FrameScripts.{UnitsHaveTheirPaths, FramesAreSpelled};

/// A frame with the right key that nobody sent is handed up under the note 0, and named as forged.
#[tactic(auto, using(crate::proofs::FrameScripts::a_forged_frame_is_named))]
pub fn a_forged_frame_is_named()
    ensures { AForgedFrameIsNamed }
{}

/// Octets that a node sent are not forged, also where their flight was lost; their note is the flight's.
#[tactic(auto, using(crate::proofs::FrameScripts::a_lost_frame_is_not_forged))]
pub fn a_lost_frame_is_not_forged()
    ensures { ALostFrameIsNotForged }
{}

/// Each malicious frame is refused by name, or answered as any other.
#[tactic(auto, using(crate::proofs::FrameScripts::malicious_frames_are_refused))]
pub fn malicious_frames_are_refused()
    ensures { MaliciousFramesAreRefused }
{}

/// A frame is for a node by its address, by its EUI or, sealed, to all, and from another node; a node without a ring has no key for what
/// goes to all.
#[tactic(auto, using(crate::proofs::FrameScripts::frames_have_their_nodes))]
pub fn frames_have_their_nodes()
    ensures { FramesHaveTheirNodes }
{}

/// A sealed frame to all carries no unit over the mesh, a sealed one to a neighbour no joining command, and a plain one nothing else.
#[tactic(auto, using(crate::proofs::FrameScripts::units_have_their_paths))]
pub fn units_have_their_paths()
    ensures { UnitsHaveTheirPaths }
{}

/// The octets of frames are those of the formats: a sealed frame's header and unit, the same after a relay, with one hop less, and the
/// plain frames that ask, challenge and accept.
#[tactic(auto, using(crate::proofs::FrameScripts::frames_are_spelled))]
pub fn frames_are_spelled()
    ensures { FramesAreSpelled }
{}
