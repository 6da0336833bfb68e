//! What refuses the calls of the line, and which lines of a script are bad.
ghost use Rattle.worked_scripts.specs.CallScripts.{HaltedNodesDoNothing, CallsNeedAddresses, EightRandomValuesAreHeld, TheBookHasRoom};
ghost use Rattle.worked_scripts.specs.CallScripts.{BadLinesHaveTheirReasons, SixtyFourAreNear};

/// A halted node answers so before all else, and has no address for others.
#[tactic(auto, using(crate::proofs::CallScripts::halted_nodes_do_nothing))]
pub fn halted_nodes_do_nothing()
    ensures { HaltedNodesDoNothing }
{}

/// A call toward a node without an address is refused first; then the node's own state refuses, then the size, then the own address.
#[tactic(auto, using(crate::proofs::CallScripts::calls_need_addresses))]
pub fn calls_need_addresses()
    ensures { CallsNeedAddresses }
{}

/// A node holds eight random values, takes the oldest first, and keeps them when it leaves.
#[tactic(auto, using(crate::proofs::CallScripts::eight_random_values_are_held))]
pub fn eight_random_values_are_held()
    ensures { EightRandomValuesAreHeld }
{}

/// The book has room for 999 meters, and one that is known needs none. No script fills it, since a world has no more meters.
#[tactic(auto, using(crate::proofs::CallScripts::the_book_has_room))]
pub fn the_book_has_room()
    ensures { TheBookHasRoom }
{}

/// A line that is not taken has the first reason that holds.
#[tactic(auto, using(crate::proofs::CallScripts::bad_lines_have_their_reasons))]
pub fn bad_lines_have_their_reasons()
    ensures { BadLinesHaveTheirReasons }
{}

/// A node that keeps 64 ranks is near no other.
#[tactic(auto, using(crate::proofs::CallScripts::sixty_four_are_near))]
pub fn sixty_four_are_near()
    ensures { SixtyFourAreNear }
{}
