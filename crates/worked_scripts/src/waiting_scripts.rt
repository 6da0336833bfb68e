//! What becomes of bodies that wait for a route, and of what a node sends with few counters left.
ghost use Rattle.worked_scripts.specs.WaitingScripts.{WhatWaitsLeavesInOrder, WhatWaitsLeavesBeforeTheAnswer, EightBodiesWait, EightyBlocksWait};
ghost use Rattle.worked_scripts.specs.WaitingScripts.{WaitingEndsAfterHalfAMinute, SeekingTakesANumber, SeekingTakesACounter, WaitingPiecesTakeCounters};
ghost use Rattle.worked_scripts.specs.WaitingScripts.{NothingIsSentWhenSpent};

/// One request seeks a route for all that waits; then what waits for it leaves, in the order of its arrival, and the rest waits.
#[tactic(auto, using(crate::proofs::WaitingScripts::what_waits_leaves_in_order))]
pub fn what_waits_leaves_in_order()
    ensures { WhatWaitsLeavesInOrder }
{}

/// What waits for the origin of a request leaves before the answer to it, whose number was taken before.
#[tactic(auto, using(crate::proofs::WaitingScripts::what_waits_leaves_before_the_answer))]
pub fn what_waits_leaves_before_the_answer()
    ensures { WhatWaitsLeavesBeforeTheAnswer }
{}

/// Eight bodies wait at most, and a route needs no room.
#[tactic(auto, using(crate::proofs::WaitingScripts::eight_bodies_wait))]
pub fn eight_bodies_wait()
    ensures { EightBodiesWait }
{}

/// They fill 80 blocks of 64 octets at most.
#[tactic(auto, using(crate::proofs::WaitingScripts::eighty_blocks_wait))]
pub fn eighty_blocks_wait()
    ensures { EightyBlocksWait }
{}

/// A body waits for less than 30 seconds. Once none waits for an address, its route is sought anew.
#[tactic(auto, using(crate::proofs::WaitingScripts::waiting_ends_after_half_a_minute))]
pub fn waiting_ends_after_half_a_minute()
    ensures { WaitingEndsAfterHalfAMinute }
{}

/// An own number is taken for the first body that waits for an address, and judged after the room and before the counters.
#[tactic(auto, using(crate::proofs::WaitingScripts::seeking_takes_a_number))]
pub fn seeking_takes_a_number()
    ensures { SeekingTakesANumber }
{}

/// A body that waits takes a counter for its request alone, and none where the route is sought already.
#[tactic(auto, using(crate::proofs::WaitingScripts::seeking_takes_a_counter))]
pub fn seeking_takes_a_counter()
    ensures { SeekingTakesACounter }
{}

/// All pieces of what waits count, and beside them the frame of the answer or of the message that goes on; a refusal makes no route.
#[tactic(auto, using(crate::proofs::WaitingScripts::waiting_pieces_take_counters))]
pub fn waiting_pieces_take_counters()
    ensures { WaitingPiecesTakeCounters }
{}

/// Nothing is sent without a counter, nor sought without an own number.
#[tactic(auto, using(crate::proofs::WaitingScripts::nothing_is_sent_when_spent))]
pub fn nothing_is_sent_when_spent()
    ensures { NothingIsSentWhenSpent }
{}
