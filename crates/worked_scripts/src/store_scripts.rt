//! What a step stores, in which order, and what is left where a write fails.
ghost use Rattle.worked_scripts.specs.StoreScripts.{AFailedWriteHalts, EachWriteMayFail, ASendStoresItsTagFirst, TagsBeginAgain, TheWorkshopStores};
ghost use Rattle.worked_scripts.specs.StoreScripts.{OrdersAreStored, WhatDoesNotChangeIsNotStored, EachCallMayFail, AJoiningStoresItsKeys, AKickIsStoredFirst};
ghost use Rattle.worked_scripts.specs.StoreScripts.{LimitsStopAtTheEnd, AStepPassesTheLimitOnce, MarksAreStoredAhead, NumbersAreStoredAhead};

/// A node whose store write failed halts and sends nothing.
#[tactic(auto, using(crate::proofs::StoreScripts::a_failed_write_halts))]
pub fn a_failed_write_halts()
    ensures { AFailedWriteHalts }
{}

/// A loss of power at the nth write leaves the writes before it and the old or the new record; the node halts, sends nothing, and the frame
/// that it had accepted counts as forged, but not the one whose mark it could not store.
#[tactic(auto, using(crate::proofs::StoreScripts::each_write_may_fail))]
pub fn each_write_may_fail()
    ensures { EachWriteMayFail }
{}

/// A send takes its tag first, also where it waits, then an own number, then its counters; a datagram of 375 octets takes no tag.
#[tactic(auto, using(crate::proofs::StoreScripts::a_send_stores_its_tag_first))]
pub fn a_send_stores_its_tag_first()
    ensures { ASendStoresItsTagFirst }
{}

/// The tag after the last one is the first.
#[tactic(auto, using(crate::proofs::StoreScripts::tags_begin_again))]
pub fn tags_begin_again()
    ensures { TagsBeginAgain }
{}

/// The coordinator stores its ring when it begins; the workshop allows a meter, notes its keys as issued, and stores what the setup gives.
#[tactic(auto, using(crate::proofs::StoreScripts::the_workshop_stores))]
pub fn the_workshop_stores()
    ensures { TheWorkshopStores }
{}

/// Orders of the operator are stored before they go out, and a meter that leaves stores that it has no ring.
#[tactic(auto, using(crate::proofs::StoreScripts::orders_are_stored))]
pub fn orders_are_stored()
    ensures { OrdersAreStored }
{}

/// Nothing is stored of an entry of the book that does not change; a ring is stored also where it does not.
#[tactic(auto, using(crate::proofs::StoreScripts::what_does_not_change_is_not_stored))]
pub fn what_does_not_change_is_not_stored()
    ensures { WhatDoesNotChangeIsNotStored }
{}

/// Each call that stores may fail so, and a later cut takes the place of an earlier one.
#[tactic(auto, using(crate::proofs::StoreScripts::each_call_may_fail))]
pub fn each_call_may_fail()
    ensures { EachCallMayFail }
{}

/// The keys of a grant are stored as issued when they go out, and the meter stores its ring before it answers; nothing else of a joining
/// over the air is stored.
#[tactic(auto, using(crate::proofs::StoreScripts::a_joining_stores_its_keys))]
pub fn a_joining_stores_its_keys()
    ensures { AJoiningStoresItsKeys }
{}

/// The book is stored before the word goes out: where the second write fails, the kicked entry stays and no word goes out.
#[tactic(auto, using(crate::proofs::StoreScripts::a_kick_is_stored_first))]
pub fn a_kick_is_stored_first()
    ensures { AKickIsStoredFirst }
{}

/// A limit that would pass the type's end is stored as that end.
#[tactic(auto, using(crate::proofs::StoreScripts::limits_stop_at_the_end))]
pub fn limits_stop_at_the_end()
    ensures { LimitsStopAtTheEnd }
{}

/// A limit that the frames of one step pass is stored once, 1,024 above the old one, after what else the step stores.
#[tactic(auto, using(crate::proofs::StoreScripts::a_step_passes_the_limit_once))]
pub fn a_step_passes_the_limit_once()
    ensures { AStepPassesTheLimitOnce }
{}

/// A mark is stored for a new sender and where the counter passes the stored one, 63 ahead, and at the type's end at most.
#[tactic(auto, using(crate::proofs::StoreScripts::marks_are_stored_ahead))]
pub fn marks_are_stored_ahead()
    ensures { MarksAreStoredAhead }
{}

/// The limit of the own number is stored 32 above the last one, at its first number and then at every 32nd.
#[tactic(auto, using(crate::proofs::StoreScripts::numbers_are_stored_ahead))]
pub fn numbers_are_stored_ahead()
    ensures { NumbersAreStoredAhead }
{}
