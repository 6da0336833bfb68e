//! Laws of the rules: each carried by a function that does nothing.
ghost use Rattle.std.specs.Prelude.{ℕ, ◌≡◌, true, List, is_some, Ok, Err};
ghost use Rattle.plc_base.specs.Keeper.{Write};
ghost use Rattle.store_tables.specs.Writes.{Wrote};
ghost use Rattle.plc_base.specs.declared.tags.PairTag.{PairTag};
ghost use Rattle.node_rules.specs.Accepted.{Accepted};
ghost use Rattle.node_rules.specs.declared.heard.Way.{Way};
ghost use Rattle.node_rules.specs.declared.heard.Heard.TheVariants as heard;
ghost use Rattle.node_rules.specs.declared.refusal.Dropped.TheVariants as drops;
ghost use Rattle.node_rules.specs.Frames.{Sent};
ghost use Rattle.node_rules.specs.Memory.{StationMemory};
ghost use Rattle.node_rules.specs.HearingRules.{hear};
ghost use Rattle.node_rules.specs.ComposedPlans.{behind, adding, out_with, seen, ComesSo};
ghost use Rattle.plc_base.specs.declared.out_frame.Out.{Out};
ghost use Rattle.node_rules.specs.CarriedPlans.{Carries, IsCarriedOut};
ghost use Rattle.node_rules.specs.Plans.{Plan, resting, within};
ghost use Rattle.node_rules.specs.States.{State};
ghost use Rattle.node_rules.specs.Laws.{WritesFailCleanly, NoCutNoFailure, HaltedHasNoAddress, RinglessHasNoAddress, HaltedDoesNothing};
ghost use Rattle.node_rules.specs.Laws.{AFrameRefusedChangesNothing, ADropChangesNothing, AMetersDropChangesNothing, ACoordinatorsDropChangesNothing};
ghost use Rattle.node_rules.specs.Laws.{ASendRefusedChangesNothing, AJoinRefusedChangesNothing, AnOrderRefusedChangesNothing, TheRoomNamesTheRefusal};
ghost use Rattle.node_rules.specs.Laws.{HearingIsBounded, RepliesAreFew, AMetersRepliesAreFew, ACoordinatorsRepliesAreFew, AMetersHearingIsBounded};
ghost use Rattle.node_rules.specs.Laws.{ACoordinatorsHearingIsBounded, ASendIsBounded, AJoinIsBounded, AnOrderIsBounded, AcceptingOnlyMarks};
ghost use Rattle.node_rules.specs.Laws.{AnEmptyStoreIsBlank};

/// Where the write of a plan fails, the writes before it are stored and those after it are not; the failed one is stored as the
/// loss of power says. The node answers the word of a failed write, and nothing is sent, made or kept in memory. A plan whose writes are
/// all before the loss is carried out whole.
#[tactic(auto, using(crate::proofs::FailedWrites::clean))]
pub fn writes_fail_cleanly<M, A>()
    ensures { WritesFailCleanly M A }
{}

/// Without a loss of power to come no write fails, and every plan is carried out whole.
#[tactic(auto, using(crate::proofs::FailedWrites::no_cut))]
pub fn no_cut_no_failure<M, A>()
    ensures { NoCutNoFailure M A }
{}

/// What a call does that carries out a plan is a function of the cut that is to come: where the cut is known it is `carry_out`, and
/// over any other keeper in which no put fails it is `carry_out` with no cut.
pub fn calls_are_functions<M, A>()
    ensures { (old new : State M) (p : Plan M A) (answer : A) (out : Out) → Carries old p answer out new
        → IsCarriedOut old p answer out new }
{}

/// A halted node has no address and no route.
#[tactic(auto, using(crate::proofs::HaltedNodes::halted))]
pub fn halted_has_no_address()
    ensures { HaltedHasNoAddress }
{}

/// A node without a ring has no address and no route.
#[tactic(auto, using(crate::proofs::HaltedNodes::ringless))]
pub fn ringless_has_no_address()
    ensures { RinglessHasNoAddress }
{}

/// A halted node answers each call with the word for it, and does nothing else.
#[tactic(auto, using(crate::proofs::HaltedNodes::does_nothing))]
pub fn halted_does_nothing<A>()
    ensures { HaltedDoesNothing A }
{}

/// A frame that a node does not accept changes nothing, and nothing is sent or checked for it.
#[tactic(auto, using(crate::proofs::Refusals::frames_refused))]
pub fn a_frame_refused_changes_nothing()
    ensures { AFrameRefusedChangesNothing }
{}

/// A frame that a station drops changes nothing: nothing is stored, sent, made or found right.
#[tactic(auto, using(crate::proofs::Refusals::drops))]
pub fn a_drop_changes_nothing()
    ensures { ADropChangesNothing }
{}

/// A frame that a meter drops changes nothing of all that it holds in memory.
#[tactic(auto, using(crate::proofs::Refusals::meters_drops))]
pub fn a_meters_drop_changes_nothing()
    ensures { AMetersDropChangesNothing }
{}

/// A frame that the coordinator drops changes nothing of all that it holds in memory.
#[tactic(auto, using(crate::proofs::Refusals::coordinators_drops))]
pub fn a_coordinators_drop_changes_nothing()
    ensures { ACoordinatorsDropChangesNothing }
{}

/// A send of a datagram or a command that is refused changes nothing.
#[tactic(auto)]
pub fn a_send_refused_changes_nothing()
    ensures { ASendRefusedChangesNothing }
{}

/// Joining and leaving that a meter refuses change nothing.
#[tactic(auto)]
pub fn a_join_refused_changes_nothing()
    ensures { AJoinRefusedChangesNothing }
{}

/// An order that the coordinator refuses changes nothing.
#[tactic(auto)]
pub fn an_order_refused_changes_nothing()
    ensures { AnOrderRefusedChangesNothing }
{}

/// What `room` answers for a command is what sending it is refused for; where it answers None only a failed store write refuses it.
#[tactic(auto)]
pub fn the_room_names_the_refusal()
    ensures { TheRoomNamesTheRefusal }
{}

/// A station that hears a frame sends at most 24 frames, where at most 8 bodies of 80 blocks wait, and stores in this order: the
/// floors, a rank, the own number, and last the counter.
#[tactic(auto)]
pub fn hearing_is_bounded()
    ensures { HearingIsBounded }
{}

/// A station that hears a frame with a route reply sends at most 22 frames, where at most 8 bodies of 80 blocks wait: so one more can go
/// out after them. So does a meter, and the coordinator.
#[tactic(auto)]
pub fn replies_are_few()
    ensures stations { RepliesAreFew }
    ensures meters { AMetersRepliesAreFew }
    ensures coordinators { ACoordinatorsRepliesAreFew }
{}

/// The same of a meter that hears a frame, and it stores in order: floors, a rank or the ring, the own number, the counter.
#[tactic(auto)]
pub fn a_meters_hearing_is_bounded()
    ensures { AMetersHearingIsBounded }
{}

/// The same of the coordinator that hears a frame, and it stores in order: floors, a rank or a book entry, the own number,
/// the counter.
#[tactic(auto)]
pub fn a_coordinators_hearing_is_bounded()
    ensures { ACoordinatorsHearingIsBounded }
{}

/// The same of a send of a datagram or of a command, and it stores in order: the tag, the own number, the counter.
#[tactic(auto)]
pub fn a_send_is_bounded()
    ensures { ASendIsBounded }
{}

/// The same of a meter that joins or leaves, and it stores in order: the ring, the counter.
#[tactic(auto)]
pub fn a_join_is_bounded()
    ensures { AJoinIsBounded }
{}

/// The same of an order of the operator, and it stores in order: the ring or book entries, the own number, the counter.
#[tactic(auto)]
pub fn an_order_is_bounded()
    ensures { AnOrderIsBounded }
{}

/// Accepting a frame stores at most the mark of its sender, and sends, makes and checks nothing.
#[tactic(auto)]
pub fn accepting_only_marks()
    ensures { AcceptingOnlyMarks }
{}

/// A plan that is carried out over a part of what a node holds is carried out over the whole of it.
pub fn parts_are_carried_out<M, N, A, B>()
    ensures { (whole : M → N) (reads : A → B) (old : State N) (before new : State M) (p : Plan M A) (answer : A)
        (out : Out)
        → old.store ≡ before.store → old.eui ≡ before.eui → Carries before p answer out new
        → Carries old (within whole reads p) (reads answer) out (seen whole new) }
{}

/// Puts that were done, and then a plan that was carried out, are one plan that was carried out.
pub fn plans_follow_puts<M, A>()
    ensures { (s t u : State M) (ws : List Write) (p : Plan M A) (answer : A) (out : Out)
        → Wrote s.store ws true t.store → s.eui ≡ t.eui → Carries t p answer out u
        → Carries s (behind ws p) answer out u }
{}

/// A plan that was carried out, whose frames and tags come after others, is the plan with these others.
pub fn plans_give_out_more<M, A>()
    ensures { (frames : List Sent) (made opened : List PairTag) (s t : State M) (p : Plan M A) (answer : A)
        (out more : Out)
        → Carries s p answer out t → more ≡ out_with frames made opened (is_some t.memory) out
        → Carries s (adding frames made opened p) answer more t }
{}

/// A joining command that a station hands on has changed nothing of it, and one that came over the mesh came to a station that is joined.
pub fn commands_are_handed_on()
    ensures { (l : StationMemory) (got : Accepted) (cost note now : ℕ) (way : Way) (body : List ℕ)
        → (hear l got cost note now).answer ≡ Ok (heard.Joining way body)
        → ComesSo l way × (hear l got cost note now ≡ resting l (Ok (heard.Joining way body)) (Err drops.Store)) }
{}

/// A store without records gives a blank memory to a node of either role, so that a restart over an empty store leaves what a new node
/// begins with.
#[tactic(auto, using(crate::proofs::Blank::blank))]
pub fn an_empty_store_is_blank()
    ensures { AnEmptyStoreIsBlank }
{}
