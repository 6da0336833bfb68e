//! Laws of puts that are stored after the call: each carried by a function that does nothing.
ghost use Rattle.node_rules.specs.DeferredPuts.{DeferringPuts, CutsWhileStoring, ListedPutsAreThePlans, ListedPutsAreDeferred};
ghost use Rattle.node_rules.specs.FewPuts.{HearingPutsFew, AMetersHearingPutsFew, ACoordinatorsHearingPutsFew, SendingPutsFew, JoiningPutsFew, OrdersPutFew};

/// Puts may be stored after the call that made them. Where a call runs over a keeper in memory, and its owner stores the puts in order and
/// then sends the frames, or stops at the first store that fails, the node does what it does over the store itself (`calls`). Where power
/// fails meanwhile, the store has records that the call itself could have left, and no frame was sent (`cuts`).
pub fn deferring_puts<M, A>()
    ensures calls { DeferringPuts M A }
    ensures cuts { CutsWhileStoring M A }
{}

/// Over a keeper that lists its puts, a call that halted nothing leaves the list before it, and then the puts of its plan, in order.
pub fn listed_puts_are_the_plans<M, A>()
    ensures { ListedPutsAreThePlans M A }
{}

/// So where the list was empty before the call, it is enough to store the list.
pub fn listed_puts_are_deferred<M, A>()
    ensures { ListedPutsAreDeferred M A }
{}

/// A station that hears a frame makes at most four puts: the floors, a rank, the own number and the counter. So does a meter, and the
/// coordinator.
pub fn hearing_puts_few()
    ensures stations { HearingPutsFew }
    ensures meters { AMetersHearingPutsFew }
    ensures coordinators { ACoordinatorsHearingPutsFew }
{}

/// A send of a datagram or a command makes at most four puts.
pub fn sending_puts_few()
    ensures { SendingPutsFew }
{}

/// A meter that joins, leaves, or is given a grant or a neighbour makes at most four puts.
pub fn joining_puts_few()
    ensures { JoiningPutsFew }
{}

/// An order of the operator makes at most four puts.
pub fn orders_put_few()
    ensures { OrdersPutFew }
{}
