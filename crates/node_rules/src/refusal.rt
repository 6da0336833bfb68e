//! Why a node refuses: the words of its answers, in the order in which they are tried.
ghost use Rattle.std.specs.Prelude.{◌≡◌};
ghost use Rattle.node_rules.specs.Receives.{heard_or_why};

use thiserror::Error;

/// The node is halted: a store write failed, its store had no reading when it last restarted, or its caller halted it.
#[derive(Clone, Copy, Debug, PartialEq, Eq, Error)]
#[error("the node is halted")]
pub struct Halted;

/// Why a node does not accept a frame. They are tried in this order.
#[derive(Clone, Copy, Debug, PartialEq, Eq, Error)]
pub enum FrameRefusal {
    /// The node is halted.
    #[error("the node is halted")]
    Halted,
    /// The octets are no MAC frame.
    #[error("the octets are no MAC frame")]
    Malformed,
    /// The frame has another PAN id, goes to another node or, being plain, to all, or comes from the node itself.
    #[error("the frame is for another node")]
    NotForMe,
    /// The frame is sealed, and the node holds no key at its index.
    #[error("no key is held at the index of the frame")]
    NoKey,
    /// The tag of the sealed frame is wrong.
    #[error("the tag of the frame is wrong")]
    BadTag,
    /// The counter of the frame is not above the mark of its sender.
    #[error("the counter of the frame is not above the mark of its sender")]
    Replayed,
    /// The sender is new, and 64 senders are held.
    #[error("no sender more can be held")]
    PeersFull,
    /// A store write failed. The node is halted.
    #[error("a store write failed")]
    Store,
}

/// Why a node drops an accepted frame. They are tried in this order. After each of them but Store nothing has changed since the
/// frame was accepted.
#[derive(Clone, Copy, Debug, PartialEq, Eq, Error)]
pub enum Dropped {
    /// The payload is no unit, or a unit that may not come on this way.
    #[error("the payload is no unit that may come so")]
    BadUnit,
    /// No route leads on.
    #[error("no route leads on")]
    NoRoute,
    /// The unit may take no hop more.
    #[error("the unit may take no hop more")]
    HopsSpent,
    /// The rank of the message does not beat the one that is held.
    #[error("the rank does not beat the one that is held")]
    NotBetter,
    /// The cost passes 65,535.
    #[error("the cost passes 65,535")]
    CostSpent,
    /// 64 ranks are kept, and none can be forgotten yet.
    #[error("no rank more can be kept")]
    RoutesFull,
    /// The coordinator does not allow the meter.
    #[error("the meter is not allowed")]
    NotAllowed,
    /// No session awaits the message.
    #[error("no session awaits the message")]
    NoSession,
    /// 8 sessions are open.
    #[error("no session more can be opened")]
    SessionsFull,
    /// No random value is held.
    #[error("no random value is held")]
    NoRandom,
    /// The packet has not the form that is awaited.
    #[error("the packet has not the form that is awaited")]
    Form,
    /// The packet is of another session.
    #[error("the packet is of another session")]
    OtherSession,
    /// MAC_P or MAC_S is wrong.
    #[error("the MAC of the packet is wrong")]
    BadMac,
    /// The tag of the protected channel is wrong.
    #[error("the tag of the protected channel is wrong")]
    BadChannel,
    /// The text of the protected channel does not say success.
    #[error("the protected channel does not say success")]
    NoSuccess,
    /// No key is held at the index.
    #[error("no key is held at the index")]
    NotHeld,
    /// There is no room for a reassembly or for a body that waits.
    #[error("there is no room for it")]
    BufferFull,
    /// The own numbers are spent.
    #[error("the own numbers are spent")]
    SeqSpent,
    /// Fewer frame counters are left than frames have to be sealed.
    #[error("the frame counters are spent")]
    CounterSpent,
    /// A store write failed. The node is halted, and nothing was sent or handed up.
    #[error("a store write failed")]
    Store,
}

/// Why a frame that came was not heard. After `Refused` and `Dropped` the node is not halted, and no reason in them is Halted or Store.
#[derive(Clone, Copy, Debug, PartialEq, Eq, Error)]
pub enum Unheard {
    /// The node is halted. Nothing has changed.
    #[error("the node is halted")]
    Halted,
    /// A store write failed. The node is halted, and nothing was sent or handed up.
    #[error("a store write failed")]
    Store,
    /// The frame was not accepted. Nothing has changed.
    #[error("{0}")]
    Refused(FrameRefusal),
    /// The frame was accepted, and dropped. The mark of its sender is kept, and nothing else has changed.
    #[error("{0}")]
    Dropped(Dropped),
}

impl From<FrameRefusal> for Unheard {
    ghost use Rattle.node_rules.specs.Receives.{why_refused};

    ghost from_gives = { λ reason unheard. unheard ≡ why_refused reason };

    fn from(reason: FrameRefusal) -> Unheard {
        match reason {
            FrameRefusal::Halted => Unheard::Halted,
            FrameRefusal::Store => Unheard::Store,
            reason => Unheard::Refused(reason),
        }
    }
}

impl From<Dropped> for Unheard {
    ghost use Rattle.node_rules.specs.Receives.{why_dropped};

    ghost from_gives = { λ reason unheard. unheard ≡ why_dropped reason };

    fn from(reason: Dropped) -> Unheard {
        match reason {
            Dropped::Store => Unheard::Store,
            reason => Unheard::Dropped(reason),
        }
    }
}

/// What was heard of an accepted frame, or why it was not.
pub fn heard_or_why<H>(heard: Result<H, Dropped>) -> Result<H, Unheard>
    ensures { result ≡ heard_or_why heard }
{
    match heard {
        Ok(heard) => Ok(heard),
        Err(reason) => Err(Unheard::from(reason)),
    }
}

/// Why a datagram or a command is not sent. They are tried in this order; nothing has changed after each of them but Store.
#[derive(Clone, Copy, Debug, PartialEq, Eq, Error)]
pub enum SendRefusal {
    /// The node is halted.
    #[error("the node is halted")]
    Halted,
    /// The node has no ring.
    #[error("the node is not joined")]
    NotJoined,
    /// The datagram has not 1 to 1,280 octets.
    #[error("the datagram has not 1 to 1,280 octets")]
    BadSize,
    /// The target is the node itself.
    #[error("the target is the node itself")]
    ToSelf,
    /// No route is there, and there is no room for a body more that waits.
    #[error("no body more can wait")]
    WaitingFull,
    /// An own number is needed, and they are spent.
    #[error("the own numbers are spent")]
    SeqSpent,
    /// Fewer frame counters are left than frames have to be sealed.
    #[error("the frame counters are spent")]
    CounterSpent,
    /// A store write failed. The node is halted, and nothing was sent.
    #[error("a store write failed")]
    Store,
}

/// Why a command for the neighbours is not sent. They are tried in this order; nothing has changed after each of them but Store.
#[derive(Clone, Copy, Debug, PartialEq, Eq, Error)]
pub enum LocalRefusal {
    /// The node is halted.
    #[error("the node is halted")]
    Halted,
    /// The node has no ring.
    #[error("the node is not joined")]
    NotJoined,
    /// No frame counter is left.
    #[error("the frame counters are spent")]
    CounterSpent,
    /// A store write failed. The node is halted, and nothing is sent.
    #[error("a store write failed")]
    Store,
}

/// Why a node does not change its ring. They are tried in this order; nothing has changed after each of them but Store.
#[derive(Clone, Copy, Debug, PartialEq, Eq, Error)]
pub enum RingRefusal {
    /// The node is halted.
    #[error("the node is halted")]
    Halted,
    /// The node has no ring.
    #[error("the node is not joined")]
    NotJoined,
    /// No key is held at the index.
    #[error("no key is held at this index")]
    NotHeld,
    /// A store write failed. The node is halted.
    #[error("a store write failed")]
    Store,
}

/// Why a setting of the workshop is not made. They are tried in this order; nothing has changed after each of them but Store.
#[derive(Clone, Copy, Debug, PartialEq, Eq, Error)]
pub enum PresetFault {
    /// The node is halted.
    #[error("the node is halted")]
    Halted,
    /// The rank does not beat the one that is held.
    #[error("the rank does not beat the one that is held")]
    NotBetter,
    /// 64 ranks are kept, and none can be forgotten yet.
    #[error("no rank more can be kept")]
    RoutesFull,
    /// A store write failed. The node is halted.
    #[error("a store write failed")]
    Store,
}

/// Why a random value is not taken in.
#[derive(Clone, Copy, Debug, PartialEq, Eq, Error)]
pub enum RandomFault {
    /// The node is halted.
    #[error("the node is halted")]
    Halted,
    /// 8 random values are held.
    #[error("no random value more can be held")]
    RandomsFull,
}

/// Why a meter does not begin to join.
#[derive(Clone, Copy, Debug, PartialEq, Eq, Error)]
pub enum JoinRefusal {
    /// The node is halted.
    #[error("the node is halted")]
    Halted,
    /// The meter has a ring.
    #[error("the meter is joined")]
    AlreadyJoined,
}

/// Why a meter does not leave.
#[derive(Clone, Copy, Debug, PartialEq, Eq, Error)]
pub enum LeaveRefusal {
    /// The node is halted.
    #[error("the node is halted")]
    Halted,
    /// The meter has no ring.
    #[error("the meter is not joined")]
    NotJoined,
    /// A store write failed. The node is halted.
    #[error("a store write failed")]
    Store,
}

/// Why the coordinator refuses an order of its operator. Each order names those that it can meet, and the order of their tests.
#[derive(Clone, Copy, Debug, PartialEq, Eq, Error)]
pub enum CoordinatorRefusal {
    /// The node is halted.
    #[error("the node is halted")]
    Halted,
    /// The meter is new, and the book has 999 entries.
    #[error("no meter more can be entered")]
    MetersFull,
    /// The meter is not allowed.
    #[error("the meter is not allowed")]
    NotAllowed,
    /// The key at the index is the one that seals.
    #[error("the key at the index is the active one")]
    IndexActive,
    /// No key is held at the index.
    #[error("no key is held at the index")]
    NotHeld,
    /// The ring's key at the index was not issued to the meter.
    #[error("the key at the index was not issued to the meter")]
    NotIssued,
    /// No session of the meter is open, and 8 are.
    #[error("no session more can be opened")]
    SessionsFull,
    /// No random value is held.
    #[error("no random value is held")]
    NoRandom,
    /// No route is there, and there is no room for a body more that waits.
    #[error("no body more can wait")]
    WaitingFull,
    /// An own number is needed, and they are spent.
    #[error("the own numbers are spent")]
    SeqSpent,
    /// Fewer frame counters are left than frames have to be sealed.
    #[error("the frame counters are spent")]
    CounterSpent,
    /// A store write failed. The node is halted, and nothing was sent.
    #[error("a store write failed")]
    Store,
}
