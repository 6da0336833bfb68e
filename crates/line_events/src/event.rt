//! The events of a line, and their answers.
ghost use Rattle.std.specs.Prelude.{◌≡◌};
ghost use Rattle.line_events.specs.Answers.{is_ok};

use plc_base::{Eui, Key, KeyIndex, LinkCost, OctetRef, RandomOctets};
use thiserror::Error;

/// The most events of a run.
pub const MAX_EVENTS: u32 = 50_000;

/// What a line of a script asks for, with the fields of the line in their order.
///
/// Nodes are numbered from 0, flights from 1.
#[derive(Drop)]
pub enum Event<'a> {
    /// Makes node 0, the coordinator, with its group key.
    Coordinator {
        eui: Eui,
        key: Key,
    },
    /// Makes the next node, a meter, with its pair key.
    Meter {
        eui: Eui,
        psk: Key,
    },
    /// Joins a meter in the workshop.
    Depot {
        node: u32,
    },
    /// Gives two joined nodes the route to each other, over one hop of this cost.
    Near {
        a: u32,
        b: u32,
        cost: LinkCost,
    },
    /// Sets the next frame counter of a node.
    Counter {
        node: u32,
        value: u32,
    },
    /// Sets the last own number of a node.
    Number {
        node: u32,
        value: u16,
    },
    /// Allows a meter to join.
    Allow {
        node: u32,
    },
    /// Gives a node a random value.
    RandomOctets {
        node: u32,
        value: RandomOctets,
    },
    /// A meter begins to join by an agent.
    Join {
        node: u32,
        agent: u32,
    },
    /// A meter leaves.
    Leave {
        node: u32,
    },
    /// Sends a datagram from a node to a node.
    Send {
        from: u32,
        to: u32,
        datagram: OctetRef<'a>,
    },
    /// Brings a flight to a node over a link of this cost.
    Deliver {
        flight: u32,
        node: u32,
        cost: LinkCost,
    },
    /// Brings octets to a node that no node sent, over a link of this cost.
    Inject {
        node: u32,
        cost: LinkCost,
        octets: OctetRef<'a>,
    },
    /// Takes a flight away.
    Lose {
        flight: u32,
    },
    /// Tells a node that its link to another one broke.
    Break {
        node: u32,
        next: u32,
    },
    /// Moves the clock on by this many seconds.
    Tick {
        seconds: u32,
    },
    /// Restarts a node.
    Restart {
        node: u32,
    },
    /// Makes a store write of a node fail: the nth from now on. Its slot then has the new record or the old one.
    Cut {
        node: u32,
        nth: u16,
        keeps_new: bool,
    },
    /// Draws a group key for an index.
    Rekey {
        index: KeyIndex,
        key: Key,
    },
    /// The coordinator challenges a meter.
    Challenge {
        node: u32,
    },
    /// Makes a group key the one that seals, at the coordinator or, by an order, at a meter.
    Activate {
        node: u32,
        index: KeyIndex,
    },
    /// Shuts a meter out.
    Kick {
        node: u32,
    },
    /// Shows a node.
    Show {
        node: u32,
    },
    /// Turns the checks of neighbours on, for every node.
    Checks,
    /// A node sends a datagram to all.
    Bcast {
        node: u32,
        datagram: OctetRef<'a>,
    },
    /// A meter begins to scan for agents.
    Scan {
        node: u32,
    },
    /// A meter begins to join by the k-th agent that it heard, counted from 1.
    Choose {
        node: u32,
        k: u8,
    },
    /// A node asks which way another one is reached.
    Path {
        from: u32,
        to: u32,
    },
}

/// How an event that was taken ended: the words of the report.
#[derive(Clone, Copy, Debug, PartialEq, Eq)]
pub enum Answer {
    /// A node was made.
    Made,
    /// A meter was joined in the workshop.
    Joined,
    /// A setting was made.
    Set,
    /// A meter is allowed.
    Allowed,
    /// A random value was given.
    Given,
    /// A meter has asked to join.
    Asked,
    /// A meter has left.
    Left,
    /// A datagram went out.
    Sent,
    /// A datagram waits for a route.
    Waiting,
    /// A flight is lost.
    Lost,
    /// The routes over a link have ended, or a route error was taken in.
    Broken,
    /// The clock has moved.
    Ticked,
    /// A node has restarted.
    Restarted,
    /// A group key was drawn.
    Drawn,
    /// A meter is challenged.
    Challenged,
    /// Another key seals from now on.
    Activated,
    /// A meter is ordered to seal with another key.
    Ordered,
    /// A meter is shut out.
    Kicked,
    /// A node was shown.
    Shown,
    /// A datagram was handed up.
    Up,
    /// A piece is held.
    Held,
    /// A unit or a message went on.
    Relayed,
    /// A route request was answered.
    Answered,
    /// A route was learned.
    Learned,
    /// A route error went to the origin, since its unit can't go on.
    Reported,
    /// A joining message went on.
    Carried,
    /// A challenge was answered.
    Replied,
    /// A meter has taken its grant.
    Took,
    /// An acceptance was taken note of.
    Noted,
    /// A meter was not let in.
    Declined,
    /// A grant went out.
    Keyed,
    /// A joining has ended.
    Done,
    /// The target has no address.
    NoAddress,
    /// The node is halted.
    Halted,
    /// The node is not joined.
    NotJoined,
    /// The datagram has not 1 to 1,280 octets.
    BadSize,
    /// The target is the node itself.
    ToSelf,
    /// No body more can wait.
    WaitingFull,
    /// No meter more can be entered into the book.
    MetersFull,
    /// No random value more can be held.
    RandomsFull,
    /// The meter is joined.
    AlreadyJoined,
    /// The key at the index is the active one.
    IndexActive,
    /// The key at the index was not issued to the meter.
    NotIssued,
    /// A record of the store has no reading. No run of a line comes to it.
    BadStore,
    /// The octets are no MAC frame.
    Malformed,
    /// The frame is for another node.
    NotForMe,
    /// No key is held at the index of the frame.
    NoKey,
    /// The tag of the frame is wrong.
    BadTag,
    /// The counter is not above the mark of its sender.
    Replayed,
    /// No sender more can be held.
    PeersFull,
    /// A store write failed.
    Store,
    /// The payload is no unit that may come so.
    BadUnit,
    /// No route leads on.
    NoRoute,
    /// The unit may take no hop more.
    HopsSpent,
    /// The rank does not beat the one that is held.
    NotBetter,
    /// The cost passes 65,535.
    CostSpent,
    /// No rank more can be kept.
    RoutesFull,
    /// The meter is not allowed.
    NotAllowed,
    /// No session awaits the message.
    NoSession,
    /// No session more can be opened.
    SessionsFull,
    /// No random value is held.
    NoRandom,
    /// The packet has not the form that is awaited.
    Form,
    /// The packet is of another session.
    OtherSession,
    /// The MAC of the packet is wrong.
    BadMac,
    /// The tag of the protected channel is wrong.
    BadChannel,
    /// The protected channel does not say success.
    NoSuccess,
    /// No key is held at the index.
    NotHeld,
    /// There is no room for it.
    BufferFull,
    /// The own numbers are spent.
    SeqSpent,
    /// The frame counters are spent.
    CounterSpent,
    /// The check of a neighbour has ended: it has acknowledged a reply.
    Acked,
    /// A broadcast was handed up.
    Bup,
    /// A meter scans for agents.
    Scanning,
    /// A beacon request was answered.
    Beacon,
    /// A beacon was taken into the scan.
    Beaconed,
    /// The way to another node was asked for.
    Traced,
    /// A path request was answered, at the node that had sent it.
    Path,
    /// The request comes from a neighbour that did not acknowledge a reply.
    Blacklisted,
    /// No open check awaits the acknowledgement.
    NotAwaited,
    /// The broadcast is an own one, or came before.
    Old,
    /// No origin more can be held.
    OriginsFull,
    /// The numbers of the own broadcasts are spent.
    NumberSpent,
    /// The node does not scan.
    NotScanning,
    /// Fewer agents were heard.
    NoBeacon,
    /// The ask has been here before.
    Revisited,
    /// The walk of the ask is full.
    PathLong,
}

impl Answer {
    /// Whether the event was done: its line of the report then says `ok`, and `no` where the event was refused.
    pub fn is_ok(self) -> bool
        ensures { result ≡ is_ok self }
    {
        match self {
            Answer::Made => true,
            Answer::Joined => true,
            Answer::Set => true,
            Answer::Allowed => true,
            Answer::Given => true,
            Answer::Asked => true,
            Answer::Left => true,
            Answer::Sent => true,
            Answer::Waiting => true,
            Answer::Lost => true,
            Answer::Broken => true,
            Answer::Ticked => true,
            Answer::Restarted => true,
            Answer::Drawn => true,
            Answer::Challenged => true,
            Answer::Activated => true,
            Answer::Ordered => true,
            Answer::Kicked => true,
            Answer::Shown => true,
            Answer::Up => true,
            Answer::Held => true,
            Answer::Relayed => true,
            Answer::Answered => true,
            Answer::Learned => true,
            Answer::Reported => true,
            Answer::Carried => true,
            Answer::Replied => true,
            Answer::Took => true,
            Answer::Noted => true,
            Answer::Declined => true,
            Answer::Keyed => true,
            Answer::Done => true,
            Answer::Acked => true,
            Answer::Bup => true,
            Answer::Scanning => true,
            Answer::Beacon => true,
            Answer::Beaconed => true,
            Answer::Traced => true,
            Answer::Path => true,
            _ => false,
        }
    }
}

/// Why an event was not taken. The world is then as it was.
#[derive(Clone, Copy, Debug, PartialEq, Eq, Error)]
pub enum StepFault {
    /// There was no memory for it.
    #[error("there is not enough memory for the event")]
    Memory,
    /// The event does not fit the setup of the line.
    #[error("the event does not fit the setup of the line")]
    Setup,
    /// A node is not there.
    #[error("there is no such node")]
    Node,
    /// The flight is not there.
    #[error("there is no such flight")]
    Flight,
}
