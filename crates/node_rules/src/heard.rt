//! What a node makes of a frame that it hears.

use eap_psk::Agreed;
use plc_base::{Eui, Grant, Key, LinkCost, OctetRef, Short};

/// How a frame came to a node.
#[derive(Clone, Copy, Debug)]
pub struct Came {
    /// The cost of the link by which it came.
    pub cost: LinkCost,
    /// The caller's number of the frame. It goes on with what the frame carries, and is never sent.
    pub note: u32,
    /// When it came, in seconds.
    pub time: u64,
}

/// The way on which an accepted frame came.
#[derive(Clone, Copy, Debug, PartialEq, Eq)]
pub enum Path {
    /// A sealed frame.
    Sealed {
        /// The neighbour that sent it.
        from: Short,
        /// Whether it went to all.
        to_all: bool,
        /// The group key that opened it.
        key: Key,
    },
    /// A plain frame up to this node.
    Up {
        /// The node that sent it.
        from: Eui,
    },
    /// A plain frame down to this node.
    Down {
        /// The neighbour that sent it.
        from: Short,
    },
}

/// Where a joining message comes from, and where its answer goes.
#[derive(Clone, Copy, Debug, PartialEq, Eq)]
pub enum Way {
    /// A plain frame up, from the node of this EUI-64.
    Air(Eui),
    /// A plain frame down, from this neighbour.
    Near(Short),
    /// A command that was carried over the mesh, from the node of this address.
    Mesh(Short),
}

/// A route reply that a station sent.
#[derive(Clone, Copy, Debug, PartialEq, Eq)]
pub struct Reply {
    /// The neighbour that it went to.
    pub to: Short,
    /// Its number.
    pub number: u16,
    /// The node that the reply leads to.
    pub origin: Short,
}

/// What a station made of a frame that it accepted. Octets stay where they are: in the frame's payload, or in the buffer that the
/// caller lent for datagrams that come in pieces.
#[derive(Debug, Drop)]
pub enum Heard<'a> {
    /// A datagram is handed up.
    Up {
        /// The node that sent it first.
        from: Short,
        /// The caller's number of the datagram: that which came with its frame, or with the first of its pieces.
        note: u32,
        /// The datagram.
        octets: OctetRef<'a>,
    },
    /// A piece is held until the others come.
    Held,
    /// The unit or the message goes on.
    Relayed,
    /// A route request is answered.
    Answered,
    /// A route reply ends here, and the route is there.
    Learned,
    /// A route error was taken in.
    Broken,
    /// The unit can't go on, and a route error goes to its origin.
    Reported,
    /// A joining command for this node, whose body is not read yet.
    Joining {
        /// Where it comes from.
        way: Way,
        /// What stands after the code 02.
        body: OctetRef<'a>,
    },
    /// A command of code 03, 04 or 05, whose body is not read yet.
    Local {
        /// The neighbour that sent it.
        from: Short,
        /// Whether it went to all.
        to_all: bool,
        /// The code: 3 to 5.
        code: u8,
        /// What stands after the code.
        body: OctetRef<'a>,
    },
}

/// Whether a datagram went out or waits for a route.
#[derive(Clone, Copy, Debug, PartialEq, Eq)]
pub enum SentHow {
    /// It went out.
    Sent,
    /// It waits, and a route is sought.
    Waiting,
}

/// What a meter made of a frame that it accepted.
#[derive(Debug, Drop)]
pub enum MeterHeard<'a> {
    /// What its station made of it.
    Station(Heard<'a>),
    /// A joining message goes on.
    Carried,
    /// A challenge is answered.
    Replied,
    /// The third message of the joining is taken: the meter has its grant.
    Took(Agreed),
    /// The acceptance is taken note of.
    Noted,
    /// The coordinator does not let the meter in.
    Declined,
    /// The meter was kicked, and has left.
    Left,
    /// Another key seals from now on.
    Activated,
}

/// What the coordinator made of a frame that it accepted.
#[derive(Debug, Drop)]
pub enum CoordinatorHeard<'a> {
    /// What its station made of it.
    Station(Heard<'a>),
    /// A session is opened, and the meter is challenged.
    Challenged,
    /// The meter has shown its key, and its grant goes out.
    Keyed {
        /// The meter.
        eui: Eui,
        /// The grant.
        grant: Grant,
    },
    /// The joining has ended.
    Done {
        /// The meter.
        eui: Eui,
        /// The values that both ends hold.
        agreed: Agreed,
    },
    /// The meter is not let in.
    Declined,
}
