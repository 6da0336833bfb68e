//! What an event was.
ghost use Rattle.std.specs.Prelude.{◌≡◌};
ghost use Rattle.line_record.specs.Acts.{act_of, flight_come};

use line_events::Event;
use plc_base::Eui;

/// What an event was: its kind, with the nodes and the numbers of its line in their order. Of octets only their count is kept.
///
/// Nodes are numbered from 0, flights from 1.
#[derive(Clone, Copy)]
pub enum Act {
    /// The coordinator was made, with this EUI-64.
    Coordinator {
        eui: Eui,
    },
    /// The next node was made, a meter, with this EUI-64.
    Meter {
        eui: Eui,
    },
    /// A meter was joined in the workshop.
    Depot {
        node: u32,
    },
    /// Two nodes were given the route to each other.
    Near {
        a: u32,
        b: u32,
    },
    /// The frame counter of a node was set.
    Counter {
        node: u32,
    },
    /// The own number of a node was set.
    Number {
        node: u32,
    },
    /// A meter was allowed to join.
    Allow {
        node: u32,
    },
    /// A node was given a random value.
    RandomOctets {
        node: u32,
    },
    /// A meter began to join by an agent.
    Join {
        node: u32,
        agent: u32,
    },
    /// A meter left.
    Leave {
        node: u32,
    },
    /// A datagram of this many octets was to go from a node to a node.
    Send {
        from: u32,
        to: u32,
        octets: usize,
    },
    /// A flight came to a node over a link of this cost.
    Deliver {
        flight: u32,
        node: u32,
        cost: u8,
    },
    /// This many octets that no node sent came to a node over a link of this cost.
    Inject {
        node: u32,
        cost: u8,
        octets: usize,
    },
    /// A flight was lost.
    Lose {
        flight: u32,
    },
    /// A node's link to another one broke.
    Break {
        node: u32,
        next: u32,
    },
    /// This many seconds passed.
    Tick {
        seconds: u32,
    },
    /// A node restarted.
    Restart {
        node: u32,
    },
    /// Power is to fail at the nth write of a node from then on, and leaves the new record or the old one.
    Cut {
        node: u32,
        nth: u16,
        keeps_new: bool,
    },
    /// A group key was drawn for an index.
    Rekey {
        index: u8,
    },
    /// The coordinator challenged a meter.
    Challenge {
        node: u32,
    },
    /// A node is to seal with the group key at an index.
    Activate {
        node: u32,
        index: u8,
    },
    /// A meter was shut out.
    Kick {
        node: u32,
    },
    /// A node was shown.
    Show {
        node: u32,
    },
    /// The checks of neighbours were turned on.
    Checks,
    /// A node sent a datagram of this many octets to all.
    Bcast {
        node: u32,
        octets: usize,
    },
    /// A meter began to scan for agents.
    Scan {
        node: u32,
    },
    /// A meter began to join by the k-th agent that it heard.
    Choose {
        node: u32,
        k: u8,
    },
    /// A node asked for the way to another one.
    Path {
        from: u32,
        to: u32,
    },
}

/// The flight that comes to a node at an event, by its number from 1: the one that is delivered, or the one with the number `same`, which has the octets
/// that are injected. 0 where none comes.
pub fn flight_come(act: &Act, same: u32) -> u32
    ensures { result ≡ flight_come act.now same }
{
    match act {
        Act::Deliver { flight, .. } => *flight,
        Act::Inject { .. } => same,
        _ => 0,
    }
}

/// What an event was, without its octets.
pub fn act_of(event: &Event<'_>) -> Act
    ensures { result ≡ act_of event.now }
{
    match event {
        Event::Coordinator { eui, .. } => Act::Coordinator { eui: *eui },
        Event::Meter { eui, .. } => Act::Meter { eui: *eui },
        Event::Depot { node } => Act::Depot { node: *node },
        Event::Near { a, b, .. } => Act::Near { a: *a, b: *b },
        Event::Counter { node, .. } => Act::Counter { node: *node },
        Event::Number { node, .. } => Act::Number { node: *node },
        Event::Allow { node } => Act::Allow { node: *node },
        Event::RandomOctets { node, .. } => Act::RandomOctets { node: *node },
        Event::Join { node, agent } => Act::Join {
            node: *node,
            agent: *agent,
        },
        Event::Leave { node } => Act::Leave { node: *node },
        Event::Send { from, to, datagram } => Act::Send {
            from: *from,
            to: *to,
            octets: datagram.octets().len(),
        },
        Event::Deliver { flight, node, cost } => Act::Deliver {
            flight: *flight,
            node: *node,
            cost: cost.number(),
        },
        Event::Inject { node, cost, octets } => Act::Inject {
            node: *node,
            cost: cost.number(),
            octets: octets.octets().len(),
        },
        Event::Lose { flight } => Act::Lose { flight: *flight },
        Event::Break { node, next } => Act::Break {
            node: *node,
            next: *next,
        },
        Event::Tick { seconds } => Act::Tick { seconds: *seconds },
        Event::Restart { node } => Act::Restart { node: *node },
        Event::Cut {
            node,
            nth,
            keeps_new,
        } => Act::Cut {
            node: *node,
            nth: *nth,
            keeps_new: *keeps_new,
        },
        Event::Rekey { index, .. } => Act::Rekey {
            index: index.number(),
        },
        Event::Challenge { node } => Act::Challenge { node: *node },
        Event::Activate { node, index } => Act::Activate {
            node: *node,
            index: index.number(),
        },
        Event::Kick { node } => Act::Kick { node: *node },
        Event::Show { node } => Act::Show { node: *node },
        Event::Checks => Act::Checks,
        Event::Bcast { node, datagram } => Act::Bcast {
            node: *node,
            octets: datagram.octets().len(),
        },
        Event::Scan { node } => Act::Scan { node: *node },
        Event::Choose { node, k } => Act::Choose { node: *node, k: *k },
        Event::Path { from, to } => Act::Path {
            from: *from,
            to: *to,
        },
    }
}
