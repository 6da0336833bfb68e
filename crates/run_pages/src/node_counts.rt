//! What is counted of each node of a run, each in one pass.
ghost use Rattle.std.specs.Prelude.{◌≡◌};
ghost use Rattle.run_pages.specs.NodeCounts as node_counts;

use crate::counting::count_if;
use line_record::{RecordedEvent, actor_of, is_refused};

/// What is counted of a node.
#[derive(Clone, Copy)]
pub struct NodeCount {
    /// Its short address, if it has got one.
    pub address: Option<usize>,
    /// How many datagrams it was to send.
    pub datagrams: usize,
    /// How many of them came.
    pub came: usize,
    /// How many of its events were refused.
    pub refusals: usize,
    /// How many of its events are forged.
    pub forged: usize,
}

/// What is counted of a node before the run.
pub fn no_count() -> NodeCount
    ensures { result ≡ node_counts.no_count }
{
    NodeCount {
        address: None,
        datagrams: 0,
        came: 0,
        refusals: 0,
        forged: 0,
    }
}

fn with_address(address: usize, old: &NodeCount) -> NodeCount
    ensures { result ≡ node_counts.with_address address old.now }
{
    NodeCount {
        address: Some(address),
        datagrams: old.datagrams,
        came: old.came,
        refusals: old.refusals,
        forged: old.forged,
    }
}

fn with_event(recorded: &RecordedEvent, old: &NodeCount) -> NodeCount
    ensures { result ≡ node_counts.with_event recorded.now old.now }
{
    NodeCount {
        address: old.address,
        datagrams: old.datagrams,
        came: old.came,
        refusals: count_if(is_refused(recorded.answer), old.refusals),
        forged: count_if(recorded.forged, old.forged),
    }
}

fn with_datagram(came: bool, old: &NodeCount) -> NodeCount
    ensures { result ≡ node_counts.with_datagram came old.now }
{
    NodeCount {
        address: old.address,
        datagrams: count_if(true, old.datagrams),
        came: count_if(came, old.came),
        refusals: old.refusals,
        forged: old.forged,
    }
}

fn add_address(counts: &mut Vec<NodeCount>, address: usize, node: u32)
    ensures { counts.new.items ≡ node_counts.address_added address node counts.old.items }
{
    let place = node as usize;
    let Some(old) = counts.get(place) else {
        return;
    };
    let new = with_address(address, old);
    counts[place] = new;
}

fn add_event(counts: &mut Vec<NodeCount>, recorded: &RecordedEvent)
    ensures { counts.new.items ≡ node_counts.event_added recorded.now counts.old.items }
{
    let place = actor_of(&recorded.act) as usize;
    let Some(old) = counts.get(place) else {
        return;
    };
    let new = with_event(recorded, old);
    counts[place] = new;
}

/// One datagram more that a node was to send.
pub fn add_datagram(counts: &mut Vec<NodeCount>, node: u32, came: bool)
    ensures { counts.new.items ≡ node_counts.datagram_added node came counts.old.items }
{
    let place = node as usize;
    let Some(old) = counts.get(place) else {
        return;
    };
    let new = with_datagram(came, old);
    counts[place] = new;
}

/// The short addresses, by the node of each.
pub fn add_addresses(counts: &mut Vec<NodeCount>, homes: &[u32])
    ensures { counts.new.items ≡ node_counts.addresses_added 0 homes.now counts.old.items }
{
    for (i, node) in homes.iter().enumerate() {
        add_address(counts, i, *node);
    }
}

/// What events say of their nodes.
pub fn add_events(counts: &mut Vec<NodeCount>, events: &[RecordedEvent])
    ensures { counts.new.items ≡ node_counts.events_added events.now counts.old.items }
{
    for recorded in events {
        add_event(counts, recorded);
    }
}
