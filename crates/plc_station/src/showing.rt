//! What is shown of a station.
ghost use Rattle.std.specs.Prelude.{◌≡◌, ◌+◌, ◌<◌, ◌≤◌, map, None, Some, IfSome, IsSome, length};
ghost use Rattle.std.specs.Option.{option_map};
ghost use Rattle.plc_base.specs.Orders.{ordered_by};
ghost use Rattle.store_tables.specs.SlotTables.{entry_of};
ghost use Rattle.plc_station.specs.RisingLists.{is_above, is_rising_after};
ghost use Rattle.plc_station.specs.Sizes.{HasSizes};
ghost use Rattle.frame_counters.specs.PeerMarks.{peers};
ghost use Rattle.routing_set.specs.RoutingSet.{ranks, next_of};
ghost use Rattle.node_rules.specs.Neighbours.{valid_route};
ghost use Rattle.node_rules.specs.ShownNodes.{shown_station, nothing_shown, shown_route, shown_peer};
ghost use Rattle.plc_base.specs.declared.limits.TheConstants.{GREATEST_COUNTER};

use crate::station::Station;
use frame_counters::{PeerMark, PeerMarks};
use group_keys::KeyRing;
use node_rules::{Shown, ShownPeer, ShownPeers, ShownRoute, ShownRoutes};
use plc_base::{Eui, Keeper, KeyIndex, Short};
use routing_set::{Route, RoutingEntry, RoutingSet};
use store_tables::SlotEntry;

fn is_above(last: Option<u64>, key: u64) -> bool
    ensures { result ≡ is_above last key }
{
    match last {
        None => true,
        Some(last) => last < key,
    }
}

// Whether each entry has a greater key than the one before it. Then its order is that of the slots, as in most tables.
fn is_rising<E: SlotEntry>(entries: &[E]) -> bool
    ensures { result ≡ is_rising_after E.layout.key None entries.now }
{
    let mut last = None;
    for entry in entries {
        let key = entry.key();
        if !is_above(last, key) {
            return false;
        }
        last = Some(key);
    }
    true
}

fn hop_of(route: Option<Route>) -> Option<u16>
    ensures { result ≡ option_map (λ t. t.next) route }
{
    match route {
        None => None,
        Some(route) => Some(route.next.number()),
    }
}

fn entry_shown(entry: &RoutingEntry) -> ShownRoute
    ensures { result ≡ shown_route entry.now }
{
    ShownRoute {
        dest: entry.address,
        number: entry.rank.number,
        cost: entry.rank.cost,
        next: hop_of(entry.route),
    }
}

// Shows the kept ranks, in the order of their slots.
fn show_entries(entries: &[RoutingEntry], out: &mut ShownRoutes)
    requires { length entries.now ≤ 64 }
    ensures { out.new ≡ map shown_route entries.now }
{
    out.clear();
    for entry in entries {
        out.push(entry_shown(entry));
    }
}

// The next hop of the valid route to an address, as a number.
fn next_number(routing: &RoutingSet, dest: Short) -> Option<u16>
    ensures { result ≡ next_of routing.now dest }
{
    let next = routing.route(dest)?;
    Some(next.number())
}

// The kept rank of an address, and the next hop where the route to it is valid.
fn route_shown(routing: &RoutingSet, dest: Short) -> ShownRoute
    requires kept { IsSome (entry_of ranks routing.now.entries dest) }
    ensures { Some result ≡ option_map shown_route (entry_of ranks routing.now.entries dest) }
{
    let Some(rank) = routing.rank(dest) else {
        unreachable!()
    };
    ShownRoute {
        dest,
        number: rank.number,
        cost: rank.cost,
        next: next_number(routing, dest),
    }
}

// Shows the kept ranks, in the order of their addresses: each is looked up.
fn show_sorted_routes(routing: &RoutingSet, out: &mut ShownRoutes)
    ensures { out.new ≡ map shown_route (ordered_by (λ e. e.address) routing.now.entries) }
{
    out.clear();
    // No two of them have one address.
    let _entries = routing.entries();
    let kept = routing.kept();
    for dest in kept.as_slice() {
        out.push(route_shown(routing, *dest));
    }
}

// Shows the kept ranks, in the order of their addresses.
#[tactic(auto, using(crate::proofs::RisingLists::rising))]
fn show_routes(routing: &RoutingSet, out: &mut ShownRoutes)
    ensures { out.new ≡ map shown_route (ordered_by (λ e. e.address) routing.now.entries) }
{
    let entries = routing.entries();
    if is_rising(entries) {
        return show_entries(entries, out);
    }
    show_sorted_routes(routing, out);
}

// Shows the marks, in the order of their slots.
fn show_marks(marks: &[PeerMark], out: &mut ShownPeers)
    requires { length marks.now ≤ 64 }
    ensures { out.new ≡ map shown_peer marks.now }
{
    out.clear();
    for peer in marks {
        out.push(ShownPeer {
            from: peer.address,
            mark: peer.mark,
        });
    }
}

// The mark of a sender that is held.
fn peer_shown(marks: &PeerMarks, from: Short) -> ShownPeer
    requires held { IsSome (entry_of peers marks.now from) }
    ensures { Some result ≡ option_map shown_peer (entry_of peers marks.now from) }
{
    let Some(mark) = marks.mark(from) else {
        unreachable!()
    };
    ShownPeer { from, mark }
}

// Shows the marks, in the order of their senders: each is looked up.
fn show_sorted_peers(marks: &PeerMarks, out: &mut ShownPeers)
    ensures { out.new ≡ map shown_peer (ordered_by (λ p. p.address) marks.now) }
{
    out.clear();
    // No two of them have one address.
    let _entries = marks.entries();
    let senders = marks.senders();
    for from in senders.as_slice() {
        out.push(peer_shown(marks, *from));
    }
}

// Shows the marks, in the order of their senders.
#[tactic(auto, using(crate::proofs::RisingLists::rising))]
fn show_peers(marks: &PeerMarks, out: &mut ShownPeers)
    ensures { out.new ≡ map shown_peer (ordered_by (λ p. p.address) marks.now) }
{
    let entries = marks.entries();
    if is_rising(entries) {
        return show_marks(entries, out);
    }
    show_sorted_peers(marks, out);
}

impl<K: Keeper + Drop> Station<K> {
    // Shows that it is halted, and nothing else.
    fn show_nothing(&self, out: &mut Shown)
        ensures { out.new ≡ nothing_shown }
    {
        out.halted = true;
        out.address = None;
        out.active = None;
        out.next_counter = 0;
        out.last_number = 0;
        out.key0 = None;
        out.key1 = None;
        out.routes.clear();
        out.floors = [0; 16];
        out.peers.clear();
    }

    /// Fills in what is shown of it. Of a halted one that is nothing but that it is halted.
    pub fn shown(&self, out: &mut Shown)
        ensures halted { self.now.memory ≡ None → out.new ≡ nothing_shown }
        ensures shown { IfSome self.now.memory (λ l. out.new ≡ shown_station l) }
    {
        if self.halted {
            self.show_nothing(out);
            return;
        }
        out.halted = false;
        out.address = self.parts.ring.joined();
        out.active = self.parts.ring.active();
        out.next_counter = u32::MAX - self.parts.counter.left();
        out.last_number = self.parts.own_number.last();
        out.key0 = self.parts.ring.key(KeyIndex::first());
        out.key1 = self.parts.ring.key(KeyIndex::second());
        show_routes(&self.parts.routing, &mut out.routes);
        out.floors = self.parts.routing.floors();
        show_peers(&self.parts.marks, &mut out.peers);
    }

    /// Its own identity.
    pub fn eui(&self) -> Eui
        ensures { result ≡ self.now.eui }
    {
        self.eui
    }

    /// Its ring. That of a halted one says nothing.
    pub fn ring(&self) -> &KeyRing
        ensures { IfSome self.now.memory (λ l. result.now ≡ l.ring) }
    {
        &self.parts.ring
    }

    /// Its ranks and routes. Those of a halted one say nothing.
    pub fn routing(&self) -> &RoutingSet
        ensures { IfSome self.now.memory (λ l. result.now ≡ l.routing) }
    {
        &self.parts.routing
    }

    /// How many frame counters are left. Of a halted one that says nothing.
    pub fn counters_left(&self) -> u32
        ensures { IfSome self.now.memory (λ l. result + l.counter.next ≡ GREATEST_COUNTER) }
    {
        self.parts.counter.left()
    }

    /// How many datagrams and commands wait for a route: at most 8.
    pub fn waiting(&self) -> usize
        ensures value { IfSome self.now.memory (λ l. result ≡ length l.waiting) }
    {
        self.bodies.count()
    }

    /// A law, for whoever stands on it: what a station holds keeps its sizes, whatever its keeper is: at most 64 senders and 64 ranks, and
    /// at most 8 reassemblies in 80 blocks and 8 bodies that wait in 80 other ones. Of a halted one that says nothing. The call does
    /// nothing.
    pub fn keeps_sizes(&self)
        ensures sized { IfSome self.now.memory HasSizes }
    {
        let _senders = self.parts.marks.entries();
        let _ranks = self.parts.routing.entries();
        let _waiting = self.bodies.count();
    }

    /// The next hop of the valid route to an address and the cost of the address's rank, None where it has no valid route. One that
    /// is halted or not joined has none.
    pub fn valid(&self, dest: Short) -> Option<(Short, u16)>
        ensures halted { self.now.memory ≡ None → result ≡ None }
        ensures route { IfSome self.now.memory (λ l. result ≡ valid_route l dest) }
    {
        if self.halted {
            return None;
        }
        let Some(_) = self.parts.ring.grant() else {
            return None;
        };
        let Some(hop) = self.parts.routing.route(dest) else {
            return None;
        };
        Some((hop, self.parts.routing.held(dest).cost))
    }
}
