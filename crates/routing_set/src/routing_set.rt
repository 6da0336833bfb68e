//! The ranks of addresses and the valid routes to them.
ghost use Rattle.std.specs.Prelude.{◌≡◌, ◌==◌, ◌<◌, ◌≤◌, ℕ, Ok, Some, None, Option, true, false, is_ok, map, IfOk, IfErr, OnOk, OnErr, IsSorted, IsPermutation};
ghost use Rattle.std.specs.Bool.{OnTrue};
ghost use Rattle.std.specs.Ordering.{nat_cmp};
ghost use Rattle.std.specs.List.{list_all};
ghost use Rattle.plc_base.specs.Keeper.{Records};
ghost use Rattle.store_tables.specs.Writes.{Wrote};
ghost use Rattle.store_tables.specs.SlotTables.{IsTable, IsReading, read_into};
ghost use Rattle.store_tables.specs.OpenFaults.{IsOpened, IsFault};
ghost use Rattle.routing_set.specs.Ranks.{rank_by};
ghost use Rattle.routing_set.specs.RouteEnds.{takes};
ghost use Rattle.routing_set.specs.FirstEnd.{first_end, IsStill};
ghost use Rattle.routing_set.specs.RoutingSet.{Routing, ranks, AgreesWith, IsSomeOffered, IsBad, SameElsewhere, opened, at_rest, place_of, rank_of, route_of};
ghost use Rattle.routing_set.specs.RoutingSet.{next_of, held, floor_of, is_better, is_full, is_fresh, first_to_go, offered, offer_writes};
ghost use Rattle.routing_set.specs.RoutingSet.{entered, half_entered, entry_writes, Keeps, writes_of, half_of, after_of, offer_result, offer_puts, offer_after};
ghost use Rattle.routing_set.specs.RoutingSet.{is_stored, ended, without_next, without_next_to, expired, empty_routing};

use crate::ending::Ending;
use crate::entry::first_of;
use crate::floors::{FLOOR_SLOT, class_of, raise_floor, stored_floors};
use crate::{OfferFault, Offered, Rank, Route, RoutingEntry};
use arrayvec::ArrayVec;
use plc_base::{BadStore, Failed, Keeper, Short};
use std::alloc::Global;
use std::marker::Model;
use store_tables::{OpenFault, SlotTable};

/// What a node knows of ways to other addresses: at most 64 ranks, which are stored, the valid routes, and 16 floors (the
/// Routing Set of LOADng).
///
/// The rank of an address only rises. A full table may forget one under a floor: an address with no kept rank has the rank
/// (floor of its class, 0), where its class is the address modulo 16.
///
/// `open` takes the memory for 64 ranks, some 2,200 octets, and no other call takes any.
///
/// A contract sees the entries in the order of their slots, and the floors.
#[derive(Drop, Debug)]
pub struct RoutingSet {
    table: SlotTable<RoutingEntry, 64>,
    floors: [u16; 16],
    // No valid route ends before this time, in seconds.
    next_end: u64,
}

impl Model for RoutingSet {
    ghost use Rattle.routing_set.specs.RoutingSet.{Routing, routing_code};

    ghost Value = { Routing };

    ghost coded = { routing_code };

    ghost view = { λ r. record { entries = r.table; floors = r.floors } };

    ghost use Rattle.routing_set.specs.FirstEnd.{IsStill};

    ghost invariant = { λ r. IsStill r.next_end r.table };
}

impl RoutingSet {
    /// What the records at slot 5 and from slot 0200 (hexadecimal) on give, up to the first empty slot: the floors, 0 where
    /// slot 5 is empty, and the ranks, each with no valid route.
    ///
    /// Memory where there is none for 64 ranks. BadStore exactly where the record at slot 5 has not 32 octets, or one of the others has
    /// not 6 octets, an address above FFFD, the number 0, or is a second one of an address, or a record stands behind the first empty slot.
    /// After either no memory is held.
    pub fn open<K: Keeper>(alloc: Global, keeper: &K) -> Result<RoutingSet, OpenFault>
        ensures routing { IsOpened result (opened (K.store keeper.now).records) }
        ensures reading { IfOk result (λ routing. IsReading ranks routing.entries (K.store keeper.now).records) }
        ensures bad { IfErr result (IsFault (IsBad (K.store keeper.now).records)) }
        ensures unrouted { IfOk result (λ routing. (dest : ℕ) → route_of routing dest ≡ None) }
        ensures kept { IfOk result (λ routing. AgreesWith routing (K.store keeper.now).records) }
        // What was kept is opened again, with no valid route.
        ensures reopened { (routing : Routing) → IsTable ranks routing.entries
            → AgreesWith routing (K.store keeper.now).records
            → IsOpened result (Ok (at_rest routing)) }
    {
        let Some(floors) = stored_floors(keeper) else {
            return Err(OpenFault::BadStore(BadStore { slot: FLOOR_SLOT }));
        };
        let table = SlotTable::open(alloc, keeper)?;
        Ok(RoutingSet {
            table,
            floors,
            next_end: u64::MAX,
        })
    }

    /// The same, into a set that there is already: it takes no memory. After an error it holds no rank, and each floor is 0.
    pub fn reload<K: Keeper>(&mut self, keeper: &K) -> Result<(), BadStore>
        ensures routing { read_into result self.new ≡ opened (K.store keeper.now).records }
        ensures reading { OnOk result (IsReading ranks self.new.entries (K.store keeper.now).records) }
        ensures bad { IfErr result (λ bad. IsBad (K.store keeper.now).records bad.slot) }
        ensures none { OnErr result (self.new ≡ empty_routing) }
        ensures unrouted { OnOk result ((dest : ℕ) → route_of self.new dest ≡ None) }
        ensures kept { OnOk result (AgreesWith self.new (K.store keeper.now).records) }
        ensures reopened { (routing : Routing) → IsTable ranks routing.entries
            → AgreesWith routing (K.store keeper.now).records
            → read_into result self.new ≡ Ok (at_rest routing) }
    {
        self.clear();
        let Some(floors) = stored_floors(keeper) else {
            return Err(BadStore { slot: FLOOR_SLOT });
        };
        self.table.reload(keeper)?;
        self.floors = floors;
        Ok(())
    }

    // Forgets all ranks, routes and floors.
    fn clear(&mut self)
        ensures { self.new ≡ empty_routing }
    {
        self.table.clear();
        self.floors = [0; 16];
        self.next_end = u64::MAX;
    }

    /// The addresses with a kept rank, in ascending order: no two of them are one.
    pub fn kept(&self) -> ArrayVec<Short, 64>
        ensures sorted { IsSorted nat_cmp result.items }
        ensures same { IsPermutation (map (λ entry. entry.address) self.now.entries) result.items }
        ensures table { IsTable ranks self.now.entries }
    {
        let mut kept = ArrayVec::new();
        for entry in self.table.as_slice() {
            kept.push(entry.address);
        }
        kept.sort_unstable();
        kept
    }

    /// Each address with a kept rank, in the order of the slots.
    pub fn entries(&self) -> &[RoutingEntry]
        ensures value { result.now ≡ self.now.entries }
        ensures table { IsTable ranks self.now.entries }
    {
        self.table.as_slice()
    }

    /// The floors of the 16 classes, class 0 first.
    pub fn floors(&self) -> [u16; 16]
        ensures { result ≡ self.now.floors }
    {
        self.floors
    }

    /// The floor of a class, which is below 16.
    pub fn floor(&self, class: u8) -> u16
        requires { class < 16 }
        ensures { result ≡ floor_of self.now class }
    {
        self.floors[usize::from(class)]
    }

    /// The kept rank of an address, None exactly where none is kept.
    #[tactic(auto, unfolding(crate::specs::RoutingSet::rank_of))]
    pub fn rank(&self, dest: Short) -> Option<Rank>
        ensures { result ≡ rank_of self.now dest }
    {
        let place = self.table.place_of(dest.key())?;
        Some(self.table.get(place).rank)
    }

    /// The next hop of the valid route to an address, None exactly where there is no valid route.
    #[tactic(auto, unfolding(crate::specs::RoutingSet::route_of))]
    pub fn route(&self, dest: Short) -> Option<Short>
        ensures { result ≡ next_of self.now dest }
    {
        let entry = self.table.find(dest.key())?;
        let route = entry.route?;
        Some(route.next)
    }

    /// The rank of an address: the kept one, or its class's floor with cost 0 where none is kept.
    #[tactic(auto, unfolding(crate::specs::RoutingSet::held))]
    pub fn held(&self, dest: Short) -> Rank
        ensures { result ≡ held self.now dest }
    {
        match self.rank(dest) {
            Some(rank) => rank,
            None => Rank {
                number: self.floors[class_of(dest)],
                cost: 0,
            },
        }
    }

    /// Whether a number and a cost beat the rank of an address. The cost may be one that no rank has.
    pub fn is_better(&self, dest: Short, number: u16, cost: u32) -> bool
        ensures { result ≡ is_better self.now dest (rank_by number cost) }
    {
        let held = self.held(dest);
        held.number < number || (number == held.number && cost < u32::from(held.cost))
    }

    /// Whether there is no place for the rank of an address: none is kept for it, 64 are kept, and each has a valid route that
    /// was offered after `now` - `ROUTE_FRESH_TIME`.
    #[tactic(auto, unfolding(crate::specs::RoutingSet::is_full))]
    pub fn full(&self, dest: Short, now: u64) -> bool
        ensures { result ≡ is_full self.now dest now }
    {
        if self.table.place_of(dest.key()).is_some() {
            return false;
        }
        self.table.is_full() && self.all_fresh(now)
    }

    // Whether each entry has a valid route that was offered after `now` - `ROUTE_FRESH_TIME`.
    fn all_fresh(&self, now: u64) -> bool
        ensures { result ≡ list_all (is_fresh now) self.now.entries }
    {
        self.table
            .as_slice()
            .iter()
            .all(|entry| entry.is_fresh(now))
    }

    // The entry that is forgotten first.
    #[tactic(auto, unfolding(crate::specs::RoutingSet::first_to_go))]
    fn first_to_go(&self, now: u64) -> Option<RoutingEntry>
        ensures entry { result ≡ first_to_go now self.now.entries }
        ensures table { IsTable ranks self.now.entries }
    {
        let mut best = None;
        for entry in self.table.as_slice() {
            best = first_of(now, best, *entry);
        }
        best
    }

    // Stores an entry of a new address in the place of the one that is forgotten first, under whose number the floor of its
    // class is raised before.
    fn replace<K: Keeper>(
        &mut self,
        keeper: &mut K,
        entry: RoutingEntry,
        now: u64,
    ) -> Result<(), Failed>
        requires new { place_of self.old.entries entry.address ≡ None }
        requires old { list_all (is_fresh now) self.old.entries ≡ false }
        requires valid { 1 ≤ entry.rank.number }
        requires kept { AgreesWith self.old (K.store keeper.old).records }
        ensures routing { OnOk result (self.new ≡ after_of self.old (first_to_go now self.old.entries) entry) }
        ensures same { OnErr result (self.new ≡ self.old) }
        ensures store { Wrote (K.store keeper.old) (writes_of self.old (first_to_go now self.old.entries) entry)
            (is_ok result) (K.store keeper.new) }
        ensures keeps { Keeps self.old (half_of self.old (first_to_go now self.old.entries))
            (after_of self.old (first_to_go now self.old.entries) entry) (is_ok result)
            (K.store keeper.old).records (K.store keeper.new).records }
    {
        let gone = self.first_to_go(now).unwrap();
        let place = self.table.place_of(gone.address.key()).unwrap();
        let floors = raise_floor(keeper, &self.floors, &gone)?;
        self.next_end = entry.end_by(self.next_end);
        self.table.set_stored(keeper, place, entry)?;
        self.floors = floors;
        Ok(())
    }

    // Stores an entry in the place of its address, after the others, or in the place of one that is forgotten.
    fn enter<K: Keeper>(
        &mut self,
        keeper: &mut K,
        entry: RoutingEntry,
        now: u64,
    ) -> Result<(), Failed>
        requires room { is_full self.old entry.address now ≡ false }
        requires valid { 1 ≤ entry.rank.number }
        requires kept { AgreesWith self.old (K.store keeper.old).records }
        ensures routing { OnOk result (self.new ≡ entered self.old entry now) }
        ensures same { OnErr result (self.new ≡ self.old) }
        ensures store { Wrote (K.store keeper.old) (entry_writes self.old entry now) (is_ok result)
            (K.store keeper.new) }
        ensures keeps { Keeps self.old (half_entered self.old entry.address now) (entered self.old entry now)
            (is_ok result) (K.store keeper.old).records (K.store keeper.new).records }
    {
        match self.table.place_of(entry.address.key()) {
            Some(place) => {
                self.next_end = entry.end_by(self.next_end);
                self.table.set_stored(keeper, place, entry)
            }
            None if self.table.is_full() => self.replace(keeper, entry, now),
            None => {
                self.next_end = entry.end_by(self.next_end);
                self.table.push_stored(keeper, entry)
            }
        }
    }

    /// Keeps a better rank of an address, with a valid route by `next`, offered at `now`, in seconds. Where no rank is kept for
    /// the address and 64 are kept, the one that goes first is forgotten: of those with no valid route the one of the least
    /// number, else of those offered at `now` - `ROUTE_FRESH_TIME` or before the earliest; of equal ones that of the least address. The floors
    /// are stored first, where one rises, then the rank.
    ///
    /// Only a failed put is an error. What is kept is then as it was, but may not be used until it is opened again.
    pub fn keep<K: Keeper>(
        &mut self,
        keeper: &mut K,
        dest: Short,
        rank: Rank,
        next: Short,
        now: u64,
    ) -> Result<(), Failed>
        requires better { is_better self.old dest rank ≡ true }
        requires room { is_full self.old dest now ≡ false }
        requires valid { 1 ≤ rank.number }
        requires kept { AgreesWith self.old (K.store keeper.old).records }
        ensures routing { OnOk result (self.new ≡ offered self.old dest rank next now) }
        ensures same { OnErr result (self.new ≡ self.old) }
        ensures store { Wrote (K.store keeper.old) (offer_writes self.old dest rank next now) (is_ok result)
            (K.store keeper.new) }
        ensures kept { OnOk result (AgreesWith self.new (K.store keeper.new).records) }
        // Whatever became of the puts, the records are those of what was kept before, between the puts, or after.
        ensures either { IsSomeOffered self.old dest rank next now (K.store keeper.new).records }
        ensures elsewhere { SameElsewhere (K.store keeper.old).records (K.store keeper.new).records }
    {
        let entry = RoutingEntry {
            address: dest,
            rank,
            route: Some(Route { next, offered: now }),
        };
        self.enter(keeper, entry, now)
    }

    /// Takes an offer of a rank of an address by a next hop, at a time in seconds: where it beats the rank of the address it is
    /// kept, and the route is valid. Where no rank is kept for the address and 64 are kept, one of them is forgotten.
    ///
    /// `Offered::NotBetter` exactly where the number and the cost do not beat `held(dest)`; nothing changes. RoutesFull exactly
    /// where they do, no rank is kept for the address, 64 are kept, and each has a valid route that was offered after
    /// `now` - `ROUTE_FRESH_TIME`; nothing changes. Store where a put failed, and then nothing of this may be used until it is opened again.
    pub fn offer<K: Keeper>(
        &mut self,
        keeper: &mut K,
        dest: Short,
        number: u16,
        cost: u16,
        next: Short,
        now: u64,
    ) -> Result<Offered, OfferFault>
        requires valid { 1 ≤ number }
        requires kept { AgreesWith self.old (K.store keeper.old).records }
        ensures answer { result ≡ offer_result self.old dest (rank_by number cost) now (is_stored result) }
        ensures routing { self.new ≡ offer_after self.old dest (rank_by number cost) next now (is_stored result) }
        ensures store { Wrote (K.store keeper.old) (offer_puts self.old dest (rank_by number cost) next now)
            (is_stored result) (K.store keeper.new) }
        ensures kept { OnTrue (is_stored result) (AgreesWith self.new (K.store keeper.new).records) }
        ensures either { IsSomeOffered self.old dest (rank_by number cost) next now (K.store keeper.new).records }
        ensures elsewhere { SameElsewhere (K.store keeper.old).records (K.store keeper.new).records }
    {
        if !self.is_better(dest, number, u32::from(cost)) {
            return Ok(Offered::NotBetter);
        }
        if self.full(dest, now) {
            return Err(OfferFault::RoutesFull);
        }
        match self.keep(keeper, dest, Rank { number, cost }, next, now) {
            Ok(()) => Ok(Offered::Better),
            Err(_) => Err(OfferFault::Store),
        }
    }

    // When the first valid route ends, the last second of 64 bits where none does.
    #[tactic(auto, unfolding(crate::specs::FirstEnd::first_end))]
    fn first_end(&self) -> u64
        ensures { result ≡ first_end self.now.entries }
    {
        let mut end = u64::MAX;
        for entry in self.table.as_slice() {
            end = entry.end_by(end);
        }
        end
    }

    /// When the first valid route ends, in seconds: [`expire`](RoutingSet::expire) changes nothing before that, and something from then
    /// on. It is 2^64 - 1 where no route is valid.
    pub fn next_end(&self) -> u64
        ensures value { result ≡ first_end self.now.entries }
        ensures still { IsStill result self.now.entries }
        ensures waits { (time : ℕ) → time < result → expired self.now time ≡ self.now }
        ensures ends { (time : ℕ) → time < 18446744073709551615 → expired self.now time ≡ self.now → time < result }
    {
        self.first_end()
    }

    // Ends routes. Every rank and floor stays.
    fn end_routes(&mut self, ending: &Ending)
        ensures routing { self.new ≡ ended (takes ending.now) self.old }
        ensures kept { (records : Records) → AgreesWith self.old records → AgreesWith self.new records }
    {
        for place in 0..self.table.len() {
            let entry = self.table.get(place);
            self.table.set_unstored(place, ending.applied(entry));
        }
    }

    /// Ends each route by a next hop. Every rank and floor stays.
    pub fn invalidate_next(&mut self, next: Short)
        ensures routing { self.new ≡ without_next self.old next }
        ensures kept { (records : Records) → AgreesWith self.old records → AgreesWith self.new records }
    {
        self.end_routes(&Ending::By(next));
    }

    /// Ends the route to an address, if it goes by a next hop. Every rank and floor stays.
    pub fn invalidate(&mut self, dest: Short, next: Short)
        ensures routing { self.new ≡ without_next_to self.old dest next }
        ensures kept { (records : Records) → AgreesWith self.old records → AgreesWith self.new records }
    {
        self.end_routes(&Ending::To(dest, next));
    }

    /// Ends every route. Every rank and floor stays.
    pub fn invalidate_all(&mut self)
        ensures routing { self.new ≡ at_rest self.old }
        ensures kept { (records : Records) → AgreesWith self.old records → AgreesWith self.new records }
    {
        self.end_routes(&Ending::Every);
    }

    /// Ends each route that was offered at `now` - `ROUTE_VALID_TIME` or before, in seconds. Every rank and floor stays.
    pub fn expire(&mut self, now: u64)
        ensures routing { self.new ≡ expired self.old now }
        ensures kept { (records : Records) → AgreesWith self.old records → AgreesWith self.new records }
    {
        if now < self.next_end {
            return;
        }
        self.end_routes(&Ending::Old(now));
        self.next_end = self.next_end();
    }
}
