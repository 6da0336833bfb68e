//! How a coordinator begins over what its keeper holds.
ghost use Rattle.std.specs.Prelude.{◌≡◌, [], false, is_some, Ok, Err, IfSome, IsSome, IfOk, IfErr};
ghost use Rattle.store_tables.specs.SlotTables as slots;
ghost use Rattle.group_keys.specs.KeyBook as book;
ghost use Rattle.node_rules.specs.RestartStates.{station_of, first_grant};
ghost use Rattle.node_rules.specs.Coordinators as rules;
ghost use Rattle.node_rules.specs.Agreement.{Agrees};
ghost use Rattle.node_rules.specs.CarriedPlans.{Carries, nothing};
ghost use Rattle.plc_station.specs.StationViews as stations;
ghost use Rattle.coordinator.specs.CoordinatorStates.{memory_in, node_of, state_in};
ghost use Rattle.coordinator.specs.CoordinatorAgreement.{CoordinatorAgrees};
ghost use Rattle.coordinator.specs.CoordinatorStart as coordinator_start;

use crate::coordinator::Coordinator;
use crate::sessions::Sessions;
use group_keys::{KeyBook, KeyRing};
use joining_base::RandomValues;
use node_rules::RingRefusal;
use plc_base::{Eui, Grant, Keeper, Key, KeyIndex, Short};
use plc_station::{OpenFault, Station};
use std::alloc::Global;

// The ring that a coordinator begins with.
fn first_grant(key: &Key) -> Grant
    ensures { result ≡ first_grant key.now }
{
    Grant {
        address: Short::default(),
        active: KeyIndex::first(),
        keys: [Some(*key), None],
    }
}

// The book that the keeper of an opened station holds. BadStore where it has no reading, Memory where there is none for it.
fn open_book<K: Keeper + Drop>(
    alloc: Global,
    station: &mut Station<K>,
) -> Result<KeyBook, OpenFault>
    ensures same { station.new ≡ station.old }
    ensures read { IfOk result (λ b. slots.opened book.entries station.old.store.records ≡ Ok b) }
    ensures kept { IfOk result (λ b. book.AgreesWith b station.old.store.records) }
    ensures bad { IfErr result (λ fault. coordinator_start.IsBookFault (slots.opened book.entries station.old.store.records) fault) }
{
    match KeyBook::open(alloc, station.keeper_mut()) {
        Ok(book) => Ok(book),
        Err(store_tables::OpenFault::Memory) => Err(OpenFault::Memory),
        Err(store_tables::OpenFault::BadStore(bad)) => Err(OpenFault::BadStore(bad)),
    }
}

// Stores the first ring at the station of a coordinator, whichever book it has, and reads the store again.
fn store_first<K: Keeper + Drop>(station: &mut Station<K>, key: &Key) -> Result<(), RingRefusal>
    requires running { IsSome station.old.memory }
    requires read { station.old.memory ≡ stations.if_read (station_of station.old.store.records) }
    requires empty { IfSome station.old.memory (λ l. is_some l.ring ≡ false) }
    ensures carries { (b : book.Book) → IfSome station.old.memory (λ l. Carries (state_in station.old [] [] b)
        (rules.begin (memory_in [] [] b l) (first_grant key.now)) result nothing (state_in station.new [] [] b)) }
    ensures holds { (b : book.Book) → Agrees station.old → book.AgreesWith b station.old.store.records
        → CoordinatorAgrees (state_in station.new [] [] b) }
{
    let Ok(mut ring) = KeyRing::open(station.keeper_mut()) else {
        unreachable!()
    };
    let Ok(()) = ring.keep(station.keeper_mut(), Some(first_grant(key))) else {
        station.halt();
        return Err(RingRefusal::Store);
    };
    let Ok(()) = station.restart() else {
        unreachable!()
    };
    Ok(())
}

// Installs the first ring at the station of a coordinator, whichever book it has, where it has none.
fn begin<K: Keeper + Drop>(station: &mut Station<K>, key: &Key) -> Result<(), RingRefusal>
    requires running { IsSome station.old.memory }
    requires read { station.old.memory ≡ stations.if_read (station_of station.old.store.records) }
    ensures carries { (b : book.Book) → IfSome station.old.memory (λ l. Carries (state_in station.old [] [] b)
        (rules.begin (memory_in [] [] b l) (first_grant key.now)) result nothing (state_in station.new [] [] b)) }
    ensures holds { (b : book.Book) → Agrees station.old → book.AgreesWith b station.old.store.records
        → coordinator_start.MayBegin station.old.store.records → CoordinatorAgrees (state_in station.new [] [] b) }
{
    if station.ring().grant().is_some() {
        return Ok(());
    }
    store_first(station, key)
}

impl<K: Keeper + Drop> Coordinator<K> {
    /// A coordinator over what its keeper holds, not halted, without a random value and a session. Where the keeper holds no ring,
    /// it stores one with the address 0000 and this key, active at index 0. Its memory is taken here, and only here.
    ///
    /// Memory, where there is none for it; BadStore, with the first slot whose record has no reading or was lost, the station's before the
    /// book's; Store, where the put of the ring failed. The keeper comes back with each fault, as it was but for that put.
    pub fn open(
        alloc: Global,
        keeper: K,
        eui: Eui,
        key: &Key,
    ) -> Result<Coordinator<K>, (OpenFault, K)>
        ensures opened { IfOk result (λ c. coordinator_start.Begins (K.store keeper) eui key.now (Ok tt) (node_of c)) }
        ensures running { IfOk result (λ c. IsSome (node_of c).memory) }
        ensures holds { coordinator_start.MayBegin (K.store keeper).records
            → IfOk result (λ c. CoordinatorAgrees (node_of c)) }
        ensures refused { IfErr result (λ e. coordinator_start.IsOpenFault (K.store keeper) eui key.now e.0 (K.store e.1)) }
    {
        let mut station = match Station::open(alloc, keeper, eui) {
            Ok(station) => station,
            Err(fault) => return Err(fault),
        };
        let book = match open_book(alloc, &mut station) {
            Ok(book) => book,
            Err(fault) => return Err((fault, station.into_keeper())),
        };
        let Ok(()) = begin(&mut station, key) else {
            return Err((OpenFault::Store, station.into_keeper()));
        };
        Ok(Coordinator {
            station,
            book,
            randoms: RandomValues::new(),
            sessions: Sessions::new(),
        })
    }
}
