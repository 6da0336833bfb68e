//! The meter.
ghost use Rattle.std.specs.Prelude.{◌≡◌, ◌≤◌, length, Some, None, Ok, Err, IfSome, IsSome, IfNone, IfOk, IfErr};
ghost use Rattle.std.specs.Result.{result_ok};
ghost use Rattle.std.specs.Option.{option_map, option_and_then};
ghost use Rattle.node_rules.specs.Memory as memory;
ghost use Rattle.node_rules.specs.Meters as meters;
ghost use Rattle.node_rules.specs.RestartStates.{memory_of};
ghost use Rattle.node_rules.specs.Agreement.{Agrees};
ghost use Rattle.meter_node.specs.MeterCalls.{MeterAfter};
ghost use Rattle.plc_station.specs.NextEnds.{IsFirstEnd};
ghost use Rattle.plc_station.specs.Sizes.{HasSizes};
ghost use Rattle.meter_node.specs.MeterStates.{node_of};
ghost use Rattle.meter_node.specs.Ends.{IsSooner};
ghost use Rattle.meter_node.specs.Sessions.{session_of};
ghost use Rattle.meter_node.specs.OpenFaults.{read_answer, IsOpenFault};

use crate::pair_key::PairKey;
use crate::session::Session;
use joining_base::RandomValues;
use node_rules::SESSION_TIME;
use plc_base::{BadStore, Eui, Keeper, Key, Short, earlier_end, is_within};
use plc_station::{OpenFault, Station};
use std::alloc::Global;
use std::marker::Model;

/// A meter, over its keeper.
///
/// A contract sees its station, the pair key, the random values and the session; `node_of` is the same as a node.
#[derive(Drop)]
pub struct Meter<K: Keeper + Drop> {
    pub(crate) station: Station<K>,
    pub(crate) pair_key: PairKey,
    pub(crate) randoms: RandomValues,
    pub(crate) session: Option<Session>,
}

impl<K: Keeper + Drop> Model for Meter<K> {
    ghost use Rattle.std.specs.Option.{option_map};
    ghost use Rattle.meter_node.specs.Sessions.{session_of};
    ghost use Rattle.meter_node.specs.MeterStates.{MeterState, meter_code};

    ghost Value = { MeterState };

    ghost coded = { meter_code };

    ghost view = { λ m. record {
      station = m.station;
      psk = m.pair_key;
      randoms = m.randoms;
      session = option_map session_of m.session;
    } };
}

impl<K: Keeper + Drop> Meter<K> {
    ghost use Rattle.std.specs.Borrow.{Lends, sem};
    ghost use Rattle.meter_node.specs.contracts.meter.Meter.{the_row};
    ghost use Rattle.plc_station.specs.contracts.station.Station.{the_row as station_row};

    /// A meter over what its keeper holds, not halted, without a random value and a session. Its memory is taken here, and only here.
    ///
    /// Memory where there is none for it; BadStore exactly where a record has no reading or was lost, with the slot of the first one. Never
    /// Store. The keeper comes back with the fault.
    pub fn open(alloc: Global, keeper: K, eui: Eui, psk: Key) -> Result<Meter<K>, (OpenFault, K)>
        ensures opened { IfOk result (λ m. (m.station.store ≡ K.store keeper) × (m.station.eui ≡ eui) × (m.psk ≡ psk)
            × ((node_of m).memory ≡ result_ok (memory_of (memory.Meter psk) (K.store keeper).records))) }
        ensures running { IfOk result (λ m. IsSome m.station.memory) }
        ensures agrees { IfOk result (λ m. Agrees m.station) }
        ensures refused { IfErr result (λ e.
            (e.1 ≡ keeper) × IsOpenFault (memory_of (memory.Meter psk) (K.store keeper).records) e.0) }
    {
        match Station::open(alloc, keeper, eui) {
            Ok(station) => Ok(Meter {
                station,
                pair_key: PairKey::new(psk),
                randoms: RandomValues::new(),
                session: None,
            }),
            Err(fault) => Err(fault),
        }
    }

    /// Lends the station, to accept frames, to send, and for what breaks and is set at it. What the meter keeps beside it stays.
    pub fn station(&mut self) -> &mut Station<K>
        ensures* lends { sem 𝓛
            (Lends (the_row K.row K.Keeper) (station_row K.row K.Keeper) self.entry result (λ w. record self.entry.now { station = w })) }
        ensures value { result.now ≡ self.old.station }
    {
        &mut self.station
    }

    /// Its own EUI.
    pub fn eui(&self) -> Eui
        ensures { result ≡ self.now.station.eui }
    {
        self.station.eui()
    }

    /// Its pair key.
    pub fn psk(&self) -> Key
        ensures { result ≡ self.now.psk }
    {
        self.pair_key.psk()
    }

    /// Its short address, None where it is halted or not joined.
    pub fn address(&self) -> Option<Short>
        ensures { result ≡ option_and_then memory.address_of self.now.station.memory }
    {
        if self.station.halted() {
            return None;
        }
        self.station.ring().joined()
    }

    /// How many random values it holds that it has not used yet: at most 8.
    pub fn random_values(&self) -> usize
        ensures value { result ≡ length self.now.randoms }
        ensures randoms { length self.now.randoms ≤ 8 }
    {
        self.randoms.count()
    }

    /// A law, for whoever stands on it: what a meter holds keeps its sizes, whatever its keeper is: at most 8 random values, and its
    /// station's tables as [`Station::keeps_sizes`] has them. Of the station of a halted one that says nothing. The call does nothing.
    pub fn keeps_sizes(&self)
        ensures randoms { length self.now.randoms ≤ 8 }
        ensures sized { IfSome self.now.station.memory HasSizes }
    {
        self.station.keeps_sizes();
        let _randoms = self.randoms.count();
    }

    /// Gives the keeper back, as std's `into_inner` does. What the meter held in memory is forgotten.
    pub fn into_keeper(self) -> K
        ensures store { K.store result ≡ self.station.store }
    {
        self.station.into_keeper()
    }

    /// The neighbour, the number and the origin of the route reply that its station sent at its last `hear`, as
    /// [`Station::last_reply`] gives it.
    pub fn last_reply(&self) -> Option<(Short, u16, Short)>
        ensures { result ≡ option_map (λ r. (r.to, r.number, r.origin)) self.now.station.replied }
    {
        self.station.last_reply()
    }

    /// When the first ends of what its [`tick`](Meter::tick) ends, in seconds: what its station ends, and its session. A `tick` before
    /// that changes nothing, and one at that time ends something. None where it holds nothing that ends, and where it is halted.
    pub fn next_end(&self) -> Option<u64>
        ensures halted { IfNone self.now.station.memory (result ≡ None) }
        ensures first { IfSome (node_of self.now).memory (λ m. IsFirstEnd meters.tick m result) }
    {
        if self.station.halted() {
            return None;
        }
        end_with(self.station.next_end(), &self.session)
    }

    /// Ends what is old at a time in seconds: what its station ends, and a session after `SESSION_TIME`. A halted meter stays as it is.
    pub fn tick(&mut self, now: u64)
        requires agrees { Agrees self.old.station }
        ensures halted { IfNone self.old.station.memory (self.new ≡ self.old) }
        ensures state { node_of self.new
            ≡ record (node_of self.old) { memory = option_map (meters.tick now) (node_of self.old).memory } }
        ensures after { MeterAfter self.old self.new }
    {
        if self.station.halted() {
            return;
        }
        self.station.tick(now);
        end_old(&mut self.session, now);
    }

    /// Forgets all but the store, also its random values and its session, and ends a halt. After BadStore it is halted.
    pub fn restart(&mut self) -> Result<(), BadStore>
        ensures answer { result ≡ read_answer (memory_of (memory.Meter self.old.psk) self.old.station.store.records) }
        ensures memory { (node_of self.new).memory
            ≡ result_ok (memory_of (memory.Meter self.old.psk) self.old.station.store.records) }
        ensures store { self.new.station.store ≡ self.old.station.store }
        ensures eui { self.new.station.eui ≡ self.old.station.eui }
        ensures psk { self.new.psk ≡ self.old.psk }
        ensures agrees { Agrees self.new.station }
    {
        self.randoms.clear();
        self.session = None;
        self.station.restart()
    }
}

// The earlier of an end and of that of a session.
fn end_with(end: Option<u64>, session: &Option<Session>) -> Option<u64>
    ensures { IsSooner end (option_map session_of session.now) result }
{
    let Some(session) = session else {
        return end;
    };
    Some(earlier_end(SESSION_TIME, end.unwrap_or(u64::MAX), session.since))
}

// Ends a session that began `SESSION_TIME` ago or before. It is looked at where it stands, since it has many octets and most ticks end none.
fn end_old(session: &mut Option<Session>, now: u64)
    ensures { option_map session_of session.new
        ≡ option_and_then (meters.session_within now) (option_map session_of session.old) }
{
    let lasts = match session {
        Some(session) => is_within(SESSION_TIME, now, session.since),
        None => true,
    };
    if !lasts {
        *session = None;
    }
}
