//! The coordinator.
ghost use Rattle.std.specs.Prelude.{◌≡◌, ◌≤◌, length, None, Ok, Err, IfSome, IfNone, is_some};
ghost use Rattle.std.specs.Option.{option_map, option_and_then};
ghost use Rattle.group_keys.specs.KeyBook as book;
ghost use Rattle.node_rules.specs.Memory as memory;
ghost use Rattle.node_rules.specs.RestartStates.{memory_of};
ghost use Rattle.node_rules.specs.Coordinators as rules;
ghost use Rattle.plc_station.specs.NextEnds.{IsFirstEnd};
ghost use Rattle.plc_station.specs.Sizes.{HasSizes};
ghost use Rattle.coordinator.specs.ReadAnswers.{if_read, read_answer};
ghost use Rattle.coordinator.specs.CoordinatorStates.{node_of};
ghost use Rattle.coordinator.specs.CoordinatorAgreement.{HasCoordinatorAddress, CoordinatorAgrees};
ghost use Rattle.coordinator.specs.Tables.{session_in};

use crate::sessions::Sessions;
use group_keys::KeyBook;
use joining_base::RandomValues;
use plc_base::{BadStore, Eui, Keeper, Short};
use plc_station::Station;
use std::marker::Model;

/// The coordinator over its keeper. It is halted where its station is.
///
/// A contract sees its station, the random values, the sessions and the book; `node_of` is the same as a node.
#[derive(Drop)]
pub struct Coordinator<K: Keeper + Drop> {
    pub(crate) station: Station<K>,
    pub(crate) book: KeyBook,
    pub(crate) randoms: RandomValues,
    pub(crate) sessions: Sessions,
}

impl<K: Keeper + Drop> Model for Coordinator<K> {
    ghost use Rattle.coordinator.specs.CoordinatorStates.{CoordinatorState, coordinator_code};

    ghost Value = { CoordinatorState };

    ghost coded = { coordinator_code };

    ghost view = { λ c. record {
      station = c.station;
      randoms = c.randoms;
      sessions = c.sessions;
      book = c.book;
    } };
}

impl<K: Keeper + Drop> Coordinator<K> {
    ghost use Rattle.std.specs.Borrow.{Lends, sem};
    ghost use Rattle.coordinator.specs.contracts.coordinator.Coordinator.{the_row};
    ghost use Rattle.plc_station.specs.contracts.station.Station.{the_row as station_row};

    /// Lends the station, to accept frames, to send, and for what breaks and is set at it. What the coordinator keeps beside it
    /// stays.
    pub fn station(&mut self) -> &mut Station<K>
        ensures* lends { sem 𝓛 (Lends (the_row K.row K.Keeper) (station_row K.row K.Keeper) self.entry result
            (λ w. record self.entry.now { station = w })) }
        ensures value { result.now ≡ self.old.station }
    {
        &mut self.station
    }

    /// Its own EUI.
    pub fn eui(&self) -> Eui
        ensures { result ≡ self.now.station.eui }
    {
        self.station.eui()
    }

    /// Its short address, None where it is halted.
    pub fn address(&self) -> Option<Short>
        ensures { result ≡ option_and_then
            (λ (m : memory.Memory). memory.address_of m.station) (node_of self.now).memory }
    {
        if self.station.halted() {
            return None;
        }
        self.station.ring().joined()
    }

    /// The neighbour, the number and the origin of the route reply that its station sent at its last `hear`, as
    /// [`Station::last_reply`] gives it.
    pub fn last_reply(&self) -> Option<(Short, u16, Short)>
        ensures { result ≡ option_map (λ r. (r.to, r.number, r.origin)) self.now.station.replied }
    {
        self.station.last_reply()
    }

    /// The address of a meter in the book, None where it has none or the coordinator is halted.
    pub fn address_of(&self, eui: Eui) -> Option<Short>
        ensures { result ≡ option_and_then
            (λ (m : memory.Memory). book.address_of m.book eui) (node_of self.now).memory }
    {
        if self.station.halted() {
            return None;
        }
        self.book.address(eui)
    }

    /// Whether a session with a meter is open. Where the coordinator is halted none is.
    pub fn has_session(&self, eui: Eui) -> bool
        ensures { result ≡ is_some (option_and_then
            (λ (m : memory.Memory). session_in m.sessions eui) (node_of self.now).memory) }
    {
        if self.station.halted() {
            return false;
        }
        self.sessions.of(eui).is_some()
    }

    /// How many sessions are open: at most 8.
    pub fn sessions(&self) -> usize
        ensures value { result ≡ length self.now.sessions }
        ensures sessions { length self.now.sessions ≤ 8 }
    {
        self.sessions.count()
    }

    /// A law, for whoever stands on it: what a coordinator holds keeps its sizes, whatever its keeper is: at most 8 sessions, 8 random
    /// values and 999 meters in its book, and its station's tables as [`Station::keeps_sizes`] has them. Of the station of a halted one that
    /// says nothing. The call does nothing.
    pub fn keeps_sizes(&self)
        ensures sessions { length self.now.sessions ≤ 8 }
        ensures randoms { length self.now.randoms ≤ 8 }
        ensures book { length self.now.book ≤ 999 }
        ensures sized { IfSome self.now.station.memory HasSizes }
    {
        self.station.keeps_sizes();
        let _sessions = self.sessions.count();
        let _randoms = self.randoms.count();
        let _meters = self.book.entries();
    }

    /// Gives the keeper back, as std's `into_inner` does. What the coordinator held in memory is forgotten.
    pub fn into_keeper(self) -> K
        ensures store { K.store result ≡ self.station.store }
    {
        self.station.into_keeper()
    }

    /// When the first ends of what its [`tick`](Coordinator::tick) ends, in seconds: what its station ends, and its sessions. A `tick`
    /// before that changes nothing, and one at that time ends something. None where it holds nothing that ends, and where it is halted.
    pub fn next_end(&self) -> Option<u64>
        ensures halted { IfNone self.now.station.memory (result ≡ None) }
        ensures first { IfSome (node_of self.now).memory (λ m. IsFirstEnd rules.tick m result) }
    {
        if self.station.halted() {
            return None;
        }
        let station = self.station.next_end();
        if self.sessions.count() == 0 {
            return station;
        }
        Some(self.sessions.first_end(station.unwrap_or(u64::MAX)))
    }

    /// Ends what is old at a time in seconds: what its station ends, and the sessions that were opened `SESSION_TIME` ago or before. A
    /// halted one stays as it is.
    pub fn tick(&mut self, now: u64)
        requires holds { CoordinatorAgrees (node_of self.old) }
        ensures state { node_of self.new
            ≡ record (node_of self.old) { memory = option_map (rules.tick now) (node_of self.old).memory } }
        ensures holds { CoordinatorAgrees (node_of self.new) }
    {
        self.station.tick(now);
        self.sessions.expire(now);
    }

    /// Forgets everything but the store, and ends a halt. After BadStore it is halted.
    pub fn restart(&mut self) -> Result<(), BadStore>
        ensures answer { result ≡ read_answer (memory_of memory.Coordinator self.old.station.store.records) }
        ensures memory { (node_of self.new).memory
            ≡ if_read (memory_of memory.Coordinator self.old.station.store.records) }
        ensures store { self.new.station.store ≡ self.old.station.store }
        ensures eui { self.new.station.eui ≡ self.old.station.eui }
        ensures holds { HasCoordinatorAddress self.old.station.store.records → CoordinatorAgrees (node_of self.new) }
    {
        self.randoms.clear();
        self.sessions.clear();
        self.station.restart()?;
        if let Err(bad) = self.book.reload(self.station.keeper_mut()) {
            self.station.halt();
            return Err(bad);
        }
        Ok(())
    }
}
