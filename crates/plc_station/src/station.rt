//! The station.
ghost use Rattle.std.specs.Prelude.{◌≡◌, Some, None, Ok, Err, IsSome, IfOk, IfErr};
ghost use Rattle.std.specs.Bool.{MatchBool};
ghost use Rattle.std.specs.Option.{option_map};
ghost use Rattle.node_rules.specs.RestartStates.{station_of};
ghost use Rattle.node_rules.specs.Agreement.{Agrees};
ghost use Rattle.plc_station.specs.StationViews.{if_read, read_answer};
ghost use Rattle.plc_station.specs.OpenFaults.{IsOpenFault};

use crate::parts::Parts;
use aes_modes::Aes;
use node_rules::Reply;
use plc_base::{BadStore, Eui, Keeper, Key, LONGEST_DATAGRAM, Short};
use station_queues::{Bodies, BodyBuffer};
use std::alloc::Global;
use std::marker::Model;
use thiserror::Error;

/// Why a station is not opened.
#[derive(Clone, Copy, Debug, PartialEq, Eq, Error)]
pub enum OpenFault {
    /// There is no memory for it.
    #[error("out of memory")]
    Memory,
    /// A record of its store has no reading, or was lost: a later one of its table is there.
    #[error("{0}")]
    BadStore(BadStore),
    /// A store write failed. A coordinator alone writes when it is opened.
    #[error("a store write failed")]
    Store,
}

/// A node on the line, over its keeper. It is halted while it stores, so that a write which fails leaves it halted.
///
/// A contract sees what the keeper holds, the own EUI, unless it is halted what it holds on the line, and the route reply that the
/// last frame was answered with.
#[derive(Drop)]
pub struct Station<K: Keeper + Drop> {
    pub(crate) keeper: K,
    pub(crate) eui: Eui,
    pub(crate) parts: Parts,
    pub(crate) bodies: Bodies,
    // Each body that leaves is read into it. It is kept, so that no call zeroes 1,280 octets, and lies apart, so that they are not moved with
    // the station.
    pub(crate) buffer: Box<BodyBuffer>,
    // The cipher under the key of the last frame that it sealed or opened, so that the next one under this key needs no key schedule.
    pub(crate) cipher: Aes,
    pub(crate) halted: bool,
    pub(crate) replied: Option<Reply>,
}

impl<K: Keeper + Drop> Model for Station<K> {
    ghost use Rattle.node_rules.specs.Memory.{StationMemory};
    ghost use Rattle.node_rules.specs.States.{State, station_state_code, unless_halted};

    ghost Value = { State StationMemory };

    ghost coded = { station_state_code };

    ghost use Rattle.plc_station.specs.StationViews.{station_in};

    ghost view = { λ s. record {
      store = K.store s.keeper;
      eui = s.eui;
      memory = unless_halted s.halted (station_in s.parts s.bodies);
      replied = s.replied;
    } };
}

impl<K: Keeper + Drop> Station<K> {
    ghost use Rattle.std.specs.Borrow.{Lends, sem};
    ghost use Rattle.plc_station.specs.contracts.station.Station.{the_row};

    /// A station over what its keeper holds, not halted. Its memory is taken here, and only here.
    ///
    /// Memory where there is none for it; BadStore exactly where a record has no reading or was lost, with the slot of the first one. Never
    /// Store. The keeper comes back with the fault.
    pub fn open(alloc: Global, keeper: K, eui: Eui) -> Result<Station<K>, (OpenFault, K)>
        ensures opened { IfOk result (λ s. s ≡ record {
          store = K.store keeper;
          eui = eui;
          memory = if_read (station_of (K.store keeper).records);
          replied = None;
        }) }
        ensures running { IfOk result (λ s. IsSome s.memory) }
        ensures agrees { IfOk result (λ s. Agrees s) }
        ensures refused { IfErr result (λ e. (e.1 ≡ keeper) × IsOpenFault (station_of (K.store keeper).records) e.0) }
    {
        let Ok(bodies) = Bodies::new(alloc) else {
            return Err((OpenFault::Memory, keeper));
        };
        let Ok(buffer) = Box::new(alloc, [0; LONGEST_DATAGRAM]) else {
            return Err((OpenFault::Memory, keeper));
        };
        match Parts::open(alloc, &keeper) {
            Err(store_tables::OpenFault::Memory) => Err((OpenFault::Memory, keeper)),
            Err(store_tables::OpenFault::BadStore(bad)) => Err((OpenFault::BadStore(bad), keeper)),
            Ok(parts) => Ok(Station {
                keeper,
                eui,
                parts,
                bodies,
                buffer,
                cipher: Aes::new(&Key([0; 16])),
                halted: false,
                replied: None,
            }),
        }
    }

    /// Lends the keeper. What is put there may end the agreement of the station with it.
    pub fn keeper_mut(&mut self) -> &mut K
        ensures* lends { sem 𝓛 (Lends (the_row K.row K.Keeper) K.row self.entry result
            (λ w. record self.entry.now { store = K.store w })) }
        ensures value { K.store result.now ≡ self.old.store }
    {
        &mut self.keeper
    }

    /// Gives the keeper back, as std's `into_inner` does. What the station held in memory is forgotten.
    pub fn into_keeper(self) -> K
        ensures store { K.store result ≡ self.store }
    {
        self.keeper
    }

    /// Whether it is halted.
    pub fn halted(&self) -> bool
        ensures { MatchBool result (self.now.memory ≡ None) (IsSome self.now.memory) }
    {
        self.halted
    }

    /// Halts it: it holds its store and nothing else.
    pub fn halt(&mut self)
        ensures { self.new ≡ record self.old { memory = None } }
    {
        self.halted = true;
    }

    /// The neighbour, the number and the origin of the route reply that the last `hear` sent. None where that one sent none, and
    /// where there was no `hear` since the station was opened or restarted.
    pub fn last_reply(&self) -> Option<(Short, u16, Short)>
        ensures reply { result ≡ option_map (λ r. (r.to, r.number, r.origin)) self.now.replied }
    {
        let reply = self.replied?;
        Some((reply.to, reply.number, reply.origin))
    }

    /// Forgets everything but the store, and ends a halt: it agrees with its keeper. BadStore as `open` answers it, and then it is halted.
    pub fn restart(&mut self) -> Result<(), BadStore>
        ensures answer { result ≡ read_answer (station_of self.old.store.records) }
        ensures state { self.new ≡ record self.old {
          memory = if_read (station_of self.old.store.records);
          replied = None;
        } }
        ensures agrees { Agrees self.new }
    {
        self.halted = true;
        self.replied = None;
        self.bodies.clear();
        self.parts.reload(&self.keeper)?;
        self.halted = false;
        Ok(())
    }
}
