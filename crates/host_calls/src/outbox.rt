//! The keeper.
ghost use Rattle.std.specs.Prelude.{◌≡◌, ◌<◌, ◌≤◌, [], length, map, OnOk, OnErr, is_ok, IfOk, IfSome, Some, None};
ghost use Rattle.std.specs.FinMap as map;
ghost use Rattle.plc_base.specs.Keeper.{IsSlot, Puts};
ghost use Rattle.host_calls.specs.Outbox.{write_of};

use arrayvec::ArrayVec;
use plc_base::{Failed, Keeper, MemKeeper, Record};
use std::alloc::{AllocError, Global};
use std::marker::Model;

/// How many puts the list has room for.
pub const MOST_PUTS: usize = 5;

/// A put that is to be stored.
#[derive(Drop)]
pub struct ListedPut {
    /// The slot.
    pub slot: u32,
    /// The record that the slot is to have.
    pub octets: Record,
}

impl Default for ListedPut {
    /// A blank, for an unused place of a list.
    fn default() -> ListedPut
        ensures { result ≡ record { slot = 0; octets = [] } }
    {
        ListedPut {
            slot: 0,
            octets: Record::new(),
        }
    }
}

/// A keeper in memory, and the puts since the list was last cleared.
///
/// A contract sees the records with the listed puts done, how often a put found no room, and the list (`listed`, which is never None).
#[derive(Drop)]
pub struct OutboxKeeper {
    held: MemKeeper,
    puts: ArrayVec<ListedPut, MOST_PUTS>,
    faults: u64,
}

impl Model for OutboxKeeper {
    ghost use Rattle.std.specs.Prelude.{◌≡◌, Some, None, map};
    ghost use Rattle.plc_base.specs.Keeper.{Store, store_code};
    ghost use Rattle.host_calls.specs.Outbox.{write_of};

    ghost Value = { Store };

    ghost coded = { store_code };

    ghost view = { λ k. record { records = k.held.records; pending = None; faults = k.faults; known_cut = None; listed = Some (map write_of k.puts.items) } };

    // No put of the keeper in memory fails.
    ghost invariant = { λ k. k.held.known_cut ≡ Some None };
}

impl OutboxKeeper {
    /// A keeper with no record and no put. It fails only where there is no memory.
    pub fn new(alloc: Global) -> Result<OutboxKeeper, AllocError>
        ensures { IfOk result (λ k. k ≡ record { records = map.empty; pending = None; faults = 0; known_cut = None; listed = Some [] }) }
    {
        Ok(OutboxKeeper {
            held: MemKeeper::new(alloc)?,
            puts: ArrayVec::new(),
            faults: 0,
        })
    }

    /// Takes in a record that is stored, and lists no put: for each slot that has one, before a node is opened over the keeper.
    pub fn load(&mut self, slot: u32, octets: &Record)
        requires { IsSlot slot }
        ensures { self.new ≡ record self.old { records = map.insert self.old.records slot octets.now } }
    {
        let _ = self.held.put(slot, octets);
    }

    /// The puts since the list was last cleared, in order.
    pub fn puts(&self) -> &[ListedPut]
        ensures puts { self.now.listed ≡ Some (map write_of result.now) }
        ensures most { length result.now ≤ 5 }
    {
        self.puts.as_slice()
    }

    /// Clears the list: all that is in it was stored.
    pub fn begin(&mut self)
        ensures { self.new ≡ record self.old { listed = Some [] } }
    {
        self.puts.clear();
    }
}

impl Keeper for OutboxKeeper {
    ghost store = { λ k. k };

    fn get(&self, slot: u32) -> Option<Record> {
        self.held.get(slot)
    }

    /// Takes in the record, and lists the put. It fails exactly where the list is full, and then changes nothing but the count.
    #[tactic(auto, using(crate::proofs::OutboxLemmas::one_more))]
    fn put(&mut self, slot: u32, octets: &Record) -> Result<(), Failed>
        requires { IsSlot slot }
        ensures puts { Puts self.old slot octets.now (is_ok result) self.new }
        ensures refused { OnErr result (self.new.records ≡ self.old.records) }
        ensures room { OnOk result (IfSome self.old.listed (λ puts. length puts < 5)) }
        ensures full { OnErr result (IfSome self.old.listed (λ puts. 5 ≤ length puts)) }
    {
        if self.puts.is_full() {
            self.faults = self.faults.saturating_add(1);
            return Err(Failed);
        }
        self.puts.push(ListedPut {
            slot,
            octets: octets.copied(),
        });
        let _ = self.held.put(slot, octets);
        Ok(())
    }
}
