//! The records that a meter is opened over.
ghost use Rattle.std.specs.Prelude.{◌≡◌, ◌⊎◌, [], Some, None, IfOk, MatchBool};
ghost use Rattle.std.specs.FinMap as map;
ghost use Rattle.plc_base.specs.Keeper.{IsSlot};
ghost use Rattle.meter_host.specs.LoadedRecords.{Follows, IsLoaded};

use byteorder::{BigEndian, ByteOrder};
use host_calls::{OutboxKeeper, Status};
use plc_base::{Keeper, Record};
use std::alloc::{AllocError, Global};
use std::marker::Model;

/// A keeper that is filled with records, in an order in which no table has a gap.
#[derive(Drop)]
pub struct Loading {
    keeper: OutboxKeeper,
}

impl Model for Loading {
    ghost use Rattle.plc_base.specs.Keeper.{Store, store_code};

    ghost Value = { Store };

    ghost coded = { store_code };

    ghost view = { λ l. l.keeper };
}

// Whether a record stands at a slot of this number.
fn is_slot(slot: u32) -> bool
    ensures { MatchBool result (IsSlot slot) (IsSlot slot → ⊥) }
{
    match slot {
        1..=6 => return true,
        0x0100..=0x013F => return true,
        0x0200..=0x023F => return true,
        0x0300..=0x031F => return true,
        0x1000..=0x13E6 => return true,
        _ => return false,
    }
}

// Whether a slot leaves no gap in the table of 64 slots that begins here: it is none of its slots, or the first, or comes after a record.
fn follows(keeper: &OutboxKeeper, first: u32, slot: u32) -> bool
    requires { (first ≡ 0x0100) ⊎ (first ≡ 0x0200) }
    ensures { MatchBool result (Follows first keeper.now.records slot) (Follows first keeper.now.records slot → ⊥) }
{
    let end = first + 64;
    if slot <= first {
        return true;
    }
    if slot >= end {
        return true;
    }
    keeper.get(slot - 1).is_some()
}

impl Loading {
    /// No record yet. It fails only where there is no memory.
    pub fn new(alloc: Global) -> Result<Loading, AllocError>
        ensures { IfOk result (λ l. l ≡ record { records = map.empty; pending = None; faults = 0; known_cut = None; listed = Some [] }) }
    {
        Ok(Loading {
            keeper: OutboxKeeper::new(alloc)?,
        })
    }

    /// Takes in a record: its slot in four octets, and its octets. Malformed, and nothing changes, exactly where the slot is none, the record is
    /// longer than 64 octets, or the slot before it in its table has no record.
    pub fn load(&mut self, octets: &[u8]) -> Status
        ensures loaded { IsLoaded octets.now self.old result self.new }
    {
        if octets.len() < 4 {
            return Status::Malformed;
        }
        if octets.len() > 68 {
            return Status::Malformed;
        }
        let slot = BigEndian::read_u32(octets);
        if !is_slot(slot) {
            return Status::Malformed;
        }
        if !follows(&self.keeper, 0x0100, slot) {
            return Status::Malformed;
        }
        if !follows(&self.keeper, 0x0200, slot) {
            return Status::Malformed;
        }
        self.keeper.load(slot, &Record::from_octets(&octets[4..]));
        Status::Done
    }

    /// The keeper, over which a meter is opened.
    pub fn into_keeper(self) -> OutboxKeeper
        ensures { result ≡ self }
    {
        self.keeper
    }
}
