//! The floors of the classes of addresses, as they are stored.
ghost use Rattle.std.specs.Prelude.{◌≡◌, ◌<◌, ◌%◌, Some, is_ok, IfOk, OnOk};
ghost use Rattle.std.specs.List.{flat_map};
ghost use Rattle.std.specs.FinMap.{get};
ghost use Rattle.byteorder.specs.Endian.{big_bytes};
ghost use Rattle.plc_base.specs.Keeper.{Stores, OutsideStays, IsOldOrNew};
ghost use Rattle.routing_set.specs.RoutingSet.{class_of, AreFloorsOf, AreOldOrNewFloors, floor_slot, floors_in, floors_write, floors_due, raised};

use crate::RoutingEntry;
use byteorder::{BigEndian, ByteOrder};
use plc_base::{Failed, Keeper, Record, Short};

/// The slot of the floors.
pub(crate) const FLOOR_SLOT: u32 = 5;

// The class of an address.
pub(crate) fn class_of(address: Short) -> usize
    ensures class { result ≡ class_of address }
    ensures valid { result < 16 }
{
    usize::from(address.number() % 16)
}

// The floors that a record gives. None exactly where it has not 32 octets.
#[tactic(auto, unfolding(crate::specs::RoutingSet::floors_in))]
fn floors_in(octets: &[u8]) -> Option<[u16; 16]>
    ensures { result ≡ floors_in (Some octets.now) }
{
    if octets.len() != 32 {
        return None;
    }
    let mut floors = [0; 16];
    BigEndian::read_u16_into(octets, &mut floors);
    Some(floors)
}

// The floors that the records give. None exactly where the record of their slot has no reading.
#[tactic(auto, unfolding(crate::specs::RoutingSet::floors_in))]
pub(crate) fn stored_floors<K: Keeper>(keeper: &K) -> Option<[u16; 16]>
    ensures { result ≡ floors_in (get (K.store keeper.now).records floor_slot) }
{
    let Some(octets) = keeper.get(FLOOR_SLOT) else {
        return Some([0; 16]);
    };
    floors_in(octets.octets())
}

// The record of the floors.
fn floors_record(floors: &[u16; 16]) -> Record
    ensures { result ≡ flat_map (big_bytes 2) floors.now }
{
    let mut octets = [0; 32];
    BigEndian::write_u16_into(floors, &mut octets);
    Record::from_octets(&octets)
}

// Stores the floors.
fn store_floors<K: Keeper>(keeper: &mut K, floors: &[u16; 16]) -> Result<(), Failed>
    ensures store { Stores (K.store keeper.old) (Some (floors_write floors.now)) (is_ok result) (K.store keeper.new) }
    ensures stored { OnOk result (floors_in (get (K.store keeper.new).records floor_slot) ≡ Some floors.now) }
    ensures either { AreOldOrNewFloors floors.now (K.store keeper.old).records (K.store keeper.new).records }
    ensures elsewhere { OutsideStays 5 5 (K.store keeper.old) (K.store keeper.new) }
{
    keeper.put(FLOOR_SLOT, &floors_record(floors))
}

// Raises the floor of the class of an entry that is forgotten to its number, where that is greater, and answers the floors.
// They are stored first.
pub(crate) fn raise_floor<K: Keeper>(
    keeper: &mut K,
    floors: &[u16; 16],
    gone: &RoutingEntry,
) -> Result<[u16; 16], Failed>
    requires { floors_in (get (K.store keeper.old).records floor_slot) ≡ Some floors.now }
    ensures floors { IfOk result (λ after. after ≡ raised floors.now gone.now) }
    ensures store { Stores (K.store keeper.old) (floors_due floors.now (Some gone.now)) (is_ok result)
        (K.store keeper.new) }
    ensures stored { OnOk result (floors_in (get (K.store keeper.new).records floor_slot)
        ≡ Some (raised floors.now gone.now)) }
    ensures either { IsOldOrNew AreFloorsOf floors.now (raised floors.now gone.now) (K.store keeper.new).records }
    ensures elsewhere { OutsideStays 5 5 (K.store keeper.old) (K.store keeper.new) }
{
    let class = class_of(gone.address);
    let number = gone.rank.number;
    let mut after = *floors;
    if after[class] >= number {
        return Ok(after);
    }
    after[class] = number;
    store_floors(keeper, &after)?;
    Ok(after)
}
