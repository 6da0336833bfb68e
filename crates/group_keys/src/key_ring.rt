//! The ring of a node.
ghost use Rattle.std.specs.FinMap.{get};
ghost use Rattle.std.specs.Prelude.{◌≡◌, true, Some, None, Ok, is_ok, is_some, IsSome, IfOk, OnOk, OnErr, length};
ghost use Rattle.std.specs.Bool.{OnTrue};
ghost use Rattle.std.specs.Option.{option_map};
ghost use Rattle.plc_base.specs.Keeper.{Stores, OutsideStays};
ghost use Rattle.group_keys.specs.KeyRing.{AgreesWith, IsOldRingOrAgrees, IsOldOrNewRing, opened, ring_at, ring_slot, ring_in, grant_in, ring_octets};
ghost use Rattle.group_keys.specs.KeyRing.{ring_write};
ghost use Rattle.group_keys.specs.KeyRing.{key_in_ring, with_key, with_active, stored_result, activate_result, activate_write, activate_after, is_stored};

use crate::RingFault;
use crate::fields::{HELD, held_in, push_held};
use byteorder::{BigEndian, ByteOrder};
use plc_base::{BadStore, Failed, Grant, Keeper, Key, KeyIndex, Record, Short};
use std::marker::Model;

/// The ring of a node: nothing, or the address and the group keys of its last grant with the later changes. It is always
/// stored.
///
/// A contract sees none, or the grant.
#[derive(Drop, Debug)]
pub struct KeyRing {
    grant: Option<Grant>,
}

impl Model for KeyRing {
    ghost use Rattle.group_keys.specs.KeyRing.{Ring, ring_code};

    ghost Value = { Ring };

    ghost coded = { ring_code };

    ghost view = { λ r. r.grant };
}

/// The slot of the ring.
const RING_SLOT: u32 = 1;

/// How many octets its record has.
const RING_LEN: usize = 38;

// The record of a ring.
fn ring_record(grant: &Option<Grant>) -> Record
    ensures octets { result ≡ ring_octets grant.now }
    ensures reads_back { ring_in (ring_octets grant.now) ≡ Some grant.now }
{
    let Some(grant) = grant else {
        return Record::from_octets(&[0; RING_LEN]);
    };
    let mut record = Record::new();
    record.push(1);
    record.push_be_u16(grant.address.number());
    record.push(grant.active.number());
    push_held(&mut record, &grant.keys[0]);
    push_held(&mut record, &grant.keys[1]);
    record
}

// The grant after the flag that says that the node has joined.
fn grant_in(octets: &[u8]) -> Option<Grant>
    requires { length octets.now ≡ 37 }
    ensures { result ≡ grant_in octets.now }
{
    let address = BigEndian::read_u16(octets);
    let (key0, key1) = octets.split_at(3).1.split_at(HELD);
    let key0 = held_in(key0)?;
    let key1 = held_in(key1)?;
    let address = Short::new(address)?;
    let active = KeyIndex::new(octets[2])?;
    let held = if active.number() == 0 { key0 } else { key1 };
    if held.is_none() {
        return None;
    }
    Some(Grant {
        address,
        active,
        keys: [key0, key1],
    })
}

// The ring that a record gives.
fn ring_in(octets: &[u8]) -> Option<Option<Grant>>
    ensures { result ≡ ring_in octets.now }
{
    if octets == [0; RING_LEN].as_slice() {
        return Some(None);
    }
    if octets.len() != RING_LEN || octets[0] != 1 {
        return None;
    }
    let grant = grant_in(octets.split_at(1).1)?;
    Some(Some(grant))
}

// Stores a ring.
fn store_ring<K: Keeper>(keeper: &mut K, grant: &Option<Grant>) -> Result<(), Failed>
    ensures store { Stores (K.store keeper.old) (ring_write grant.now) (is_ok result) (K.store keeper.new) }
    ensures stored { OnOk result (ring_at (get (K.store keeper.new).records ring_slot) ≡ Some grant.now) }
    ensures either { IsOldOrNewRing grant.now (K.store keeper.old).records (K.store keeper.new).records }
    ensures elsewhere { OutsideStays 1 1 (K.store keeper.old) (K.store keeper.new) }
{
    keeper.put(RING_SLOT, &ring_record(grant))
}

impl KeyRing {
    /// The ring that the record at slot 1 gives, none where the slot is empty.
    ///
    /// BadStore exactly where the record has another length than 38 octets, a flag above 1, a joined ring without a key at
    /// its active index, an address above FFFD, or other octets than zeros where nothing is held.
    pub fn open<K: Keeper>(keeper: &K) -> Result<KeyRing, BadStore>
        ensures ring { result ≡ opened (K.store keeper.now).records }
        ensures kept { IfOk result (λ ring. AgreesWith ring (K.store keeper.now).records) }
    {
        let Some(record) = keeper.get(RING_SLOT) else {
            return Ok(KeyRing { grant: None });
        };
        let Some(grant) = ring_in(record.octets()) else {
            return Err(BadStore { slot: RING_SLOT });
        };
        Ok(KeyRing { grant })
    }

    /// The grant with its later changes, None where the node has not joined.
    pub fn grant(&self) -> Option<Grant>
        ensures { result ≡ self.now }
    {
        self.grant
    }

    /// The node's short address, None where it has not joined.
    pub fn joined(&self) -> Option<Short>
        ensures { result ≡ option_map (λ grant. grant.address) self.now }
    {
        self.grant.map(|grant| grant.address)
    }

    /// The key at an index, 0 or 1, None where none is held.
    pub fn key(&self, index: KeyIndex) -> Option<Key>
        ensures { result ≡ key_in_ring self.now index }
    {
        self.grant?.key(index)
    }

    /// The index of the key that seals, None where the node has not joined.
    pub fn active(&self) -> Option<KeyIndex>
        ensures { result ≡ option_map (λ grant. grant.active) self.now }
    {
        self.grant.map(|grant| grant.active)
    }

    /// Stores a ring, and then holds it.
    ///
    /// Only a failed put is an error. The ring is then as it was, but may not be used until it is opened again.
    pub fn keep<K: Keeper>(&mut self, keeper: &mut K, grant: Option<Grant>) -> Result<(), Failed>
        ensures ring { OnOk result (self.new ≡ grant) }
        ensures same { OnErr result (self.new ≡ self.old) }
        ensures store { Stores (K.store keeper.old) (ring_write grant) (is_ok result) (K.store keeper.new) }
        ensures kept { OnOk result (AgreesWith self.new (K.store keeper.new).records) }
        // Whatever became of the put, the slot gives the ring that it gave before or this one.
        ensures either { IsOldRingOrAgrees grant (K.store keeper.old).records (K.store keeper.new).records }
        ensures elsewhere { OutsideStays 1 1 (K.store keeper.old) (K.store keeper.new) }
    {
        store_ring(keeper, &grant)?;
        self.grant = grant;
        Ok(())
    }

    /// Makes the ring equal to a grant.
    ///
    /// Store alone, where the put failed, and then the ring may not be used until it is opened again.
    pub fn install<K: Keeper>(&mut self, keeper: &mut K, grant: &Grant) -> Result<(), RingFault>
        ensures answer { result ≡ stored_result (is_ok result) }
        ensures ring { OnOk result (self.new ≡ Some grant.now) }
        ensures same { OnErr result (self.new ≡ self.old) }
        ensures store { Stores (K.store keeper.old) (ring_write (Some grant.now)) (is_ok result) (K.store keeper.new) }
        ensures kept { OnOk result (AgreesWith self.new (K.store keeper.new).records) }
        ensures either { IsOldRingOrAgrees (Some grant.now) (K.store keeper.old).records (K.store keeper.new).records }
        ensures elsewhere { OutsideStays 1 1 (K.store keeper.old) (K.store keeper.new) }
    {
        self.keep(keeper, Some(*grant))
            .map_err(|_| RingFault::Store)
    }

    /// Puts a key at an index, 0 or 1, of a node that has joined. A key that was there is replaced.
    ///
    /// Store alone, where the put failed, and then the ring may not be used until it is opened again.
    pub fn put<K: Keeper>(
        &mut self,
        keeper: &mut K,
        index: KeyIndex,
        key: &Key,
    ) -> Result<(), RingFault>
        requires joined { IsSome self.old }
        ensures answer { result ≡ stored_result (is_ok result) }
        ensures ring { OnOk result (self.new ≡ with_key self.old index key.now) }
        ensures same { OnErr result (self.new ≡ self.old) }
        ensures store { Stores (K.store keeper.old) (ring_write (with_key self.old index key.now)) (is_ok result)
            (K.store keeper.new) }
        ensures kept { OnOk result (AgreesWith self.new (K.store keeper.new).records) }
        ensures either { IsOldRingOrAgrees (with_key self.old index key.now) (K.store keeper.old).records
            (K.store keeper.new).records }
        ensures elsewhere { OutsideStays 1 1 (K.store keeper.old) (K.store keeper.new) }
    {
        let grant = self.grant.map(|grant| grant.with_key(index, key));
        self.keep(keeper, grant).map_err(|_| RingFault::Store)
    }

    /// Makes the key at an index, 0 or 1, the one that seals.
    ///
    /// NotHeld exactly where no key is held there. Store where the put failed, and then the ring may not be used until it is
    /// opened again. After each error the ring is as it was.
    pub fn activate<K: Keeper>(&mut self, keeper: &mut K, index: KeyIndex) -> Result<(), RingFault>
        ensures answer { result ≡ activate_result self.old index (is_stored result) }
        ensures ring { self.new ≡ activate_after self.old index (is_stored result) }
        ensures store { Stores (K.store keeper.old) (activate_write self.old index) (is_stored result)
            (K.store keeper.new) }
        ensures kept { AgreesWith self.old (K.store keeper.old).records
            → OnTrue (is_stored result) (AgreesWith self.new (K.store keeper.new).records) }
        ensures either { IsOldRingOrAgrees (with_active self.old index) (K.store keeper.old).records
            (K.store keeper.new).records }
        ensures elsewhere { OutsideStays 1 1 (K.store keeper.old) (K.store keeper.new) }
    {
        if self.key(index).is_none() {
            return Err(RingFault::NotHeld);
        }
        self.set_active(keeper, index).map_err(|_| RingFault::Store)
    }

    /// Makes the key at an index, 0 or 1, the one that seals, where one is held.
    ///
    /// Only a failed put is an error. The ring is then as it was, but may not be used until it is opened again.
    pub fn set_active<K: Keeper>(&mut self, keeper: &mut K, index: KeyIndex) -> Result<(), Failed>
        requires held { is_some (key_in_ring self.old index) ≡ true }
        ensures ring { OnOk result (self.new ≡ with_active self.old index) }
        ensures same { OnErr result (self.new ≡ self.old) }
        ensures store { Stores (K.store keeper.old) (ring_write (with_active self.old index)) (is_ok result)
            (K.store keeper.new) }
        ensures kept { OnOk result (AgreesWith self.new (K.store keeper.new).records) }
        ensures either { IsOldRingOrAgrees (with_active self.old index) (K.store keeper.old).records
            (K.store keeper.new).records }
        ensures elsewhere { OutsideStays 1 1 (K.store keeper.old) (K.store keeper.new) }
    {
        let grant = self.grant.map(|grant| grant.with_active(index));
        self.keep(keeper, grant)
    }

    /// Leaves no address and no key.
    ///
    /// Store alone, where the put failed, and then the ring may not be used until it is opened again.
    pub fn drop_all<K: Keeper>(&mut self, keeper: &mut K) -> Result<(), RingFault>
        ensures answer { result ≡ stored_result (is_ok result) }
        ensures ring { OnOk result (self.new ≡ None) }
        ensures same { OnErr result (self.new ≡ self.old) }
        ensures store { Stores (K.store keeper.old) (ring_write None) (is_ok result) (K.store keeper.new) }
        ensures kept { OnOk result (AgreesWith self.new (K.store keeper.new).records) }
        ensures either { IsOldRingOrAgrees None (K.store keeper.old).records (K.store keeper.new).records }
        ensures elsewhere { OutsideStays 1 1 (K.store keeper.old) (K.store keeper.new) }
    {
        self.keep(keeper, None).map_err(|_| RingFault::Store)
    }
}
