//! A number that has a slot of a store to itself.
ghost use Rattle.std.specs.Prelude.{◌≡◌, ◌<◌, ◌≤◌, ◌^◌, min, Some, is_ok, IfOk, IfSome, OnOk};
ghost use Rattle.plc_base.specs.Keeper.{Stores, OutsideStays};
ghost use Rattle.store_tables.specs.NumberSlots.{IsNumberSlot, IsOldOrNewNumber, number_in, stored_number, read_result, number_write};
ghost use Rattle.byteorder.specs.Endian.{big_bytes};

use byteorder::{BigEndian, ByteOrder};
use plc_base::{BadStore, Failed, Keeper, Record};

/// Where a number is stored that has a slot to itself, as the limit of a counter, and how. The highest octet comes first.
#[derive(Clone, Copy, Debug)]
pub struct NumberSlot {
    /// The slot.
    pub slot: u32,
    /// How many octets the number has: 2 or 4.
    pub width: usize,
    /// The number where none is stored.
    pub first: u32,
    /// The least number that has a reading.
    pub least: u32,
}

impl NumberSlot {
    /// The number that the record at the slot gives: the first one where there is none.
    ///
    /// BadStore exactly where the record has another length than the number, or is below the least one.
    pub fn read<K: Keeper>(&self, keeper: &K) -> Result<u32, BadStore>
        requires { IsNumberSlot self.now }
        ensures number { result ≡ read_result self.now (stored_number self.now (K.store keeper.now).records) }
        ensures fits { IfOk result (λ number. number < 256 ^ self.now.width) }
        ensures low { IfOk result (λ number. min self.now.first self.now.least ≤ number) }
    {
        let Some(octets) = keeper.get(self.slot) else {
            return Ok(self.first);
        };
        match self.number_in(octets.octets()) {
            Some(number) => Ok(number),
            None => Err(BadStore { slot: self.slot }),
        }
    }

    /// Stores a number.
    ///
    /// After `Failed` the slot has the number from before or the new one.
    pub fn store<K: Keeper>(&self, keeper: &mut K, number: u32) -> Result<(), Failed>
        requires slot { IsNumberSlot self.now }
        requires fits { number < 256 ^ self.now.width }
        requires least { self.now.least ≤ number }
        ensures store { Stores (K.store keeper.old) (Some (number_write self.now number)) (is_ok result)
            (K.store keeper.new) }
        ensures stored { OnOk result (stored_number self.now (K.store keeper.new).records ≡ Some number) }
        // Whatever became of the put, the number is that from before or the new one.
        ensures either { IsOldOrNewNumber self.now number (K.store keeper.old).records (K.store keeper.new).records }
        ensures elsewhere { OutsideStays self.now.slot self.now.slot (K.store keeper.old) (K.store keeper.new) }
    {
        keeper.put(self.slot, &self.record(number))
    }

    // The number that a record gives.
    fn number_in(&self, octets: &[u8]) -> Option<u32>
        requires { IsNumberSlot self.now }
        ensures number { result ≡ number_in self.now (Some octets.now) }
        ensures fits { IfSome result (λ number. number < 256 ^ self.now.width) }
        ensures low { IfSome result (λ number. self.now.least ≤ number) }
    {
        if octets.len() != self.width {
            return None;
        }
        let number = BigEndian::read_uint(octets, self.width) as u32;
        if number < self.least {
            return None;
        }
        Some(number)
    }

    // The record of a number.
    fn record(&self, number: u32) -> Record
        requires slot { IsNumberSlot self.now }
        requires fits { number < 256 ^ self.now.width }
        ensures { result ≡ big_bytes self.now.width number }
    {
        let mut octets = [0; 4];
        BigEndian::write_uint(&mut octets, u64::from(number), self.width);
        Record::from_octets(&octets[..self.width])
    }
}
