//! Numbers that are given out once each.
ghost use Rattle.std.specs.Prelude.{◌≡◌, ◌⊎◌, ◌+◌, ◌≤◌, ◌<◌, ◌^◌, IfOk, IfErr, OnOk, OnErr, None, is_ok};
ghost use Rattle.std.specs.FinMap as map;
ghost use Rattle.plc_base.specs.Keeper.{Stores, OutsideStays, IsOldOrNew};
ghost use Rattle.store_tables.specs.Numberings.{AgreesWith, IsOldLimitOrAgrees, limit_at, limit_in, stored_limit, opened, greatest, reserve_write, reserved};
ghost use Rattle.store_tables.specs.Numberings.{limit_write, counting_at};
ghost use Rattle.store_tables.specs.NumberSlots.{IsNumberSlot};

use crate::NumberSlot;
use plc_base::{BadStore, Failed, Keeper};
use std::marker::Model;

/// Gives out each number once, even over losses of power: a limit is stored at `SLOT`, in `WIDTH` octets, ahead of the numbers that are given
/// out, and a new start goes on at the stored limit. The first limit is `LEAST`.
///
/// A contract sees the limit and the next number.
#[derive(Drop, Debug)]
pub struct Numbering<const SLOT: u32, const WIDTH: usize, const LEAST: u32, const STRIDE: u32> {
    limit: u32,
    next: u32,
}

impl<const SLOT: u32, const WIDTH: usize, const LEAST: u32, const STRIDE: u32> Model
    for Numbering<SLOT, WIDTH, LEAST, STRIDE> {
    ghost use Rattle.std.specs.Prelude.{◌≤◌, ◌<◌, ◌^◌};
    ghost use Rattle.store_tables.specs.Numberings.{Counting, counting_code};

    ghost Value = { Counting };

    ghost coded = { counting_code };

    ghost view = { λ c. record { limit = c.limit; next = c.next } };

    ghost invariant = { λ c. (c.next ≤ c.limit) × (c.limit < 256 ^ WIDTH) × (LEAST ≤ c.limit) };
}

impl<const SLOT: u32, const WIDTH: usize, const LEAST: u32, const STRIDE: u32> Numbering<
    SLOT,
    WIDTH,
    LEAST,
    STRIDE,
> {
    /// The numbering before its first number, which is `LEAST`: no limit is stored.
    pub fn new() -> Numbering<SLOT, WIDTH, LEAST, STRIDE>
        requires { IsNumberSlot (limit_at SLOT WIDTH LEAST) }
        ensures { result ≡ counting_at LEAST }
    {
        Numbering {
            limit: LEAST,
            next: LEAST,
        }
    }

    /// The numbering that the record at the slot gives: the next number is the stored limit, `LEAST` where none is stored.
    ///
    /// BadStore exactly where the record has another length than `WIDTH` octets, or a number below `LEAST`.
    pub fn open<K: Keeper>(keeper: &K) -> Result<Numbering<SLOT, WIDTH, LEAST, STRIDE>, BadStore>
        requires { IsNumberSlot (limit_at SLOT WIDTH LEAST) }
        ensures numbering { result ≡ opened (limit_at SLOT WIDTH LEAST) (K.store keeper.now).records }
        ensures kept { IfOk result (λ numbering. AgreesWith (limit_at SLOT WIDTH LEAST) numbering (K.store keeper.now).records) }
        ensures bad { IfErr result (λ bad. (bad.slot ≡ SLOT)
            × (limit_in (limit_at SLOT WIDTH LEAST) (map.get (K.store keeper.now).records SLOT) ≡ None)) }
        ensures limit { IfOk result (λ numbering.
            numbering.next ≡ stored_limit (limit_at SLOT WIDTH LEAST) (K.store keeper.now).records) }
        ensures fits { IfOk result (λ numbering. numbering.next ≤ greatest WIDTH) }
    {
        let limit = limit_at(SLOT, WIDTH, LEAST).read(keeper)?;
        Ok(Numbering { limit, next: limit })
    }

    /// The number that is given out next, where one is left.
    pub fn next(&self) -> u32
        ensures value { result ≡ self.now.next }
        ensures fits { result ≤ greatest WIDTH }
    {
        self.next
    }

    /// How many numbers are left: the greatest of `WIDTH` octets, which is never given out, minus the next one.
    pub fn left(&self) -> u32
        requires { IsNumberSlot (limit_at SLOT WIDTH LEAST) }
        ensures { result + self.now.next ≡ greatest WIDTH }
    {
        greatest(WIDTH) - self.next
    }

    /// Gives out this many numbers in a row, and answers the first. Where they pass the limit, the smaller of limit + `STRIDE`
    /// and the greatest number of `WIDTH` octets is stored first.
    ///
    /// Only a failed put is an error. The numbering is then as it was, but may not be used until it is opened again.
    pub fn reserve<K: Keeper>(&mut self, keeper: &mut K, count: u32) -> Result<u32, Failed>
        requires slot { IsNumberSlot (limit_at SLOT WIDTH LEAST) }
        requires few { count ≤ STRIDE }
        requires left { self.old.next + count ≤ greatest WIDTH }
        requires kept { AgreesWith (limit_at SLOT WIDTH LEAST) self.old (K.store keeper.old).records }
        ensures number { IfOk result (λ number. number ≡ self.old.next) }
        ensures numbering { OnOk result (self.new ≡ reserved (limit_at SLOT WIDTH LEAST) STRIDE self.old count) }
        ensures same { OnErr result (self.new ≡ self.old) }
        ensures store { Stores (K.store keeper.old) (reserve_write (limit_at SLOT WIDTH LEAST) STRIDE self.old count)
            (is_ok result) (K.store keeper.new) }
        ensures kept { OnOk result (AgreesWith (limit_at SLOT WIDTH LEAST) self.new (K.store keeper.new).records) }
        // Whatever became of the put, the record is that of the numbering before or of the one after.
        ensures either { IsOldOrNew (AgreesWith (limit_at SLOT WIDTH LEAST)) self.old
            (reserved (limit_at SLOT WIDTH LEAST) STRIDE self.old count) (K.store keeper.new).records }
        ensures elsewhere { OutsideStays SLOT SLOT (K.store keeper.old) (K.store keeper.new) }
        ensures fits { self.new.next ≤ greatest WIDTH }
    {
        let number = self.next;
        if self.limit < number + count {
            let limit = self.limit.saturating_add(STRIDE).min(greatest(WIDTH));
            limit_at(SLOT, WIDTH, LEAST).store(keeper, limit)?;
            self.limit = limit;
        }
        self.next = number + count;
        Ok(number)
    }

    /// Stores a limit, and goes on at it. It may be lower than the limit before.
    ///
    /// Only a failed put is an error. The numbering is then as it was, but may not be used until it is opened again.
    pub fn set_limit<K: Keeper>(&mut self, keeper: &mut K, value: u32) -> Result<(), Failed>
        requires slot { IsNumberSlot (limit_at SLOT WIDTH LEAST) }
        requires fits { value < 256 ^ WIDTH }
        requires least { LEAST ≤ value }
        ensures numbering { OnOk result (self.new ≡ counting_at value) }
        ensures same { OnErr result (self.new ≡ self.old) }
        ensures store { Stores (K.store keeper.old) (limit_write (limit_at SLOT WIDTH LEAST) value) (is_ok result)
            (K.store keeper.new) }
        ensures kept { OnOk result (AgreesWith (limit_at SLOT WIDTH LEAST) self.new (K.store keeper.new).records) }
        ensures either { IsOldLimitOrAgrees (limit_at SLOT WIDTH LEAST) (counting_at value) (K.store keeper.old).records
            (K.store keeper.new).records }
        ensures elsewhere { OutsideStays SLOT SLOT (K.store keeper.old) (K.store keeper.new) }
    {
        limit_at(SLOT, WIDTH, LEAST).store(keeper, value)?;
        self.limit = value;
        self.next = value;
        Ok(())
    }
}

// Where a limit is stored.
fn limit_at(slot: u32, width: usize, least: u32) -> NumberSlot
    ensures { result ≡ limit_at slot width least }
{
    NumberSlot {
        slot,
        width,
        first: least,
        least,
    }
}

// The greatest number of 2 or 4 octets.
fn greatest(width: usize) -> u32
    requires { (width ≡ 2) ⊎ (width ≡ 4) }
    ensures { result ≡ greatest width }
{
    if width == 2 {
        u32::from(u16::MAX)
    } else {
        u32::MAX
    }
}
