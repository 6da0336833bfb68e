//! The counter of the frames that a node sends.
ghost use Rattle.std.specs.Prelude.{◌≡◌, ◌+◌, ◌<◌, ◌≤◌, IfOk, OnOk, OnErr, is_ok, List, ℕ};
ghost use Rattle.std.specs.Bool.{OnTrue};
ghost use Rattle.plc_base.specs.Keeper.{Stores, OutsideStays, IsOldOrNew};
ghost use Rattle.frame_counters.specs.SendCounter.{AgreesWith, IsOldLimitOrAgrees, stored_limit, opened, reserve_write, reserved, limit_write, counting_at};
ghost use Rattle.frame_counters.specs.SendCounter.{take_result, take_write, take_after, is_stored, preset_result};
ghost use Rattle.store_tables.specs.Numberings.{AllBelow};
ghost use Rattle.frame_counters.specs.Given.{Gives};
ghost use Rattle.plc_base.specs.declared.limits.TheConstants.{GREATEST_COUNTER};
ghost use Rattle.frame_counters.specs.declared.send_counter.TheConstants.{COUNTERS_AHEAD};

use crate::CounterFault;
use plc_base::{BadStore, Failed, Keeper};
use std::marker::Model;
use store_tables::Numbering;

/// How far the limit that is stored is raised ahead of the counters that are given out, and the most that one call gives out (a rule
/// of this network).
pub const COUNTERS_AHEAD: u32 = 1_024;

/// Gives out each counter once, also over losses of power: a limit is stored ahead of the counters that are given out,
/// and a new start goes on at the stored limit (the frame counter of IEEE 802.15.4-2006, 7.6.2).
///
/// A contract sees the limit and the next counter.
#[derive(Drop, Debug)]
pub struct SendCounter {
    numbering: Numbering<2, 4, 0, COUNTERS_AHEAD>,
}

impl Model for SendCounter {
    ghost use Rattle.std.specs.Prelude.{◌≤◌};
    ghost use Rattle.frame_counters.specs.SendCounter.{Counting, counting_code};

    ghost Value = { Counting };

    ghost coded = { counting_code };

    ghost view = { λ c. c.numbering };

    ghost invariant = { λ c. c.numbering.next ≤ c.numbering.limit };
}

impl SendCounter {
    /// The counter that the record at slot 2 gives: the next counter is the stored limit, 0 where none is stored.
    ///
    /// BadStore exactly where the record has another length than 4 octets.
    pub fn open<K: Keeper>(keeper: &K) -> Result<SendCounter, BadStore>
        ensures counter { result ≡ opened (K.store keeper.now).records }
        ensures kept { IfOk result (λ counter. AgreesWith counter (K.store keeper.now).records) }
        ensures limit { IfOk result (λ counter. counter.next ≡ stored_limit (K.store keeper.now).records) }
        ensures fits { IfOk result (λ counter. counter.next ≤ GREATEST_COUNTER) }
    {
        let numbering = Numbering::open(keeper)?;
        Ok(SendCounter { numbering })
    }

    /// How many counters are left: 4,294,967,295 minus the next one.
    pub fn left(&self) -> u32
        ensures { result + self.now.next ≡ GREATEST_COUNTER }
    {
        self.numbering.left()
    }

    /// Gives out this many counters in a row, and answers the first. Where they pass the limit, a higher one is stored first.
    ///
    /// Only a failed put is an error. The counter is then as it was, but may not be used until it is opened again.
    pub fn reserve<K: Keeper>(&mut self, keeper: &mut K, count: u32) -> Result<u32, Failed>
        requires few { count ≤ COUNTERS_AHEAD }
        requires left { self.old.next + count ≤ GREATEST_COUNTER }
        requires kept { AgreesWith self.old (K.store keeper.old).records }
        ensures number { IfOk result (λ number. number ≡ self.old.next) }
        // It is above all that was given out before, over any reservations, failed puts and new starts.
        ensures fresh { (given : List ℕ) → Gives given (Some self.old) (K.store keeper.old).records
            → IfOk result (λ number. AllBelow number given) }
        ensures counter { OnOk result (self.new ≡ reserved self.old count) }
        ensures same { OnErr result (self.new ≡ self.old) }
        ensures store { Stores (K.store keeper.old) (reserve_write self.old count) (is_ok result) (K.store keeper.new) }
        ensures kept { OnOk result (AgreesWith self.new (K.store keeper.new).records) }
        // Whatever became of the put, the record is that of the counter before or of the one after.
        ensures either { IsOldOrNew AgreesWith self.old (reserved self.old count) (K.store keeper.new).records }
        ensures elsewhere { OutsideStays 2 2 (K.store keeper.old) (K.store keeper.new) }
        ensures fits { self.new.next ≤ GREATEST_COUNTER }
    {
        self.numbering.reserve(keeper, count)
    }

    /// Gives out the next counter. Where it equals the limit, the smaller of limit + 1,024 and 4,294,967,295 is stored first.
    ///
    /// Spent exactly where none is left. Store where that put failed, and then the counter may not be used until it is
    /// opened again.
    pub fn take<K: Keeper>(&mut self, keeper: &mut K) -> Result<u32, CounterFault>
        requires { AgreesWith self.old (K.store keeper.old).records }
        ensures answer { result ≡ take_result self.old (is_stored result) }
        ensures counter { self.new ≡ take_after self.old (is_stored result) }
        ensures store { Stores (K.store keeper.old) (take_write self.old) (is_stored result) (K.store keeper.new) }
        ensures below { IfOk result (λ number. number < stored_limit (K.store keeper.new).records) }
        // It is above all that was given out before, over any takes, failed puts and new starts.
        ensures fresh { (given : List ℕ) → Gives given (Some self.old) (K.store keeper.old).records
            → IfOk result (λ number. AllBelow number given) }
        ensures kept { OnTrue (is_stored result) (AgreesWith self.new (K.store keeper.new).records) }
        ensures either { IsOldOrNew AgreesWith self.old (reserved self.old 1) (K.store keeper.new).records }
        ensures elsewhere { OutsideStays 2 2 (K.store keeper.old) (K.store keeper.new) }
        ensures fits { self.new.next ≤ GREATEST_COUNTER }
    {
        if self.left() == 0 {
            return Err(CounterFault::Spent);
        }
        self.reserve(keeper, 1).map_err(|_| CounterFault::Store)
    }

    /// Stores a limit, and goes on at it. It may be lower than the limit before.
    ///
    /// Only a failed put is an error. The counter is then as it was, but may not be used until it is opened again.
    pub fn set_limit<K: Keeper>(&mut self, keeper: &mut K, value: u32) -> Result<(), Failed>
        ensures counter { OnOk result (self.new ≡ counting_at value) }
        ensures same { OnErr result (self.new ≡ self.old) }
        ensures store { Stores (K.store keeper.old) (limit_write value) (is_ok result) (K.store keeper.new) }
        ensures kept { OnOk result (AgreesWith self.new (K.store keeper.new).records) }
        ensures either { IsOldLimitOrAgrees (counting_at value) (K.store keeper.old).records
            (K.store keeper.new).records }
        ensures elsewhere { OutsideStays 2 2 (K.store keeper.old) (K.store keeper.new) }
    {
        self.numbering.set_limit(keeper, value)
    }

    /// Stores the limit `value` and sets the next counter to it.
    ///
    /// Store alone, where that put failed, and then the counter may not be used until it is opened again.
    pub fn preset<K: Keeper>(&mut self, keeper: &mut K, value: u32) -> Result<(), CounterFault>
        ensures answer { result ≡ preset_result (is_ok result) }
        ensures counter { OnOk result (self.new ≡ counting_at value) }
        ensures same { OnErr result (self.new ≡ self.old) }
        ensures store { Stores (K.store keeper.old) (limit_write value) (is_ok result) (K.store keeper.new) }
        ensures kept { OnOk result (AgreesWith self.new (K.store keeper.new).records) }
        ensures either { IsOldLimitOrAgrees (counting_at value) (K.store keeper.old).records
            (K.store keeper.new).records }
        ensures elsewhere { OutsideStays 2 2 (K.store keeper.old) (K.store keeper.new) }
    {
        self.set_limit(keeper, value)
            .map_err(|_| CounterFault::Store)
    }
}
