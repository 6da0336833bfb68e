//! The number of the route messages that a node begins.
ghost use Rattle.std.specs.Prelude.{◌≡◌, ◌+◌, ◌<◌, ◌≤◌, IfOk, OnOk, OnErr, is_ok, Ok};
ghost use Rattle.std.specs.Bool.{OnTrue};
ghost use Rattle.plc_base.specs.Keeper.{Stores, OutsideStays, IsOldOrNew};
ghost use Rattle.routing_set.specs.OwnNumber.{Numbering, AgreesWith, IsOldLimitOrAgrees, opened, numbering_at, limit_write, advance_write, advanced};
ghost use Rattle.routing_set.specs.OwnNumber.{next_result, next_write, next_after, is_stored, preset_result};

use crate::NumberFault;
use plc_base::{BadStore, Failed, Keeper};
use std::marker::Model;
use store_tables::Numbering as Numbers;

/// How far the limit that is stored is raised ahead of the numbers that are given out (a rule of this network).
pub const OWN_NUMBERS_AHEAD: u32 = 32;

/// Gives out the numbers of the route messages that a node begins, each higher than the last, also over losses of power: a
/// limit is stored ahead, and a new start goes on at it (the sequence number of LOADng).
///
/// A contract sees the limit and the last number.
#[derive(Drop, Debug)]
pub struct OwnNumber {
    // The number that it gives out next is the last one here.
    numbers: Numbers<3, 2, 1, OWN_NUMBERS_AHEAD>,
}

impl Model for OwnNumber {
    ghost use Rattle.std.specs.Prelude.{◌≤◌};
    ghost use Rattle.routing_set.specs.OwnNumber.{Numbering, numbering_code, numbering_of};

    ghost Value = { Numbering };

    ghost coded = { numbering_code };

    ghost view = { λ n. numbering_of n.numbers };

    ghost invariant = { λ n. n.numbers.next ≤ n.numbers.limit };
}

impl OwnNumber {
    /// The number that the record at slot 3 gives: the last one is the stored limit, 1 where none is stored.
    ///
    /// BadStore exactly where the record has another length than 2 octets or is 0.
    pub fn open<K: Keeper>(keeper: &K) -> Result<OwnNumber, BadStore>
        ensures number { result ≡ opened (K.store keeper.now).records }
        ensures kept { IfOk result (λ number. AgreesWith number (K.store keeper.now).records) }
        // A number that was kept goes on at its limit.
        ensures reopened { (numbering : Numbering) → AgreesWith numbering (K.store keeper.now).records
            → result ≡ Ok (numbering_at numbering.limit) }
    {
        let numbers = Numbers::open(keeper)?;
        Ok(OwnNumber { numbers })
    }

    /// The number that was given out last. No number is left exactly where it is 65,535.
    pub fn last(&self) -> u16
        ensures { result ≡ self.now.last }
    {
        self.numbers.next() as u16
    }

    /// Gives out the number after the last one. Where it passes the limit, the smaller of last + `OWN_NUMBERS_AHEAD` and 65,535 is stored
    /// first.
    ///
    /// Only a failed put is an error. The number is then as it was, but may not be used until it is opened again.
    pub fn advance<K: Keeper>(&mut self, keeper: &mut K) -> Result<u16, Failed>
        requires left { self.old.last < 65535 }
        requires kept { AgreesWith self.old (K.store keeper.old).records }
        ensures number { IfOk result (λ number. number ≡ self.old.last + 1) }
        ensures numbering { OnOk result (self.new ≡ advanced self.old) }
        ensures same { OnErr result (self.new ≡ self.old) }
        ensures store { Stores (K.store keeper.old) (advance_write self.old) (is_ok result) (K.store keeper.new) }
        ensures kept { OnOk result (AgreesWith self.new (K.store keeper.new).records) }
        // Whatever became of the put, the record is that of the number before or of the one after.
        ensures either { IsOldOrNew AgreesWith self.old (advanced self.old) (K.store keeper.new).records }
        ensures elsewhere { OutsideStays 3 3 (K.store keeper.old) (K.store keeper.new) }
    {
        let last = self.numbers.reserve(keeper, 1)?;
        Ok(last as u16 + 1)
    }

    /// Gives out the number after the last one. Where it passes the limit, the smaller of last + `OWN_NUMBERS_AHEAD` and 65,535 is stored
    /// first.
    ///
    /// SeqSpent exactly where the last number is 65,535. Store where that put failed, and then the number may not be used
    /// until it is opened again. After each error the number is as it was.
    pub fn next<K: Keeper>(&mut self, keeper: &mut K) -> Result<u16, NumberFault>
        requires { AgreesWith self.old (K.store keeper.old).records }
        ensures answer { result ≡ next_result self.old (is_stored result) }
        ensures numbering { self.new ≡ next_after self.old (is_stored result) }
        ensures store { Stores (K.store keeper.old) (next_write self.old) (is_stored result) (K.store keeper.new) }
        ensures kept { OnTrue (is_stored result) (AgreesWith self.new (K.store keeper.new).records) }
        ensures either { IsOldOrNew AgreesWith self.old (advanced self.old) (K.store keeper.new).records }
        ensures elsewhere { OutsideStays 3 3 (K.store keeper.old) (K.store keeper.new) }
    {
        if self.last() == u16::MAX {
            return Err(NumberFault::SeqSpent);
        }
        self.advance(keeper).map_err(|_| NumberFault::Store)
    }

    /// Stores a limit, and goes on at it. It may be lower than the limit before.
    ///
    /// Only a failed put is an error. The number is then as it was, but may not be used until it is opened again.
    pub fn set_limit<K: Keeper>(&mut self, keeper: &mut K, value: u16) -> Result<(), Failed>
        requires { 1 ≤ value }
        ensures numbering { OnOk result (self.new ≡ numbering_at value) }
        ensures same { OnErr result (self.new ≡ self.old) }
        ensures store { Stores (K.store keeper.old) (limit_write value) (is_ok result) (K.store keeper.new) }
        ensures kept { OnOk result (AgreesWith self.new (K.store keeper.new).records) }
        ensures either { IsOldLimitOrAgrees (numbering_at value) (K.store keeper.old).records
            (K.store keeper.new).records }
        ensures elsewhere { OutsideStays 3 3 (K.store keeper.old) (K.store keeper.new) }
    {
        self.numbers.set_limit(keeper, u32::from(value))
    }

    /// Stores the limit `value`, at least 1, and makes it the last number.
    ///
    /// Store alone, where that put failed, and then the number may not be used until it is opened again.
    pub fn preset<K: Keeper>(&mut self, keeper: &mut K, value: u16) -> Result<(), NumberFault>
        requires { 1 ≤ value }
        ensures answer { result ≡ preset_result (is_ok result) }
        ensures numbering { OnOk result (self.new ≡ numbering_at value) }
        ensures same { OnErr result (self.new ≡ self.old) }
        ensures store { Stores (K.store keeper.old) (limit_write value) (is_ok result) (K.store keeper.new) }
        ensures kept { OnOk result (AgreesWith self.new (K.store keeper.new).records) }
        ensures either { IsOldLimitOrAgrees (numbering_at value) (K.store keeper.old).records
            (K.store keeper.new).records }
        ensures elsewhere { OutsideStays 3 3 (K.store keeper.old) (K.store keeper.new) }
    {
        self.set_limit(keeper, value)
            .map_err(|_| NumberFault::Store)
    }
}
