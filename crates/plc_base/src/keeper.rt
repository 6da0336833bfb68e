//! The store of a node: a record of octets at each slot, which outlasts a loss of power.
ghost use Rattle.std.specs.Prelude.{◌≡◌, is_ok};
ghost use Rattle.std.specs.FinMap as map;
ghost use Rattle.plc_base.specs.Keeper.{Store, IsSlot, Puts};

use crate::{Failed, Record};
use thiserror::Error;

/// A loss of power that is still to come, at one of the next puts.
#[derive(Clone, Copy, Debug, PartialEq, Eq)]
pub struct Cut {
    /// Which put it comes at, counted from 1 for the next one.
    pub nth: u16,
    /// Whether that put still writes its slot.
    pub keeps_new: bool,
}

/// The record at `slot` has no reading: no node writes such a record there.
#[derive(Clone, Copy, Debug, PartialEq, Eq, Error)]
#[error("the record at slot {slot} has no reading")]
pub struct BadStore {
    /// The slot of that record.
    pub slot: u32,
}

/// A store of records by slot.
///
/// The slots are 1 to 6, 0100 to 013F, 0200 to 023F, 0300 to 031F and 1000 to 13E6 (hexadecimal).
pub trait Keeper {
    /// The records that it holds and, where a failed put is decided at the next opening, those that one may find in their place; how often it has failed,
    /// and, where it is known, the loss of power that is to come.
    ghost store: { Self → Store };

    /// The record at a slot, None exactly where there is none.
    fn get(&self, slot: u32) -> Option<Record>
        requires { IsSlot slot }
        ensures { result ≡ map.get (store self.now).records slot };

    /// Writes the record at a slot, and changes no other slot.
    ///
    /// After `Failed`, which the object has counted, the slot has the record from before or the new one. The next opening may find the other one of the two:
    /// a node is not restarted over such a keeper before it was opened again.
    fn put(&mut self, slot: u32, octets: &Record) -> Result<(), Failed>
        requires { IsSlot slot }
        ensures { Puts (store self.old) slot octets.now (is_ok result) (store self.new) };
}
