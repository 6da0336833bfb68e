//! A keeper in memory, which loses power at the put that it is set to.
ghost use Rattle.std.specs.Prelude.{◌≡◌, ◌<◌, ◌≤◌, Some, None, IfOk, vec_len, vec_capacity};
ghost use Rattle.std.specs.FinMap as map;
ghost use Rattle.plc_base.specs.Keeper.{Store, IsSlot};
ghost use Rattle.plc_base.specs.Cells.{place_of, records_in};

use crate::{Cut, Failed, Keeper, Record};
use std::alloc::{AllocError, Global};
use std::marker::Model;

/// A keeper over memory that is reserved once. The loss of power that is to come is known.
///
/// A contract sees its records as a finite map from slot to octets. A get takes the same time at each slot, and so does a put, but for the cells
/// before that of its slot, which are made once.
#[derive(Drop)]
pub struct MemKeeper {
    // Up to the last place that was written: all were reserved, and memory that is not used yet costs nothing.
    cells: Vec<Option<Record>>,
    faults: u64,
    cut: Option<Cut>,
}

impl Model for MemKeeper {
    ghost use Rattle.std.specs.Prelude.{◌≤◌, Some, None, vec_len, vec_capacity};
    ghost use Rattle.plc_base.specs.Keeper.{Store, store_code};
    ghost use Rattle.plc_base.specs.Cells.{records_in};

    ghost Value = { Store };

    ghost coded = { store_code };

    ghost view = { λ k. record { records = records_in k.cells.items; pending = None; faults = k.faults; known_cut = Some k.cut; listed = None } };

    ghost invariant = { λ k. (vec_len k.cells ≤ 1165) × (1165 ≤ vec_capacity k.cells) };
}

/// How many slots there are.
const SLOTS: usize = 1165;

// The place of a slot among all slots. A node has a mark and a rank for each neighbour: the two stand side by side, so that few cells are made.
fn place_of(slot: u32) -> usize
    requires { IsSlot slot }
    ensures value { result ≡ place_of slot }
    ensures within { result < 1165 }
{
    let place = match slot {
        0..=0x00FF => slot - 1,
        0x0100..=0x01FF => 2 * (slot - 0x0100) + 6,
        0x0200..=0x02FF => 2 * (slot - 0x0200) + 7,
        0x0300..=0x0FFF => slot - 0x0300 + 134,
        _ => slot - 0x1000 + 166,
    };
    place as usize
}

// Makes the cells up to a place, each without a record.
fn reach(cells: &mut Vec<Option<Record>>, place: usize)
    requires place { place < 1165 }
    requires within { vec_len cells.old ≤ 1165 }
    requires reserved { 1165 ≤ vec_capacity cells.old }
    ensures there { place < vec_len cells.new }
    ensures records { records_in cells.new.items ≡ records_in cells.old.items }
    ensures within { vec_len cells.new ≤ 1165 }
    ensures reserved { 1165 ≤ vec_capacity cells.new }
{
    while cells.len() <= place {
        // All cells were reserved.
        cells.push(None).unwrap();
    }
}

impl MemKeeper {
    /// A keeper with no record and no loss of power to come. It fails only for lack of memory.
    pub fn new(alloc: Global) -> Result<MemKeeper, AllocError>
        ensures { IfOk result (λ keeper. keeper ≡ record { records = map.empty; pending = None; faults = 0; known_cut = Some None; listed = None }) }
    {
        Ok(MemKeeper {
            cells: Vec::with_capacity(alloc, SLOTS)?,
            faults: 0,
            cut: None,
        })
    }

    /// Makes the `nth` put from now on fail and leave the new record, or the old one. It replaces an earlier cut.
    pub fn cut(&mut self, nth: u16, keep_new: bool)
        requires { 1 ≤ nth }
        ensures { self.new ≡ record self.old { known_cut = Some (Some (record { nth = nth; keeps_new = keep_new })) } }
    {
        self.cut = Some(Cut {
            nth,
            keeps_new: keep_new,
        });
    }

    fn write(&mut self, slot: u32, octets: &Record)
        requires { IsSlot slot }
        ensures { self.new ≡ record self.old { records = map.insert self.old.records slot octets.now } }
    {
        let place = place_of(slot);
        reach(&mut self.cells, place);
        self.cells[place] = Some(octets.copied());
    }
}

impl Keeper for MemKeeper {
    ghost store = { λ k. k };

    fn get(&self, slot: u32) -> Option<Record> {
        let place = place_of(slot);
        if place >= self.cells.len() {
            return None;
        }
        self.cells[place].as_ref().map(|record| record.copied())
    }

    fn put(&mut self, slot: u32, octets: &Record) -> Result<(), Failed> {
        match self.cut {
            None => {
                self.write(slot, octets);
                Ok(())
            }
            Some(cut) if cut.nth > 1 => {
                self.cut = Some(Cut {
                    nth: cut.nth - 1,
                    keeps_new: cut.keeps_new,
                });
                self.write(slot, octets);
                Ok(())
            }
            Some(cut) => {
                self.cut = None;
                self.faults = self.faults.saturating_add(1);
                if cut.keeps_new {
                    self.write(slot, octets);
                }
                Err(Failed)
            }
        }
    }
}
