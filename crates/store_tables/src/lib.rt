//! What a node keeps in a store, over any [`plc_base::Keeper`]: numbers that are given out once, numbers that are admitted once, entries by a key.
//!
//! - [`NumberSlot`] is a number that has a slot to itself.
//! - [`Numbering`] gives out each number once: a limit is stored ahead of the numbers, so most cost no put.
//! - [`SlotTable`] holds entries ([`SlotEntry`]) in a row of slots, found by their keys. [`MarkTable`] is one of marks ([`Mark`]): of
//!   each address the number that was last admitted.
//!
//! What its calls promise, by the names of their clauses:
//!
//! - A table, a numbering or a number is what the records give (`table`, `reading`, `numbering`, `number`). BadStore names the
//!   slot of a record that has no reading, or of a table's that was lost (`bad`).
//! - After a failed put the value is the one before (`same`), the records give the old or the new one (`either`), and the slots
//!   of others are as they were (`elsewhere`). The value may not be used again until it is opened again.
//! - What is true of puts in a row and of the sorted keys of a table is a law (`laws`).
//!
//! A table takes its memory when it is made ([`ReservedList`]), and none after that. There is no `unsafe`.
//!
//! For example, a driver over flash implements `Keeper` for its type. A counter that no loss of power sets back is then a
//! `Numbering` at one of the slots: `open` reads it at the start, `left` says how many numbers there are still, and `reserve`
//! gives out the next ones. It stores a limit ahead of them, so most numbers cost no put. After `Failed` it is opened again.
#![tactic(auto)]

pub mod laws;
mod marks;
mod number_slot;
mod numbering;
mod open_fault;
mod reserved_list;
mod slot_order;
mod slot_table;

pub use marks::{MARKS_AHEAD, Mark, MarkTable};
pub use number_slot::NumberSlot;
pub use numbering::Numbering;
pub use open_fault::OpenFault;
pub use reserved_list::ReservedList;
pub use slot_table::{SlotEntry, SlotTable};
