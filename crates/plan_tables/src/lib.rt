//! The tables of a description of a simulated line, each as a value: place, air, joining, readings, changes of the key, care, incidents; and their keys,
//! the values of keys, what is wrong with one, and its place in the text.
//!
//! - [`Key`] and [`KeySet`] have the keys, and which of them a table may have (`specs/Keys.antt`).
//! - [`Fields`] is a table with its name, or the defaults alone. Its calls read the value of a key: a number within a bound, a time, per cent, true or false.
//!   A key that is not there has its default; a value that does not fit is a [`WrongValue`] (`specs/Faults.antt`).
//! - `seconds_of` and `hundredths_of` read times and per cent from octets (`specs/Values.antt`). Times are whole seconds, chances ten-thousandths.
//! - `place_of` is the line and the column of a key in the text of its table (`specs/TextPlaces.antt`).
//!
//! Of each table the clauses promise: it has the value that the definitions give it, with the default and the limits of each key; where a value does not
//! fit, the fault names the first such key (`specs/Tables.antt`, `AirPlans.antt`, `Links.antt`, `Places.antt`, `Incidents.antt`). The rate, the air's
//! settings and the owner's times are plain values: no other crate of a simulated line is named but `line_place`, whose layouts a place is.
//!
//! The readers of values take no memory.
#![tactic(auto)]

mod air_plan;
mod fault;
mod fields;
mod incidents;
mod keys;
mod links;
mod places;
mod tables;
mod text_places;
mod values;

pub use air_plan::{AirPlan, Choices, Limits, PlannedRate, Waits};
pub use fault::{Cause, Meant, PlanFault, Section, TextPlace, UnknownKey, Wanted, WrongValue};
pub use fields::Fields;
pub use incidents::{Incident, Leaves, NodeList, What, WhatKind, what_at};
pub use keys::{Key, KeySet};
pub use links::MeasuredLinks;
pub use places::{Kind, MOST_METERS, PlaceKind, PlacePlan, kind_at};
pub use tables::{Care, Joining, Order, Readings, Rotation, Way};
pub use text_places::{octet_place, place_of};
pub use values::{
    LONGEST, chance_in, hundredths_of, number_from_one_to, number_up_to, seconds_in, seconds_of,
};
