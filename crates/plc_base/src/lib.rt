//! What every crate of the network stands on: addresses, keys, octet strings of bounded length, and the traits of the outside.
//!
//! In the order in which firmware meets them:
//!
//! - [`Eui`], [`Short`], [`PAN`] and [`LinkCost`] say who a node is and what a link costs, [`Destination`] where a frame goes,
//!   [`Key`], [`KeyIndex`], [`RandomOctets`] and [`Grant`] what a node is given. `Short::new`, `LinkCost::new`, `KeyIndex::new` and
//!   `Destination::new` are None exactly for the numbers that are no address, no cost, no index and no destination (`valid`).
//! - [`Octets`] holds at most this many octets in place: [`FrameBuf`] 400, [`DatagramBuf`] 1,280, [`EapBuf`] 128, [`Record`] 64.
//!   [`OctetRef`] refers to octets that stand elsewhere. A contract sees the list of the octets.
//! - [`Keeper`] is the trait that firmware writes over its flash: `get` and `put` of a record at a slot. [`MemKeeper`] is one
//!   in memory, for tests and for simulated lines; it can be set to lose power at a put.
//! - [`Out`] is what one step gives out: at most 24 frames ([`OutFrames`]), and the tags that it made and checked
//!   ([`TagList`]).
//! - `octet_at`, `two_at`, `octets_at` and the like read the fields of a format, and [`Fault`] is its first fault with the
//!   place.
//! - [`Source`] and [`Sink`] are for programs: octets in, text out, with adapters over memory and over std's streams. A contract sees
//!   what went through them, by [`PassedOctets`] where they are the system's.
//!
//! What its calls promise, by the names of their clauses:
//!
//! - A put leaves the record from before or the new one, even where it fails, and changes no other slot (`Puts`); which of the two, the next
//!   opening may decide (`pending`). The trait
//!   asks this of each keeper, and all that the crates above promise of a store rests on it.
//! - A read or a write fails only where the object counted a fault, and what a source has given is what its reads answered, one after
//!   another (`read`, `written`).
//! - What is true of tags, of sorted numbers and of octets in fixed width is a law (`laws`).
//!
//! Memory is taken by `MemKeeper::new` and `MemSink::new` alone, and there is no `unsafe`. A buffer that is full is no fault at
//! run time: `push` and `append` ask for room, and who calls them proves that there is some.
//!
//! What a node keeps in a store (tables, numberings) is in `store_tables`, the crate above.
#![tactic(auto)]

mod address;
mod destination;
mod fields;
mod grant;
mod keeper;
mod key;
mod key_index;
pub mod laws;
mod limits;
mod link_cost;
mod mem_keeper;
mod memory;
mod numbers;
mod octet_ref;
mod octets;
mod out_frame;
mod out_of_range;
mod passed_octets;
mod standard;
mod streams;
mod tags;
mod times;

pub use address::{Eui, NO_ADDRESS, PAN, Short, TO_ALL};
pub use destination::Destination;
pub use fields::{
    Ended, Fault, FaultKind, address_at, four_at, four_octets, little_four_at, little_two_at,
    octet_at, octets_at, rest_at, reversed_at, two_at, two_octets,
};
pub use grant::Grant;
pub use keeper::{BadStore, Cut, Keeper};
pub use key::{Key, RandomOctets};
pub use key_index::KeyIndex;
pub use limits::{GREATEST_COUNTER, LONGEST_DATAGRAM, LONGEST_FRAME, MOST_FRAMES};
pub use link_cost::LinkCost;
pub use mem_keeper::MemKeeper;
pub use memory::{MemSink, MemSource};
pub use numbers::a_number_has_the_octets_it_was_read_from;
pub use octet_ref::OctetRef;
pub use octets::{DatagramBuf, EapBuf, FrameBuf, Octets, Record};
pub use out_frame::{Out, OutFrame, OutFrames};
pub use out_of_range::OutOfRange;
pub use passed_octets::PassedOctets;
pub use standard::{StdSink, StdSource};
pub use streams::{Failed, Sink, Source, write_all};
pub use tags::{PairTag, PairTags, TagList, TagOctets, TagText};
pub use times::{earlier_end, is_within};
