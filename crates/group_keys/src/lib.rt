//! The group keys: the ring of one node, and the coordinator's book of the meters with the keys that were issued to each.
//!
//! - [`KeyRing`] is what a joined node has: its address, and group keys at the indexes 0 and 1, of which one seals. `install` keeps a
//!   grant, `put` a key at an index, `activate` says which one seals, `drop_all` ends it. It lies at slot 1.
//! - [`KeyBook`] has an entry for each meter: EUI-64, pair key, whether it is allowed, issued keys. `allow` enters one and answers its
//!   address, `issue` notes the keys of a grant, `kick` shuts a meter out. It lies at the slots 1000 to 13E6.
//!
//! What their calls promise, by the names of their clauses:
//!
//! - The ring is the last grant with its later changes (`ring`, `answer`), and the book its entries in their order (`book`, `answer`).
//! - The meter of the k-th entry has the address k, and no call takes it away or gives it to another one (`addresses`).
//! - A change is one put (`store`). After one that failed the value is the one before (`same`), the records give the old or the new one
//!   (`either`), and other slots are as they were (`elsewhere`); the value may not be used again until it is opened again.
//! - `open` gives what the records say; BadStore names one that has no reading (`bad`).
//!
//! 999 meters fit, and MetersFull comes exactly for a new one beyond; no entry is ever removed. A book takes the memory for all of them,
//! 61 octets for each, when it is opened, and none after that. There is no `unsafe`. Keys lie in memory and in the store as they are: this
//! crate neither hides nor erases them.
//!
//! For example, `let address = book.allow(&mut keeper, eui, &psk)?` enters a meter. `docs/CRATES.md` has more.
#![tactic(auto)]

mod fault;
mod fields;
mod key_book;
mod key_ring;
pub mod laws;

pub use fault::{BookFault, RingFault};
pub use key_book::{BookEntry, KeyBook};
pub use key_ring::KeyRing;
