//! Discovery: beacon requests and beacons of IEEE 802.15.4-2006 in one fixed profile, and which agents a meter heard,
//! cheapest first. The cost in a beacon is this network's own; `docs/FORMATS.md` has the table.
//!
//! - [`Scan`] is a meter's search for an agent: `begin`, `take` for each beacon that comes, `kth` for the k-th cheapest of the agents;
//!   `scanning` says whether it is under way, `clear` ends it.
//! - [`read_discovery`] and [`write_discovery`] read and write a request, 8 octets, or a beacon, 13 ([`Discovery`]).
//!
//! What its calls promise, by the names of their clauses:
//!
//! - The k-th agent is the k-th cheapest of all whose beacons were heard since the scan began, each with the least total of its cost and that of its
//!   link; equal totals go by address (`history`, `value`; `laws::agents_are_the_cheapest`).
//! - [`NotScanning`] comes exactly where the meter does not scan, and changes nothing (`answer`, `same`).
//! - What is read is what the octets spell, each request and beacon by one spelling (`found`, `only`, `one_spelling`).
//!
//! It holds the first 16 of the agents, which is enough to know the first 16 after the next beacon (`laws::first_agents_suffice`); k is from 1
//! to 16 (`first`, `last`). No memory is taken, and there is no `unsafe`. It has no timer: a scan ends by `begin` or `clear`. A beacon is not sealed,
//! so anybody can send one: what an agent says of its cost is believed.
#![tactic(auto)]

mod agents;
pub mod laws;
mod message;
mod reading;
mod scan;
mod writing;

pub use agents::Agent;
pub use message::Discovery;
pub use reading::read_discovery;
pub use scan::{NotScanning, Scan};
pub use writing::write_discovery;
