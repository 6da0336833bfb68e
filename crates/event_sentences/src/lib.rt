//! What each event of a run did, in a sentence: from its answer, the frame that came, and what the node shows before and after.
//!
//! ```text
//! let text = moment.text()?;
//! // "meter 3 has a route and sends flight 11 to meter 2"
//! ```
//!
//! A sentence is a function of its [`Moment`]: the event, the flights that it made, the frame that came, and what is kept of the node
//! ([`Watch`]) and of the flights before it ([`Counters`]). `specs/Texts.antt` has that function. So no sentence speaks of what is not in
//! the run.
//!
//! Of a datagram that is handed up more is proved: its sentence is that of a claim ([`Deed`]) which is true of the event of the run, and what is true
//! of it is one thing (`specs/Truth.antt`). Its words stand in `src/claim.rt` alone.
#![tactic(auto)]

mod asked;
mod claim;
mod flights;
mod heard;
mod joined;
mod laws;
mod moment;
mod reasons;
mod refused;
mod replayed;
mod route_ends;
mod taken;
mod watch;

pub use claim::Deed;
pub use heard::{DrawnKey, Heard, heard_flight, heard_octets};
pub use laws::{says_one, ups_are_true};
pub use moment::Moment;
pub use route_ends::RouteEnds;
pub use watch::{Coming, Comings, Watch};
