//! What a line keeps of the frames that flew on it, and of the pair tags that were made.
//!
//! Memory is reserved before it is used: `reserve` may fail, `push` never does. So a caller reserves what an event may
//! need, and refuses the event where that fails, before anything has changed.
//!
//! ```text
//! let mut flights = Flights::new(rt.alloc());
//! flights.reserve(24, 9_600)?;
//! flights.send_off(0, out.frames.frames());
//! flights.flying(1)            // the octets of the first frame
//! flights.origin(octets, &key) // whether one of them has these octets under this key, and the note of the first
//! flights.lose(1)              // it comes no more, and its octets stay
//! ```
#![tactic(auto)]

mod flights;
mod made_tags;

pub use flights::{FlightRef, Flights, Origin};
pub use made_tags::MadeTags;
