//! What a frame is and carries: one word for its kind, whom it is for, what its payload is about, and what an opened payload says.
//!
//! The octets are read by the readers that nodes use, so nothing is said that a node would not see. `specs/Kinds.antt` has the kinds, `specs/Gists.antt`
//! whom a frame is for and what its payload is about, and `specs/Words.antt` how an address is written.
//!
//! ```text
//! if open_octets(octets, &key, &mut out) {
//!     match payload_detail(Some(out.octets())) {
//!         Detail::Route { number, cost } => .. // a route request or reply
//!         ..
//!     }
//! }
//! ```
//!
//! [`decrypt_octets`] gives the payload of a frame that is known to be sealed under a key, as those of a run are, without a look at its tag.
//! `specs/Payloads.antt` says which payload a frame has, `specs/Details.antt` what a payload says.
#![tactic(auto)]

mod detail;
mod gist;
mod kind;
mod opening;
mod reading;
mod texts;

pub use detail::{Detail, FlightMore, more_of, payload_detail};
pub use gist::{FrameTarget, Gist, frame_target, payload_gist};
pub use kind::{PayloadKind, kind_word, payload_kind};
pub use opening::{decrypt_octets, open_octets};
pub use texts::{push_number, push_short};
