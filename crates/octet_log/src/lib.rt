//! Octet strings in the order in which they came, of which those that are the same are found quickly.
//!
//! Memory is reserved before it is used: `reserve` may fail, `push` never does. So a caller reserves what an event may need, and
//! refuses the event where that fails, before anything has changed.
//!
//! ```text
//! let mut log = OctetLog::new(rt.alloc());
//! log.reserve(3, 8)?;
//! log.push(b"abc");
//! log.push(b"de");
//! log.push(b"abc");
//! let newest = log.last(b"abc"); // 3
//! let older = log.before(newest); // 1
//! let none = log.before(older); // 0
//! ```
//!
//! A string is found among those of its chain alone, one of 16,384 by its last 16 octets. So strings are found quickly where few of
//! them end alike, as frames that end with a tag.
#![tactic(auto)]

mod chains;
mod laws;
mod log;
mod strings;

pub use laws::one_is_last;
pub use log::OctetLog;
