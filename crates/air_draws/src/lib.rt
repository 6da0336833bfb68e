//! The draws of a simulated run: a stream of PCG32 for each purpose, so that a run is a function of its seed and of what is asked.
//!
//! What is drawn for one purpose leaves the others as they were: a line that loses more frames keeps its place, its keys and its
//! times. Numbers are whole, and chances are ten-thousandths.
//!
//! ```text
//! let mut loss = Draws::new(seed, Purpose::Loss);
//! let lost = loss.happens(500); // a chance of 5 per cent
//! ```
//!
//! - [`Draws::new`] is the stream of a [`Purpose`] before its first draw.
//! - `word` draws 32 bits, `below` a number below a bound, `happens` whether something of a chance happens, `key` a key of 16 octets.
//!
//! What its calls promise, by the names of their clauses:
//!
//! - Each draw is a function of the stream's state, and leaves the state that its definition says (`value`, `after`): `word`, `below` and
//!   `happens` take one word of PCG32, `key` takes four.
//! - A number below a bound is below it (`within`); what has no chance never happens, and what has all always does (`never`, `always`).
//! - The draw after k draws of a purpose is a function of the seed, the purpose and k (`laws::draws_are_counted`), and no two purposes share
//!   a stream (`laws::streams_are_apart`).
//!
//! Not claimed: that draws are independent or uniform. PCG32 is no source of secrets: keys that are drawn here are keys of a simulation.
#![tactic(auto)]

mod draws;
pub mod laws;

pub use draws::{Draws, Purpose};
