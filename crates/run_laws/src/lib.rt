//! Laws of the runs of a network beside those of `line_laws`, on which they stand: what an event of a run says of the events before it.
//!
//! - A meter that chooses joins by the k-th cheapest agent that it heard ([`every_choice_is_right`]).
//! - What a node keeps beside its memory passes no size ([`tables_beside_keep_their_sizes`]).
//! - What an event does to datagrams: what it hands up, sends, and leaves of what waits, is gathered or flies ([`every_datagram_is_moved`]).
//! - No octet of a datagram is at two places at once ([`every_octet_is_at_one_place`]).
//! - What became of each octet of each datagram that was sent is one of a closed list of fates ([`every_send_has_a_fate`]).
//! - Both ends of a joining agree on its grant ([`every_joining_agrees_on_its_grant`]), and where random values differ none is done twice
//!   ([`every_joining_is_its_own`]).
//! - The first frame that is forged is a forgery in the game of authenticated encryption ([`every_first_forgery_is_in_the_game`]).
//!
//! [`every_run_is_lawful`] has them, but for the last, in one record, which `line_replay` says of its run.
#![tactic(auto)]

mod laws;

pub use laws::{
    every_choice_is_right, every_datagram_is_moved, every_fate_is_at_one_place,
    every_first_forgery_is_in_the_game, every_joining_agrees_on_its_grant,
    every_joining_is_its_own, every_octet_is_at_one_place, every_run_is_lawful,
    every_send_has_a_fate, tables_beside_keep_their_sizes,
};
