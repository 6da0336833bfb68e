//! What a line of a script does to the world, the run that a script makes, and how a program that runs one ends.
//!
//! `specs/TakenLines.antt` says what a line does, with the reason why a bad one is bad, and which entries the run of a script has. What holds of
//! every such run:
//!
//! - It goes on up to the first bad line and ends there, and that line is one of the script ([`runs_end_at_the_first_bad_line`]).
//! - Each line that is not quiet is taken or ends it ([`only_quiet_lines_are_skipped`]).
//! - Its entries are a run of the network ([`every_script_is_a_run`]).
//!
//! A program that reads a source and writes a sink ends by its [`Status`], which has the number that it ends with, the same in each program.
//! [`words`] are the words after the program's name, [`write_whole`] writes a text that is known ahead, and [`status_of`] says how a run over
//! lines ended.
#![tactic(auto)]

mod arguments;
mod laws;
mod status;
mod text;

pub use arguments::words;
pub use laws::{
    every_script_is_a_run, only_quiet_lines_are_skipped, runs_end_at_the_first_bad_line,
};
pub use status::{Status, status_of};
pub use text::write_whole;
