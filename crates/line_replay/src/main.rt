//! Runs whole nodes on a line, from a script or as a drill. It also shows frames, and what the ciphers make.
//!
//! The text of the command `vectors` has a line for each known input, most of them those of the standards (`vectors.rt`): a name, a space, the
//! value that the ciphers compute in lower-case hexadecimal, and a line feed. Whoever reads it can compare it with the standards.
#![tactic(auto)]

use plc_base::{StdSink, StdSource};
use script_runs::{Status, words};
use std::alloc::AllocError;
use std::process::ExitCode;
use tool::run_tool;

fn main(rt: HostRuntime) -> ExitCode {
    let mut source = StdSource::new(rt.stdin());
    let mut sink = StdSink::new(rt.stdout());
    let status = match words(&rt) {
        Ok(words) => run_tool(rt.alloc(), words.as_slice(), &mut source, &mut sink),
        Err(AllocError) => Status::Memory,
    };
    ExitCode::from(status.number())
}

mod drill;
mod replay;
mod report;
mod show;
mod tool;
mod vectors;

pub use vectors::{TEXT_LENGTH, vectors_text};
