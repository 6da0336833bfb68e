//! Makes the script of a run of a simulated line from a description of the line.
//!
//! `line_sim run` reads a description (docs/LINE-DESCRIPTION.md), runs the nodes of `line_world` under an air and an owner that are modelled, and writes the
//! script of the run that it made, which `line_replay` repeats. `line_sim measure` writes the counts of the run instead, as one line of JSON, `line_sim links`
//! the links of the line's place as CSV.
#![tactic(auto)]

mod command;
mod links;
mod order;
mod recorder;
mod tool;

use plc_base::{StdSink, StdSource};
use script_runs::{Status, words};
use std::alloc::AllocError;
use std::process::ExitCode;
use tool::run_tool;

fn main(rt: HostRuntime) -> ExitCode {
    let mut source = StdSource::new(rt.stdin());
    let mut sink = StdSink::new(rt.stdout());
    let status = match words(&rt) {
        Ok(words) => run_tool(rt.alloc(), words.as_slice(), &mut source, &mut sink),
        Err(AllocError) => Status::Memory,
    };
    ExitCode::from(status.number())
}
