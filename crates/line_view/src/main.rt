//! Tells what a script does on a line of nodes, to look at: what is wrong with the script, what became of each datagram and each joining, and the
//! frames for Wireshark.
#![tactic(auto)]

mod bad_line;
mod capture;
mod check;
mod checker;
mod explain;
mod held_text;
mod laws;
mod octet_output;
mod page;
mod recorder;
mod run_machine;
mod run_sentences;
mod tables;
mod tool;

use plc_base::{StdSink, StdSource};
use script_runs::{Status, words};
use std::alloc::AllocError;
use std::process::ExitCode;
use tool::run_view;

fn main(rt: HostRuntime) -> ExitCode {
    let mut source = StdSource::new(rt.stdin());
    let mut sink = StdSink::new(rt.stdout());
    let status = match words(&rt) {
        Ok(words) => run_view(rt.alloc(), words.as_slice(), &mut source, &mut sink),
        Err(AllocError) => Status::Memory,
    };
    ExitCode::from(status.number())
}
