//! Holds a meter for an owner who talks over standard input and output, in items (`host_calls`). `tools/meter_host/meter.h` is the
//! owner's side in C.
//!
//! First the owner asks for the version of the items, if it wants, loads each record that it has stored, and opens the meter. Then each item is one call
//! of the meter. Its answer is the puts of the call, the frames, a datagram that is handed up, and last how the call ended. The owner stores the puts
//! in order, and only then sends the frames. After Halted, or where a store fails, it starts another program over what it stored.
//!
//! What its functions promise, by the names of their clauses:
//!
//! - A call does what its rule of `node_rules` says, and the answer is its puts, its frames, what is handed up and how it ended (`answers` of
//!   [`hosting::Host::answer`]).
//! - A record is taken in exactly where it leaves no gap (`loaded` of [`loading::Loading::load`]).
//! - The items are answered in order, and a read fault and a write fault come only where a read and a write failed (`serves`, `read` and `write` of
//!   [`serving::serve`]).
//! - The meter is opened over the records that were taken in (`opened`, `refused` of [`hosting::Host::open`]).
#![tactic(auto)]

mod explaining;
mod hearing;
mod hosting;
mod loading;
mod making;
mod refusals;
mod serving;

use explaining::explain;
use plc_base::{StdSink, StdSource};
use serving::{Outcome, serve};
use std::alloc::AllocError;
use std::process::ExitCode;
use std::{env, io};

/// Whether a word was given after the program's name. One that is no text is a word too.
fn has_words(rt: &HostRuntime) -> Result<bool, AllocError> {
    match env::args(rt) {
        Ok(args) => Ok(args.skip(1).next().is_some()),
        Err(fault) if fault.kind() == io::ErrorKind::OutOfMemory => Err(AllocError),
        Err(_) => Ok(true),
    }
}

fn main(rt: HostRuntime) -> ExitCode {
    let mut source = StdSource::new(rt.stdin());
    let mut sink = StdSink::new(rt.stdout());
    let outcome = match has_words(&rt) {
        Ok(false) => serve(rt.alloc(), &mut source, &mut sink),
        Ok(true) => explain(&mut StdSink::new(rt.stderr())),
        Err(AllocError) => Outcome::Memory,
    };
    ExitCode::from(outcome.number())
}
