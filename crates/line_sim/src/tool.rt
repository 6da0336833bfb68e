//! All that the program does.
ghost use Rattle.std.specs.Prelude.{◌≡◌, IfOk, nat_lt, string_bytes};
ghost use Rattle.line_simulation.specs.Simulations.{state_of};
ghost use Rattle.line_simulation.specs.Turns.{Ran, whole_run};
ghost use Rattle.line_sim.specs.Recorders.{Recorded};
ghost use Rattle.line_sim.specs.WorldRecorder.{world_recorder};
ghost use Rattle.line_sim.specs.Tool.{status_of, apart_text, EndsRun, SaysApart, Ends, EndsPlan, ShowsLinks, EndsWanted, Runs, Answers, asked_by};

use crate::command::{Mode, Wanted, command_of};
use crate::links::links_text;
use crate::recorder::Recorder;
use line_plan::{NoPlan, Plan, read_plan};
use line_simulation::{Made, Simulation, has_attackers, place_of};
use plan_tables::TextPlace;
use plc_base::{Sink, Source};
use script_runs::{Status, write_whole};
use std::alloc::{AllocError, Global};

const USAGE: &[u8; 69] = b"usage: line_sim run | measure | links [--seed N] [--set KEY=VALUE]..\n";

// How a run ended that went on to the end of its time, or did not.
fn status_of(whole: bool, forged: u32) -> Status
    ensures { result ≡ status_of whole forged }
{
    if forged > 0 {
        return Status::Forged;
    }
    if whole {
        Status::Fine
    } else {
        Status::LimitReached
    }
}

// Writes what is asked for of a run that went on to the end of its time, or did not.
fn write_run<const INJECTS: usize, K: Sink>(
    mode: Mode,
    simulation: &mut Simulation<Recorder<INJECTS>>,
    whole: bool,
    sink: &mut K,
) -> Status
    ensures { (ran : Ran Recorded) → ran.whole ≡ whole → ran.simulated ≡ state_of simulation.old
        → EndsRun mode (nat_lt 0 INJECTS) ran (K.state sink.old) (K.state sink.new) result }
{
    let script = simulation.recording.script();
    let done = status_of(whole, simulation.recording.forged());
    match mode {
        Mode::Run => write_whole(sink, script, done),
        Mode::Measure => match simulation.summary(whole) {
            Ok(counts) => write_whole(sink, counts.as_str().as_bytes(), done),
            Err(AllocError) => Status::Memory,
        },
    }
}

// Runs a line, and writes what is asked for.
fn run_line<const INJECTS: usize, K: Sink>(
    mode: Mode,
    simulation: &mut Simulation<Recorder<INJECTS>>,
    sink: &mut K,
) -> Status
    ensures { EndsRun mode (nat_lt 0 INJECTS) (whole_run (world_recorder (nat_lt 0 INJECTS)) (state_of simulation.old))
        (K.state sink.old) (K.state sink.new) result }
{
    let Ok(whole) = simulation.run_whole() else {
        return Status::Memory;
    };
    write_run(mode, simulation, whole, sink)
}

// The line that says that in no place that was drawn a path leads to every meter, with the place of the table that asks for it.
fn apart_text(alloc: Global, place: Option<TextPlace>) -> Result<String, AllocError>
    ensures { IfOk result (λ text. string_bytes text ≡ apart_text place) }
{
    match place {
        Some(place) => {
            format!(in alloc;
                "bad description: {place}: in 1000 draws of the place no path led to every meter; raise reach\n"
            )
        }
        None => String::from_str(
            alloc,
            "bad description with these options: in 1000 draws of the place no path led to every meter; raise reach\n",
        ),
    }
}

// Writes that line.
fn write_apart<K: Sink>(alloc: Global, place: Option<TextPlace>, sink: &mut K) -> Status
    ensures { SaysApart place (K.state sink.old) (K.state sink.new) result }
{
    match apart_text(alloc, place) {
        Ok(text) => write_whole(sink, text.as_bytes(), Status::BadScript),
        Err(AllocError) => Status::Memory,
    }
}

// Runs the line of a plan over a recorder, which records injections or not, and writes what is asked for.
fn run_over<const INJECTS: usize, K: Sink>(
    alloc: Global,
    mode: Mode,
    plan: Plan,
    place: Option<TextPlace>,
    sink: &mut K,
) -> Status
    ensures { Ends mode (nat_lt 0 INJECTS) plan place (K.state sink.old) (K.state sink.new) result }
{
    let recorder: Recorder<INJECTS> = match Recorder::new(alloc) {
        Ok(recorder) => recorder,
        Err(AllocError) => return Status::Memory,
    };
    match Simulation::new(alloc, plan, recorder) {
        Ok(Made::Simulation(mut simulation)) => run_line(mode, &mut simulation, sink),
        Ok(Made::Apart) => write_apart(alloc, place, sink),
        Err(AllocError) => Status::Memory,
    }
}

/// Runs the line of a plan, and writes what is asked for. Where the plan has no attackers, no event injects octets. `place` is where the description has the
/// table of the place, for the line that says that it gives none.
pub fn run_plan<K: Sink>(
    alloc: Global,
    mode: Mode,
    plan: Plan,
    place: Option<TextPlace>,
    sink: &mut K,
) -> Status
    ensures { EndsPlan mode plan place (K.state sink.old) (K.state sink.new) result }
{
    if has_attackers(plan.incidents.incidents()) {
        return run_over::<1, K>(alloc, mode, plan, place, sink);
    }
    run_over::<0, K>(alloc, mode, plan, place, sink)
}

// Writes the links of the place of a plan.
fn write_links<K: Sink>(
    alloc: Global,
    plan: &Plan,
    place: Option<TextPlace>,
    sink: &mut K,
) -> Status
    ensures { ShowsLinks plan.now place (K.state sink.old) (K.state sink.new) result }
{
    let links = match place_of(alloc, plan.seed, &plan.place) {
        Ok(Some(links)) => links,
        Ok(None) => return write_apart(alloc, place, sink),
        Err(AllocError) => return Status::Memory,
    };
    match links_text(alloc, &links, plan.place.meters().saturating_add(1)) {
        Ok(text) => write_whole(sink, text.as_bytes(), Status::Fine),
        Err(AllocError) => Status::Memory,
    }
}

// Writes what is asked for of the line of a plan.
fn write_wanted<K: Sink>(
    alloc: Global,
    wanted: Wanted,
    plan: Plan,
    place: Option<TextPlace>,
    sink: &mut K,
) -> Status
    ensures { EndsWanted wanted plan place (K.state sink.old) (K.state sink.new) result }
{
    match wanted {
        Wanted::OfRun(mode) => run_plan(alloc, mode, plan, place, sink),
        Wanted::Links => write_links(alloc, &plan, place, sink),
    }
}

// Reads a description with options, and writes what is asked for of its line.
fn simulate<S: Source, K: Sink>(
    alloc: Global,
    wanted: Wanted,
    options: &[String],
    source: &mut S,
    sink: &mut K,
) -> Status
    ensures { Runs wanted options.now (S.state source.old) (S.state source.new) (K.state sink.old) (K.state sink.new) result }
{
    match read_plan(alloc, source, options) {
        Ok(it) => write_wanted(alloc, wanted, it.plan, it.place, sink),
        Err(NoPlan::Bad(text)) => write_whole(sink, text.as_bytes(), Status::BadScript),
        Err(NoPlan::Read) => Status::ReadFault,
        Err(NoPlan::Memory) => Status::Memory,
    }
}

/// All that the program does, with the words after its name.
///
/// `run` reads a description, runs its line, and writes the script of the run. `measure` writes the counts of the run instead, and `links` those who hear
/// each other on the line. Other words write the usage line, and read nothing.
pub fn run_tool<S: Source, K: Sink>(
    alloc: Global,
    words: &[String],
    source: &mut S,
    sink: &mut K,
) -> Status
    // For `run` and options the script was written of the run of the plan that the description gives with the options, for `measure` and options counts of that
    // run, for `links` and options the links of its place; or a line that says why there is none. For other words, the usage line.
    ensures runs { Answers (asked_by words.now) (S.state source.old) (S.state source.new) (K.state sink.old) (K.state sink.new) result }
{
    match command_of(words) {
        Some(command) => simulate(alloc, command.wanted, command.options, source, sink),
        None => write_whole(sink, USAGE, Status::Usage),
    }
}
