//! `meters` and `links`: tables of a run for a spreadsheet; and the first line of an account.
ghost use Rattle.std.specs.Prelude.{◌≡◌, IfOk, string_bytes};
ghost use Rattle.line_readings.specs.Readings.{IsHeadline, IsLinkTable, IsMeterTable};
ghost use Rattle.line_view.specs.TableRuns as table_runs;

use crate::bad_line::{BadLine, push_bad_line};
use crate::recorder::Recorder;
use crate::run_machine::{Finding, LastText, RunMachine, forged_if};
use crate::run_sentences::MOST_NODES;
use line_events::Event;
use line_readings::{Journal, Run, headline_of, link_table, meter_table, meters_of, readings_of};
use line_record::{Ends, RunStories, ends_of, stories_of};
use line_script::Reason;
use line_world::Buffers;
use std::alloc::{AllocError, Global};
use std::marker::Model;

// A run, as readings go by it.
fn seen<'a>(run: &'a Recorder, run_stories: &'a RunStories, ends: &'a [Ends]) -> Run<'a>
    ensures { result.stories.now ≡ run_stories.now.stories }
{
    Run {
        events: run.run_record.events.as_slice(),
        flights: run.run_record.flights.as_slice(),
        courses: run_stories.courses.as_slice(),
        stories: run_stories.stories.as_slice(),
        ends,
        owners: run_stories.owners.as_slice(),
    }
}

fn node_count(run: &Recorder) -> u32
    ensures { result ≡ table_runs.node_count run.now }
{
    run.euis.len().min(MOST_NODES) as u32
}

fn stories_in(alloc: Global, run: &Recorder) -> Result<RunStories, AllocError>
    ensures { IfOk result (λ run_stories. run_stories.stories ≡ table_runs.stories_in run.now) }
{
    let run_stories = stories_of(alloc, &run.run_record)?;
    Ok(run_stories)
}

fn first_line_with(
    alloc: Global,
    run: &Recorder,
    journal: &Journal,
    view: &Run<'_>,
) -> Result<String, AllocError>
    ensures { IfOk result (λ text. IsHeadline view.now.stories.now (string_bytes text)) }
{
    let meters = meters_of(alloc, journal.spares.as_slice(), node_count(run))?;
    let readings = readings_of(alloc, journal, view, meters.as_slice())?;
    let line = headline_of(alloc, journal, readings.as_slice(), meters.as_slice())?;
    Ok(line)
}

/// How many readings of a run came of how many, and which meters have missing ones; no words where the run has no readings.
///
/// It fails only where memory runs out.
pub fn first_line(alloc: Global, run: &Recorder, journal: &Journal) -> Result<String, AllocError>
    ensures { IfOk result (λ text. IsHeadline (table_runs.stories_in run.now) (string_bytes text)) }
{
    let run_stories = stories_in(alloc, run)?;
    let view = seen(run, &run_stories, &[]);
    let line = first_line_with(alloc, run, journal, &view)?;
    Ok(line)
}

// The table of the meters of a run, by its stories.
fn meters_with(
    alloc: Global,
    run: &Recorder,
    journal: &Journal,
    view: &Run<'_>,
) -> Result<Vec<u8>, AllocError>
    ensures { IfOk result (λ text. IsMeterTable journal.now.spares.items (table_runs.node_count run.now) view.now.stories.now text.items) }
{
    let meters = meters_of(alloc, journal.spares.as_slice(), node_count(run))?;
    let readings = readings_of(alloc, journal, view, meters.as_slice())?;
    let table = meter_table(alloc, journal, view, readings.as_slice(), meters.as_slice())?;
    Ok(table)
}

fn links_with(
    alloc: Global,
    run: &Recorder,
    journal: &Journal,
    view: &Run<'_>,
) -> Result<Vec<u8>, AllocError>
    ensures { IfOk result (λ text. IsLinkTable text.items) }
{
    let meters = meters_of(alloc, journal.spares.as_slice(), node_count(run))?;
    let readings = readings_of(alloc, journal, view, meters.as_slice())?;
    link_table(alloc, journal, view, readings.as_slice())
}

/// Which table of a run is written.
#[derive(Clone, Copy, Debug, PartialEq, Eq)]
pub enum Table {
    /// A line a meter.
    Meters,
    /// A line a link.
    Links,
}

fn table_with(
    alloc: Global,
    table: Table,
    run: &Recorder,
    journal: &Journal,
    view: &Run<'_>,
) -> Result<Vec<u8>, AllocError>
    ensures { IfOk result (λ text.
        table_runs.IsTableBy table journal.now.spares.items (table_runs.node_count run.now) view.now.stories.now text.items) }
{
    match table {
        Table::Meters => meters_with(alloc, run, journal, view),
        Table::Links => links_with(alloc, run, journal, view),
    }
}

fn table_of(
    alloc: Global,
    table: Table,
    run: &Recorder,
    journal: &Journal,
) -> Result<Vec<u8>, AllocError>
    ensures { IfOk result (λ text. table_runs.IsTable table journal.now.spares.items run.now text.items) }
{
    let run_stories = stories_in(alloc, run)?;
    let courses = run_stories.courses.as_slice();
    let ends = ends_of(alloc, run_stories.stories.len(), courses)?;
    let view = seen(run, &run_stories, ends.as_slice());
    let text = table_with(alloc, table, run, journal, &view)?;
    Ok(text)
}

/// The run of a script with its remarks, and which table of it is written at its end.
#[derive(Drop)]
pub struct Tables {
    alloc: Global,
    table: Table,
    run: Recorder,
    journal: Journal,
}

impl Model for Tables {
    ghost use Rattle.std.specs.Coded.{codes};
    ghost use Rattle.line_world.specs.WorldCodes.{world_code};
    ghost use Rattle.line_view.specs.TableRuns.{TableRun};

    ghost Value = { TableRun };

    ghost coded = { Prim.hlevel (codes, world_code) };

    ghost view = { λ t. record { table = t.table; run = t.run; spares = t.journal.spares.items } };
}

impl Tables {
    /// No line so far. It fails only where there is no memory for it.
    pub fn new(alloc: Global, table: Table) -> Result<Tables, AllocError>
        ensures { IfOk result (λ tables. tables ≡ table_runs.nothing_tabled table) }
    {
        let run = Recorder::new(alloc)?;
        Ok(Tables {
            alloc,
            table,
            run,
            journal: Journal::new(alloc),
        })
    }
}

impl RunMachine for Tables {
    ghost rules = { table_runs.rules };

    fn step(
        &mut self,
        row: u32,
        event: &Event<'_>,
        space: &mut Buffers,
    ) -> Result<Option<Reason>, AllocError> {
        let refusal = self.run.step(row, event, space)?;
        if refusal.is_some() {
            return Ok(refusal);
        }
        let clock = self.run.clock();
        self.journal.take_event(self.alloc, event, clock)?;
        Ok(None)
    }

    fn take_quiet(&mut self, line: &[u8]) -> Result<(), AllocError> {
        self.journal.take_line(self.alloc, line)
    }

    // A table of a part of a script would be taken for one of the whole.
    fn output(&self, bad: Option<BadLine>) -> Result<Vec<u8>, AllocError> {
        let mut text = String::new(self.alloc);
        push_bad_line(&mut text, self.alloc, bad)?;
        Ok(text.into_bytes())
    }

    fn finding(&self) -> Finding {
        forged_if(self.run.is_forged())
    }
}

impl LastText for Tables {
    ghost says = { table_runs.says };

    fn last_text(&self) -> Result<Vec<u8>, AllocError> {
        table_of(self.alloc, self.table, &self.run, &self.journal)
    }
}
