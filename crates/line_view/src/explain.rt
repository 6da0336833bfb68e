//! `explain`: what became of each datagram and each joining of a script.
ghost use Rattle.std.specs.Prelude.{◌≡◌, ◌++◌, IfOk, OnOk, Some, string_bytes};
ghost use Rattle.line_view.specs.ExplainRuns as explain_runs;

use crate::bad_line::{BadLine, push_bad_line};
use crate::recorder::Recorder;
use crate::run_machine::{Finding, LastText, RunMachine, forged_if};
use crate::run_sentences::RunSentences;
use crate::tables::first_line;
use line_events::Event;
use line_readings::Journal;
use line_record::{Ends, RunStories, ends_of, stories_of};
use line_script::Reason;
use line_world::Buffers;
use sentence_parts::{count_of, number, push_parts, words};
use std::alloc::{AllocError, Global};
use std::marker::Model;
use story_accounts::{Account, Chosen, Index};

#[tactic(auto, unfolding(crate::specs::ExplainRuns::counts_text))]
fn push_counts(text: &mut String, alloc: Global, run: &Recorder) -> Result<(), AllocError>
    ensures { OnOk result (string_bytes text.new ≡ string_bytes text.old ++ explain_runs.counts_text run.now.world) }
{
    let counts = run.world.counts();
    push_parts(
        text,
        alloc,
        &[
            words("script: "),
            count_of(counts.events as usize, "event"),
            words(", "),
            count_of(counts.flights as usize, "flight"),
            words(", "),
            count_of(counts.sends as usize, "send"),
            words(", "),
            number(counts.ups as usize),
            words(" handed up, "),
            number(counts.forged as usize),
            words(" forged\n"),
        ],
    )
}

// Appends what became of the chosen stories, with the ends of all and what is looked up of the run.
fn push_account_over(
    text: &mut String,
    alloc: Global,
    chosen: Chosen,
    run: &Recorder,
    run_sentences: &RunSentences,
    run_stories: &RunStories,
    ends: &[Ends],
    index: &Index,
) -> Result<(), AllocError>
    ensures { OnOk result (string_bytes text.new
        ≡ string_bytes text.old ++ explain_runs.account_over chosen run.now run_sentences.now run_stories.now ends.now index.now) }
{
    let account = Account {
        alloc,
        run_record: &run.run_record,
        more: run.more.as_slice(),
        counters: &run.counters,
        marks: run_sentences.marks.as_slice(),
        stories: run_stories.stories.as_slice(),
        owners: run_stories.owners.as_slice(),
        courses: run_stories.courses.as_slice(),
        ends,
        index,
        homes: run_stories.homes.as_slice(),
        euis: run.euis.as_slice(),
        sentences: run_sentences.sentences.as_slice(),
    };
    account.push_account(text, chosen)
}

fn push_account_with(
    text: &mut String,
    alloc: Global,
    chosen: Chosen,
    run: &Recorder,
    run_sentences: &RunSentences,
    run_stories: &RunStories,
) -> Result<(), AllocError>
    ensures { OnOk result (string_bytes text.new
        ≡ string_bytes text.old ++ explain_runs.account_with chosen run.now run_sentences.now run_stories.now) }
{
    let count = run_stories.stories.len();
    let courses = run_stories.courses.as_slice();
    let ends = ends_of(alloc, count, courses)?;
    let index = Index::new(
        alloc,
        count,
        run.euis.len(),
        &run.run_record,
        courses,
        run_stories.sent.as_slice(),
        run_stories.owners.as_slice(),
    )?;
    push_account_over(
        text,
        alloc,
        chosen,
        run,
        run_sentences,
        run_stories,
        ends.as_slice(),
        &index,
    )
}

// Appends what became of the chosen stories of a run.
fn push_account(
    text: &mut String,
    alloc: Global,
    chosen: Chosen,
    run: &Recorder,
    run_sentences: &RunSentences,
) -> Result<(), AllocError>
    ensures { OnOk result (string_bytes text.new
        ≡ string_bytes text.old ++ explain_runs.account_of chosen run.now run_sentences.now) }
{
    let run_stories = stories_of(alloc, &run.run_record)?;
    push_account_with(text, alloc, chosen, run, run_sentences, &run_stories)
}

// Whether the run has what is chosen.
#[tactic(auto, unfolding(crate::specs::ExplainRuns::is_there))]
fn is_there(chosen: Chosen, run: &Recorder) -> bool
    ensures { result ≡ explain_runs.is_there chosen run.now }
{
    match chosen {
        Chosen::Send { send } => 1 <= send && send <= run.world.counts().sends,
        Chosen::Node { node } => (node as usize) < run.euis.len(),
        _ => true,
    }
}

// Numbers from the first to the last, or that there are none.
fn push_range(
    text: &mut String,
    alloc: Global,
    name: &str,
    first: usize,
    last: Option<usize>,
) -> Result<(), AllocError>
    ensures { OnOk result (string_bytes text.new ≡ string_bytes text.old ++ explain_runs.range_text name.now first last) }
{
    match last {
        None => push_parts(
            text,
            alloc,
            &[words("the run has no "), words(name), words("s.\n")],
        ),
        Some(last) => push_parts(
            text,
            alloc,
            &[
                words(name),
                words("s are "),
                number(first),
                words(" to "),
                number(last),
                words(".\n"),
            ],
        ),
    }
}

fn push_no(text: &mut String, alloc: Global, name: &str, asked: u32) -> Result<(), AllocError>
    ensures { OnOk result (string_bytes text.new ≡ string_bytes text.old ++ explain_runs.no_text name.now asked) }
{
    push_parts(
        text,
        alloc,
        &[
            words("\nThere is no "),
            words(name),
            words(" "),
            number(asked as usize),
            words(": "),
        ],
    )
}

// That a run has nothing of this name and number, and what it has of the name.
#[tactic(auto, unfolding(crate::specs::ExplainRuns::lacking_text))]
fn push_lacking(
    text: &mut String,
    alloc: Global,
    name: &str,
    asked: u32,
    first: usize,
    last: Option<usize>,
) -> Result<(), AllocError>
    ensures { OnOk result (string_bytes text.new ≡ string_bytes text.old ++ explain_runs.lacking_text name.now asked first last) }
{
    push_no(text, alloc, name, asked)?;
    push_range(text, alloc, name, first, last)
}

fn last_send(sends: u32) -> Option<usize>
    ensures { result ≡ explain_runs.last_send sends }
{
    if sends == 0 {
        return None;
    }
    Some(sends as usize)
}

fn last_node(nodes: usize) -> Option<usize>
    ensures { result ≡ explain_runs.last_node nodes }
{
    if nodes == 0 {
        return None;
    }
    Some(nodes - 1)
}

// That a run does not have what is chosen.
fn push_not_there(
    text: &mut String,
    alloc: Global,
    chosen: Chosen,
    run: &Recorder,
) -> Result<(), AllocError>
    ensures { OnOk result (string_bytes text.new ≡ string_bytes text.old ++ explain_runs.not_there_text chosen run.now) }
{
    match chosen {
        Chosen::Send { send } => {
            let last = last_send(run.world.counts().sends);
            push_lacking(text, alloc, "send", send, 1, last)
        }
        Chosen::Node { node } => {
            let last = last_node(run.euis.len());
            push_lacking(text, alloc, "node", node, 0, last)
        }
        _ => Ok(()),
    }
}

// Appends what became of the chosen stories, or that the run does not have what is chosen.
fn push_answer(
    text: &mut String,
    alloc: Global,
    chosen: Chosen,
    run: &Recorder,
    run_sentences: &RunSentences,
) -> Result<(), AllocError>
    ensures { OnOk result (string_bytes text.new
        ≡ string_bytes text.old ++ explain_runs.answer_of chosen run.now run_sentences.now) }
{
    if is_there(chosen, run) {
        return push_account(text, alloc, chosen, run, run_sentences);
    }
    push_not_there(text, alloc, chosen, run)
}

/// The run of a script with its sentences, and which of its stories are chosen. It says at its end what became of what was asked.
#[derive(Drop)]
pub struct Explain {
    alloc: Global,
    chosen: Chosen,
    run: Recorder,
    run_sentences: RunSentences,
    journal: Journal,
}

impl Model for Explain {
    ghost use Rattle.std.specs.Coded.{codes};
    ghost use Rattle.line_world.specs.WorldCodes.{world_code};
    ghost use Rattle.line_view.specs.ExplainRuns.{ExplainRun};

    ghost Value = { ExplainRun };

    ghost coded = { Prim.hlevel (codes, world_code) };

    ghost view = { λ e. record { chosen = e.chosen; run = e.run; worded = e.run_sentences } };
}

impl Explain {
    /// No line so far. It fails only where there is no memory for it.
    pub fn new(alloc: Global, chosen: Chosen) -> Result<Explain, AllocError>
        ensures { IfOk result (λ explain. explain ≡ explain_runs.nothing_explained chosen) }
    {
        let run = Recorder::new(alloc)?;
        Ok(Explain {
            alloc,
            chosen,
            run,
            run_sentences: RunSentences::new(alloc),
            journal: Journal::new(alloc),
        })
    }

    // Whether all readings came, where the account is of the whole run.
    fn first_line(&self) -> Result<String, AllocError>
        ensures { IfOk result (λ line. explain_runs.IsFirstLine self.now.chosen self.now.run (string_bytes line)) }
    {
        match self.chosen {
            Chosen::Failed => first_line(self.alloc, &self.run, &self.journal),
            Chosen::All => first_line(self.alloc, &self.run, &self.journal),
            Chosen::Send { .. } => Ok(String::new(self.alloc)),
            Chosen::Node { .. } => Ok(String::new(self.alloc)),
        }
    }

    // The whole text but the first line, with the bad line, if there is one.
    #[tactic(auto, unfolding(crate::specs::ExplainRuns::explain_text))]
    fn text(&self, bad: Option<BadLine>) -> Result<String, AllocError>
        ensures { IfOk result (λ text. string_bytes text ≡ explain_runs.explain_text self.now bad) }
    {
        let mut text = String::new(self.alloc);
        push_counts(&mut text, self.alloc, &self.run)?;
        push_bad_line(&mut text, self.alloc, bad)?;
        push_answer(
            &mut text,
            self.alloc,
            self.chosen,
            &self.run,
            &self.run_sentences,
        )?;
        Ok(text)
    }

    // The text with a bad line.
    fn octets(&self, bad: BadLine) -> Result<Vec<u8>, AllocError>
        ensures { IfOk result (λ octets. octets.items ≡ explain_runs.explain_text self.now (Some bad)) }
    {
        let text = self.text(Some(bad))?;
        Ok(text.into_bytes())
    }
}

fn joined(line: String, rest: &str) -> Result<Vec<u8>, AllocError>
    ensures { IfOk result (λ octets. octets.items ≡ string_bytes line ++ rest.now) }
{
    let mut text = line;
    text.push_str(rest)?;
    Ok(text.into_bytes())
}

impl RunMachine for Explain {
    ghost rules = { explain_runs.rules };

    // The event has its sentence.
    fn step(
        &mut self,
        row: u32,
        event: &Event<'_>,
        space: &mut Buffers,
    ) -> Result<Option<Reason>, AllocError> {
        let refusal = self.run.step(row, event, space)?;
        if refusal.is_some() {
            return Ok(refusal);
        }
        self.run_sentences.add_sentence(&mut self.run, event)?;
        let clock = self.run.clock();
        self.journal.take_event(self.alloc, event, clock)?;
        Ok(None)
    }

    fn take_quiet(&mut self, line: &[u8]) -> Result<(), AllocError> {
        self.journal.take_line(self.alloc, line)
    }

    // Of a run that ends at a bad line nobody says how many readings came.
    fn output(&self, bad: Option<BadLine>) -> Result<Vec<u8>, AllocError> {
        match bad {
            None => Ok(Vec::new(self.alloc)),
            Some(bad) => self.octets(bad),
        }
    }

    fn finding(&self) -> Finding {
        if is_there(self.chosen, &self.run) {
            return forged_if(self.run.is_forged());
        }
        Finding::NotThere
    }
}

impl LastText for Explain {
    ghost says = { explain_runs.says };

    fn last_text(&self) -> Result<Vec<u8>, AllocError> {
        let line = self.first_line()?;
        let rest = self.text(None)?;
        let octets = joined(line, rest.as_str())?;
        Ok(octets)
    }
}
