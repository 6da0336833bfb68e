//! `page`: a run as one page of HTML, to look at.
ghost use Rattle.std.specs.Prelude.{◌≡◌, ◌++◌, IfOk, OnOk};
ghost use Rattle.line_view.specs.PageRuns as page_runs;

use crate::bad_line::{BadLine, bad_words};
use crate::recorder::Recorder;
use crate::run_machine::{Finding, RunMachine, forged_if};
use crate::run_sentences::{MOST_NODES, RunSentences, nothing_shown};
use line_events::Event;
use line_record::{
    Act, Ends, Pasts, RecordedEvent, RunStories, actor_of, ends_of, is_for_another, makes_node,
    person_of, stories_of,
};
use line_script::Reason;
use line_world::Buffers;
use node_rules::Shown;
use run_charts::ChartRun;
use run_pages::{Remarks, Sheet};
use std::alloc::{AllocError, Global};
use std::marker::Model;
use story_accounts::{Account, Index};

/// The run of a script with its sentences, what the script says, and what the nodes were. It shows at its end what the run did.
#[derive(Drop)]
pub struct Page {
    alloc: Global,
    run: Recorder,
    run_sentences: RunSentences,
    remarks: Remarks,
    pasts: Pasts,
    // What the node shows that was looked at last.
    shown: Shown,
}

impl Model for Page {
    ghost use Rattle.std.specs.Coded.{codes};
    ghost use Rattle.line_world.specs.WorldCodes.{world_code};
    ghost use Rattle.line_view.specs.PageRuns.{PageRun};

    ghost Value = { PageRun };

    ghost coded = { Prim.hlevel (codes, world_code) };

    ghost view = { λ p. record { run = p.run; worded = p.run_sentences; remarks = p.remarks; pasts = p.pasts } };
}

// The node that an event may change beside the one that it is about.
fn other_of(act: &Act) -> u32
    ensures { result ≡ page_runs.other_of act.now }
{
    match act {
        Act::Near { b, .. } => *b,
        _ => person_of(act),
    }
}

// Whether time passes, for all nodes.
fn is_tick(act: &Act) -> bool
    ensures { result ≡ page_runs.is_tick act.now }
{
    match act {
        Act::Tick { .. } => true,
        _ => false,
    }
}

// Whether a flight came, which changes no other node.
fn is_delivery(act: &Act) -> bool
    ensures { result ≡ page_runs.is_delivery act.now }
{
    match act {
        Act::Deliver { .. } => true,
        _ => false,
    }
}

impl Page {
    /// No line so far. It fails only where there is no memory for it.
    pub fn new(alloc: Global) -> Result<Page, AllocError>
        ensures { IfOk result (λ page. page ≡ page_runs.nothing_paged) }
    {
        let run = Recorder::new(alloc)?;
        Ok(Page {
            alloc,
            run,
            run_sentences: RunSentences::new(alloc),
            remarks: Remarks::new(alloc),
            pasts: Pasts::new(alloc),
            shown: nothing_shown(),
        })
    }

    // Appends the page, with the ends of all stories and what is looked up of the run.
    fn push_page_over(
        &self,
        out: &mut Vec<u8>,
        run_stories: &RunStories,
        bad: &str,
        ends: &[Ends],
        index: &Index,
    ) -> Result<(), AllocError>
        ensures { OnOk result (out.new.items ≡ out.old.items ++ page_runs.page_over self.now run_stories.now bad.now ends.now index.now) }
    {
        let account = Account {
            alloc: self.alloc,
            run_record: &self.run.run_record,
            more: self.run.more.as_slice(),
            counters: &self.run.counters,
            marks: self.run_sentences.marks.as_slice(),
            stories: run_stories.stories.as_slice(),
            owners: run_stories.owners.as_slice(),
            courses: run_stories.courses.as_slice(),
            ends,
            index,
            homes: run_stories.homes.as_slice(),
            euis: self.run.euis.as_slice(),
            sentences: self.run_sentences.sentences.as_slice(),
        };
        let counts = self.run.world.counts();
        let sheet = Sheet {
            account: &account,
            events: counts.events,
            flights: counts.flights,
            forged: counts.forged,
            title: self.remarks.title(),
            bad,
        };
        sheet.push_page(out, &self.chart_run(run_stories))
    }

    // Appends the page, by the stories of the run.
    fn push_page_with(
        &self,
        out: &mut Vec<u8>,
        run_stories: &RunStories,
        bad: &str,
    ) -> Result<(), AllocError>
        ensures { OnOk result (out.new.items ≡ out.old.items ++ page_runs.page_with self.now run_stories.now bad.now) }
    {
        let count = run_stories.stories.len();
        let courses = run_stories.courses.as_slice();
        let ends = ends_of(self.alloc, count, courses)?;
        let index = Index::new(
            self.alloc,
            count,
            self.run.euis.len(),
            &self.run.run_record,
            courses,
            run_stories.sent.as_slice(),
            run_stories.owners.as_slice(),
        )?;
        self.push_page_over(out, run_stories, bad, ends.as_slice(), &index)
    }

    fn chart_run<'a>(&'a self, run_stories: &'a RunStories) -> ChartRun<'a>
        ensures { result ≡ page_runs.chart_run self.now run_stories.now }
    {
        ChartRun {
            alloc: self.alloc,
            run_record: &self.run.run_record,
            courses: run_stories.courses.as_slice(),
            sentences: self.run_sentences.sentences.as_slice(),
            notes: self.remarks.notes(),
            pasts: &self.pasts,
        }
    }

    // The whole page, with the bad line, if there is one.
    #[tactic(auto, unfolding(crate::specs::PageRuns::page_text))]
    fn text(&self, bad: Option<BadLine>) -> Result<Vec<u8>, AllocError>
        ensures { IfOk result (λ text. text.items ≡ page_runs.page_text self.now bad) }
    {
        let run_stories = stories_of(self.alloc, &self.run.run_record)?;
        let said = bad_words(self.alloc, bad)?;
        let mut out = Vec::new(self.alloc);
        self.push_page_with(&mut out, &run_stories, said.as_str())?;
        Ok(out)
    }

    // Looks at a node after an event.
    #[tactic(auto, unfolding(crate::specs::PageRuns::looked), using(crate::proofs::Paged::look_there, crate::proofs::Paged::look_nowhere))]
    fn look(&mut self, event: usize, node: u32) -> Result<(), AllocError>
        ensures { OnOk result (self.new ≡ page_runs.looked event node self.old) }
    {
        if !self.run.world.show(node, &mut self.shown) {
            return Ok(());
        }
        self.pasts.look(node as usize, event, &self.shown)
    }

    // Looks at this many nodes.
    fn look_at_all(&mut self, event: usize, count: u32) -> Result<(), AllocError>
        ensures { OnOk result (self.new ≡ page_runs.looked_at_all event count self.old) }
    {
        for node in 0..count {
            self.look(event, node)?;
        }
        Ok(())
    }

    // Looks at the nodes that an event may change, which is one where a flight came.
    fn look_at_both(&mut self, event: usize, act: &Act) -> Result<(), AllocError>
        ensures { OnOk result (self.new ≡ page_runs.looked_at_both act.now event self.old) }
    {
        self.look(event, actor_of(act))?;
        if is_delivery(act) {
            return Ok(());
        }
        self.look(event, other_of(act))
    }

    // Looks at the nodes that an event of this kind may change.
    fn look_around(&mut self, event: usize, act: &Act) -> Result<(), AllocError>
        ensures { OnOk result (self.new ≡ page_runs.looked_around event act.now self.old) }
    {
        let nodes = self.run.euis.len().min(MOST_NODES) as u32;
        if makes_node(act) {
            self.pasts.push_node()?;
            return self.look(event, nodes.saturating_sub(1));
        }
        if is_tick(act) {
            return self.look_at_all(event, nodes);
        }
        self.look_at_both(event, act)
    }

    // Looks at the nodes that an event may have changed: at none where its frame was for another node, as most are that come.
    fn look_after(&mut self, event: usize, recorded: &RecordedEvent) -> Result<(), AllocError>
        ensures { OnOk result (self.new ≡ page_runs.looked_after event recorded.now self.old) }
    {
        if is_for_another(recorded.answer) {
            return Ok(());
        }
        self.look_around(event, &recorded.act)
    }

    // What is kept of the event that the run took last.
    #[tactic(auto, unfolding(crate::specs::PageRuns::kept))]
    fn keep(&mut self) -> Result<(), AllocError>
        ensures { OnOk result (self.new ≡ page_runs.kept self.old) }
    {
        let event = self.run.run_record.events.len();
        self.remarks.end(self.alloc)?;
        match self.run.run_record.event(event).copied() {
            None => Ok(()),
            Some(recorded) => self.look_after(event, &recorded),
        }
    }
}

impl RunMachine for Page {
    ghost rules = { page_runs.rules };

    // The event has its sentence, and what else there is of it is kept.
    fn step(
        &mut self,
        row: u32,
        event: &Event<'_>,
        space: &mut Buffers,
    ) -> Result<Option<Reason>, AllocError> {
        let refusal = self.run.step(row, event, space)?;
        if refusal.is_some() {
            return Ok(refusal);
        }
        self.run_sentences.add_sentence(&mut self.run, event)?;
        self.keep()?;
        Ok(None)
    }

    fn take_quiet(&mut self, line: &[u8]) -> Result<(), AllocError> {
        self.remarks.take(self.alloc, line)
    }

    fn output(&self, bad: Option<BadLine>) -> Result<Vec<u8>, AllocError> {
        self.text(bad)
    }

    fn finding(&self) -> Finding {
        forged_if(self.run.is_forged())
    }
}
