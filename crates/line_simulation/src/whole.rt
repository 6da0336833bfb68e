//! A run as a whole, and its summary.
ghost use Rattle.std.specs.Prelude.{◌≡◌, ◌-◌, IfOk, OnOk, string_bytes};
ghost use Rattle.line_owner.specs.Times.{micros};
ghost use Rattle.line_simulation.specs.Runs.{Ends};
ghost use Rattle.line_simulation.specs.Simulations.{state_of};
ghost use Rattle.line_simulation.specs.Steps.{texted};
ghost use Rattle.line_simulation.specs.RemarkTexts.{title_text};
ghost use Rattle.line_simulation.specs.Turns.{line_remarked, spare_remarked, headed, ran_from_head, limit_remarked, whole_run};

use crate::recording::Recording;
use crate::remarks::Remark;
use crate::simulation::Simulation;
use crate::work::Stop;
use line_figures::{Ending, Line};
use line_owner::micros;
use std::alloc::AllocError;

impl<R: Recording> Simulation<R> {
    // The title is remarked.
    fn remark_title_of_plan(&mut self) -> Result<(), Stop>
        ensures { Ends result (texted R.recorder (title_text (state_of self.old).plan.title) (state_of self.old)) (state_of self.new) }
    {
        let title = self.title()?;
        self.remark_title(title.as_str())
    }

    #[tactic(auto, unfolding(crate::specs::Simulations::state_of))]
    fn title(&self) -> Result<String, AllocError>
        ensures { IfOk result (λ title. string_bytes title ≡ (state_of self.now).plan.title) }
    {
        String::from_str(self.alloc, self.plan.title.text())
    }

    #[tactic(auto, unfolding(crate::specs::Simulations::state_of))]
    fn meters(&self) -> u32
        ensures { result ≡ (state_of self.now).book.nodes - 1 }
    {
        self.book.nodes().saturating_sub(1)
    }

    #[tactic(auto, unfolding(crate::specs::Simulations::state_of))]
    fn seed(&self) -> u64
        ensures { result ≡ (state_of self.now).plan.seed }
    {
        self.plan.seed
    }

    // How many meters there are is remarked, and the seed.
    fn remark_line(&mut self) -> Result<(), Stop>
        ensures { Ends result (line_remarked R.recorder (state_of self.old)) (state_of self.new) }
    {
        let meters = self.meters();
        let seed = self.seed();
        self.remark(&Remark::Line { meters, seed })
    }

    #[tactic(auto, unfolding(crate::specs::Simulations::state_of))]
    fn has_spare(&self) -> bool
        ensures { result ≡ (state_of self.now).plan.owner.readings.refresh }
    {
        self.plan.owner.readings.refresh
    }

    // A spare meter is remarked.
    fn remark_spare(&mut self) -> Result<(), Stop>
        ensures { Ends result (spare_remarked R.recorder (state_of self.old).plan.owner.readings.refresh (state_of self.old)) (state_of self.new) }
    {
        if !self.has_spare() {
            return Ok(());
        }
        let node = self.spare();
        self.remark(&Remark::Spare { node })
    }

    // The remarks at the head of a script.
    #[tactic(auto, unfolding(crate::specs::Turns::headed))]
    fn remark_head(&mut self) -> Result<(), Stop>
        ensures { Ends result (headed R.recorder (state_of self.old)) (state_of self.new) }
    {
        self.remark_title_of_plan()?;
        self.remark_line()?;
        self.remark_spare()
    }

    // How long the run is, in microseconds.
    #[tactic(auto, unfolding(crate::specs::Simulations::state_of))]
    fn end(&self) -> u64
        ensures { result ≡ micros (state_of self.now).plan.length }
    {
        micros(self.plan.length)
    }

    #[tactic(auto, unfolding(crate::specs::Turns::ran_from_head))]
    fn run_from_head(&mut self) -> Result<(), Stop>
        ensures { Ends result (ran_from_head R.recorder (state_of self.old)) (state_of self.new) }
    {
        self.remark_head()?;
        let end = self.end();
        self.run(end)
    }

    // That the run ends before its time is remarked, where there is room for that.
    fn remark_limit(&mut self) -> Result<(), AllocError>
        ensures { OnOk result (state_of self.new ≡ limit_remarked R.recorder (state_of self.old)) }
    {
        match self.remark(&Remark::Limit) {
            Ok(()) => Ok(()),
            Err(Stop::Limit) => Ok(()),
            Err(Stop::Memory) => Err(AllocError),
        }
    }

    /// Runs the line to the end of its time. False where the script, or the bound of the moments, ended the run before; a remark then says so.
    #[tactic(auto, unfolding(crate::specs::Turns::whole_run))]
    pub fn run_whole(&mut self) -> Result<bool, AllocError>
        ensures { IfOk result (λ whole. whole_run R.recorder (state_of self.old) ≡ record { whole = whole; simulated = state_of self.new }) }
    {
        match self.run_from_head() {
            Ok(()) => Ok(true),
            Err(Stop::Memory) => Err(AllocError),
            Err(Stop::Limit) => {
                self.remark_limit()?;
                Ok(false)
            }
        }
    }

    // How many links the place has, each in one direction.
    fn links(&self) -> u64 {
        let place = self.air.place();
        let mut links = 0_u64;
        for node in 0..self.book.nodes() {
            links = links.saturating_add(place.hearers(node).len() as u64);
        }
        links
    }

    /// The summary of a run that went on to the end of its time, or did not, as one line of JSON with its line feed.
    pub fn summary(&mut self, whole: bool) -> Result<String, AllocError> {
        let counted = self.recording.counted();
        let ending = Ending {
            whole,
            at: self.time,
            events: u64::from(counted.events),
            flights: u64::from(counted.flights),
            forged: u64::from(counted.forged),
            joined: self.figures.joinings.joined(),
        };
        let title = String::from_str(self.alloc, self.plan.title.text())?;
        let line = Line {
            title: title.as_str(),
            seed: self.plan.seed,
            meters: u64::from(self.meters()),
            links: self.links(),
        };
        let mut text = self.figures.summary(self.alloc, &line, &ending)?;
        text.push_str("\n")?;
        Ok(text)
    }
}
