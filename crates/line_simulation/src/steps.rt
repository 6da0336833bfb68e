//! Events, and the ticks before them.
ghost use Rattle.std.specs.Prelude.{◌≡◌, ◌≤◌, ltb};
ghost use Rattle.line_simulation.specs.Runs.{Ends};
ghost use Rattle.line_simulation.specs.Simulations.{state_of};
ghost use Rattle.line_simulation.specs.Steps.{stepped_now, tick_of, ticks_of, ticked, behind, on_time, stepped, stepped_and_taken};

use crate::facts::Facts;
use crate::recording::{RecordFault, Recording};
use crate::simulation::Simulation;
use crate::work::{PendingWork, Stop};
use line_events::Event;
use line_script::answer_word;

/// The longest step of the line's clock, in seconds.
const LONGEST_TICK: u64 = 86_400;

// The longest tick of this many seconds.
fn tick_of(gap: u64) -> u32
    ensures value { result ≡ tick_of gap }
    ensures bound { result ≤ gap }
{
    gap.min(LONGEST_TICK) as u32
}

// How many ticks this many seconds are.
fn ticks_of(gap: u64) -> u64
    ensures { result ≡ ticks_of gap }
{
    if gap % LONGEST_TICK == 0 {
        return gap / LONGEST_TICK;
    }
    gap / LONGEST_TICK + 1
}

impl<R: Recording> Simulation<R> {
    // Steps an event at the time of the line, and counts how it ended. None where the line does not take it.
    #[tactic(auto, unfolding(crate::specs::Steps::stepped_now, crate::specs::Simulations::state_of))]
    fn step_now(&mut self, word: &'static str, event: &Event<'_>) -> Result<Option<Facts>, Stop>
        ensures { Ends result (stepped_now R.recorder event.now (state_of self.old)) (state_of self.new) }
    {
        match self.recording.record(event) {
            Ok(facts) => {
                self.figures.answers.count(word, answer_word(facts.answer))?;
                Ok(Some(facts))
            }
            Err(RecordFault::Full) => Err(Stop::Limit),
            Err(RecordFault::Refused) => Ok(None),
            Err(RecordFault::Memory) => Err(Stop::Memory),
        }
    }

    // How many seconds the clock of the line is behind the time.
    #[tactic(auto, unfolding(crate::specs::Simulations::state_of))]
    fn behind(&self) -> u64
        ensures { result ≡ behind R.recorder (state_of self.now) }
    {
        (self.time / 1_000_000).saturating_sub(self.recording.clock())
    }

    // The clock of the line moves on by this many seconds, in this many ticks.
    fn tick(&mut self, ticks: u64, seconds: u64) -> Result<(), Stop>
        ensures { Ends result (ticked R.recorder ticks seconds (state_of self.old)) (state_of self.new) }
    {
        let mut gap = seconds;
        for turn in 0..ticks {
            let step = tick_of(gap);
            match self.step_now("tick", &Event::Tick { seconds: step }) {
                Ok(_) => gap -= u64::from(step),
                Err(stop) => return Err(stop),
            }
        }
        Ok(())
    }

    // Whether the script has room for this many events.
    #[tactic(auto, unfolding(crate::specs::Simulations::state_of))]
    fn has_no_room(&self, events: u64) -> bool
        ensures { result ≡ ltb (R.recorder.room (state_of self.now).recorder) events }
    {
        events > u64::from(self.recording.room())
    }

    /// Brings the clock of the line to the whole second, where this many events follow. Nothing is stepped where not all of them fit.
    #[tactic(auto, unfolding(crate::specs::Steps::on_time))]
    pub fn keep_time(&mut self, events: u64) -> Result<(), Stop>
        ensures { Ends result (on_time R.recorder events (state_of self.old)) (state_of self.new) }
    {
        let gap = self.behind();
        let ticks = ticks_of(gap);
        if self.has_no_room(ticks.saturating_add(events)) {
            return Err(Stop::Limit);
        }
        self.tick(ticks, gap)
    }

    /// Steps an event, after the clock of the line was brought to the time. None where the line does not take it.
    #[tactic(auto, unfolding(crate::specs::Steps::stepped))]
    pub fn step(&mut self, word: &'static str, event: &Event<'_>) -> Result<Option<Facts>, Stop>
        ensures { Ends result (stepped R.recorder event.now (state_of self.old)) (state_of self.new) }
    {
        self.keep_time(1)?;
        self.step_now(word, event)
    }

    /// Steps an event for which the clock was brought to the time before.
    pub fn step_timed(
        &mut self,
        word: &'static str,
        event: &Event<'_>,
    ) -> Result<Option<Facts>, Stop>
        ensures { Ends result (stepped_now R.recorder event.now (state_of self.old)) (state_of self.new) }
    {
        self.step_now(word, event)
    }

    /// Steps an event, and takes up what it brings.
    #[tactic(auto, unfolding(crate::specs::Steps::stepped_and_taken, crate::specs::Simulations::state_of))]
    pub fn step_and_take(&mut self, word: &'static str, event: &Event<'_>) -> Result<(), Stop>
        ensures { Ends result (stepped_and_taken R.recorder event.now (state_of self.old)) (state_of self.new) }
    {
        if let Some(facts) = self.step(word, event)? {
            self.work.push(PendingWork::Facts(facts, 0))?;
        }
        Ok(())
    }
}
