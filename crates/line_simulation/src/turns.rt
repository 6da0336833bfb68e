//! One moment of the calendar after the other, and all that each leads to.
ghost use Rattle.std.specs.Prelude.{◌≡◌, [], IfOk, map, None, OnOk, slice_get};
ghost use Rattle.line_air.specs.Calendars.{first_due, later};
ghost use Rattle.line_simulation.specs.declared.turns.TheConstants.{MOST_TURNS, MOST_WORK};
ghost use Rattle.line_simulation.specs.Runs.{Ends};
ghost use Rattle.line_simulation.specs.Simulations.{state_of};
ghost use Rattle.line_simulation.specs.Turns.{gone_on, carried_out, work_of, with_work, carried_one, carried_on, job_begun, begun, at_time, moment_done};
ghost use Rattle.line_simulation.specs.Turns.{is_past, with_due, turn_done, turns_done, time_of, incidents_put, set_up, ran};

use crate::recording::Recording;
use crate::simulation::Simulation;
use crate::work::{Job, PendingWork, Stop};
use line_air::{Due, Moment};
use line_owner::{Task, micros};
use plan_tables::Incident;
use std::alloc::{AllocError, Global};

/// This many moments of the calendar are carried out at most.
const MOST_TURNS: u32 = 20_000_000;

/// So much work follows from one moment at most.
const MOST_WORK: u32 = 20_000_000;

// When incidents happen, in microseconds.
fn times_of(alloc: Global, incidents: &[Incident]) -> Result<Vec<u64>, AllocError>
    ensures { IfOk result (λ times. times.items ≡ map time_of incidents.now) }
{
    let mut times = Vec::new(alloc);
    for incident in incidents {
        times.push(micros(incident.at))?;
    }
    Ok(times)
}

impl<R: Recording> Simulation<R> {
    // A node and those around it go on sending.
    #[tactic(auto, unfolding(crate::specs::Simulations::state_of))]
    fn go_on(&mut self, node: u32) -> Result<(), AllocError>
        ensures { OnOk result (state_of self.new ≡ gone_on node (state_of self.old)) }
    {
        self.air.go_on(&mut self.calendar, self.time, node)
    }

    // Does one thing.
    #[tactic(auto, unfolding(crate::specs::Turns::carried_out))]
    fn carry_out(&mut self, work: PendingWork) -> Result<(), Stop>
        ensures { Ends result (carried_out R.recorder work (state_of self.old)) (state_of self.new) }
    {
        match work {
            PendingWork::Act(act) => self.act(act),
            PendingWork::Task(task) => self.task(task),
            PendingWork::Answered(command, outcome) => {
                self.answer(command, outcome)?;
                Ok(())
            }
            PendingWork::Notice(notice) => {
                self.notice(notice)?;
                Ok(())
            }
            PendingWork::Facts(facts, hops) => {
                self.take_up(facts, hops)?;
                Ok(())
            }
            PendingWork::Fly(flight, hops) => {
                self.fly(flight, hops)?;
                Ok(())
            }
            PendingWork::Came(came, hops) => {
                self.message_came(came, hops)?;
                Ok(())
            }
            PendingWork::Break(node, next) => self.break_route(node, next),
            PendingWork::GoOn(node) => {
                self.go_on(node)?;
                Ok(())
            }
            PendingWork::Tear(node, nth, leaves) => self.tear(node, nth, leaves),
            PendingWork::Kick(node) => self.kick(node),
            PendingWork::Replay(node, count) => self.replay(node, count),
            PendingWork::Release(node) => self.release(node),
            PendingWork::Inject(node, cost, flight) => self.inject_flight(node, cost, flight),
            PendingWork::FalseJoin(node) => self.false_join(node),
        }
    }

    // Takes what is to be done next.
    #[tactic(auto, unfolding(crate::specs::Simulations::state_of))]
    fn next(&mut self) -> Option<PendingWork>
        ensures first { (state_of self.old).work ≡ work_of result (state_of self.new).work }
        ensures none { result ≡ None → (state_of self.old).work ≡ [] }
        ensures rest { state_of self.new ≡ with_work (state_of self.new).work (state_of self.old) }
    {
        self.work.pop()
    }

    // Does the next thing, if there is one.
    #[tactic(auto, unfolding(crate::specs::Turns::carried_one))]
    fn carry_one(&mut self) -> Result<bool, Stop>
        ensures { Ends result (carried_one R.recorder (state_of self.old)) (state_of self.new) }
    {
        let Some(work) = self.next() else {
            return Ok(false);
        };
        self.carry_out(work)?;
        Ok(true)
    }

    // Does what is to be done, until nothing is left.
    fn carry_on(&mut self) -> Result<(), Stop>
        ensures { Ends result (carried_on R.recorder MOST_WORK (state_of self.old)) (state_of self.new) }
    {
        for turn in 0..MOST_WORK {
            match self.carry_one() {
                Ok(true) => {}
                Ok(false) => return Ok(()),
                Err(stop) => return Err(stop),
            }
        }
        Err(Stop::Limit)
    }

    // The job of this number.
    #[tactic(auto, unfolding(crate::specs::Simulations::state_of))]
    fn job(&self, number: u32) -> Option<Job>
        ensures { result ≡ slice_get (state_of self.now).jobs number }
    {
        self.jobs.get(number as usize).copied()
    }

    fn begin_job(&mut self, job: Option<Job>) -> Result<(), Stop>
        ensures { Ends result (job_begun R.recorder job (state_of self.old)) (state_of self.new) }
    {
        match job {
            Some(Job::Task(task)) => {
                self.push(PendingWork::Task(task))?;
                Ok(())
            }
            Some(Job::Incident(nth)) => self.begin_incident(nth),
            Some(Job::Release(node)) => {
                self.push(PendingWork::Release(node))?;
                Ok(())
            }
            None => Ok(()),
        }
    }

    // A moment comes.
    #[tactic(auto, unfolding(crate::specs::Turns::begun))]
    fn begin(&mut self, moment: Moment) -> Result<(), Stop>
        ensures { Ends result (begun R.recorder moment (state_of self.old)) (state_of self.new) }
    {
        match moment {
            Moment::Attempt { node } => self.attempt(node),
            Moment::End {
                node,
                flight,
                segments,
            } => self.end_frame(node, flight, segments),
            Moment::Task(number) => {
                let job = self.job(number);
                self.begin_job(job)
            }
        }
    }

    // The time is that of a moment.
    #[tactic(auto, unfolding(crate::specs::Simulations::state_of))]
    fn set_time(&mut self, at: u64)
        ensures { state_of self.new ≡ at_time at (state_of self.old) }
    {
        self.time = at;
    }

    // A moment comes, and all that it leads to.
    #[tactic(auto, unfolding(crate::specs::Turns::moment_done))]
    fn do_moment(&mut self, due: Due) -> Result<(), Stop>
        ensures { Ends result (moment_done R.recorder due (state_of self.old)) (state_of self.new) }
    {
        self.set_time(due.at);
        self.begin(due.moment)?;
        self.carry_on()
    }

    // Whether nothing more is due up to a time.
    #[tactic(auto, unfolding(crate::specs::Simulations::state_of))]
    fn is_past(&self, end: u64) -> bool
        ensures { result ≡ is_past end (state_of self.now).sky.due }
    {
        match self.calendar.first() {
            Some(at) => at > end,
            None => true,
        }
    }

    // Takes the first moment.
    #[tactic(auto, unfolding(crate::specs::Simulations::state_of))]
    fn take_moment(&mut self) -> Option<Due>
        ensures first { result ≡ first_due (state_of self.old).sky.due }
        ensures rest { state_of self.new ≡ with_due (later (state_of self.old).sky.due) (state_of self.old) }
    {
        self.calendar.take()
    }

    // The next moment up to a time comes, with all that it leads to. False where there is none.
    #[tactic(auto, unfolding(crate::specs::Turns::turn_done))]
    fn do_turn(&mut self, end: u64) -> Result<bool, Stop>
        ensures { Ends result (turn_done R.recorder end (state_of self.old)) (state_of self.new) }
    {
        if self.is_past(end) {
            return Ok(false);
        }
        let Some(due) = self.take_moment() else {
            return Ok(false);
        };
        self.do_moment(due)?;
        Ok(true)
    }

    // One moment after the other comes, up to a time.
    fn do_turns(&mut self, end: u64) -> Result<(), Stop>
        ensures { Ends result (turns_done R.recorder end MOST_TURNS (state_of self.old)) (state_of self.new) }
    {
        for turn in 0..MOST_TURNS {
            match self.do_turn(end) {
                Ok(true) => {}
                Ok(false) => return Ok(()),
                Err(stop) => return Err(stop),
            }
        }
        Err(Stop::Limit)
    }

    // When the incidents of the description happen.
    #[tactic(auto, unfolding(crate::specs::Simulations::state_of))]
    fn incident_times(&self) -> Result<Vec<u64>, AllocError>
        ensures { IfOk result (λ times. times.items ≡ map time_of (state_of self.now).plan.incidents) }
    {
        times_of(self.alloc, self.plan.incidents.incidents())
    }

    // Incidents are put on the calendar, at their times.
    fn put_incidents(&mut self, times: &[u64]) -> Result<(), Stop>
        ensures { Ends result (incidents_put 0 times.now (state_of self.old)) (state_of self.new) }
    {
        for nth in 0..times.len() {
            match self.put(times[nth], Job::Incident(nth)) {
                Ok(()) => {}
                Err(stop) => return Err(stop),
            }
        }
        Ok(())
    }

    // The nodes are made, and what is to happen is put on the calendar.
    #[tactic(auto, unfolding(crate::specs::Turns::set_up))]
    fn set_up(&mut self) -> Result<(), Stop>
        ensures { Ends result (set_up R.recorder (state_of self.old)) (state_of self.new) }
    {
        self.push(PendingWork::Task(Task::Make(0)))?;
        self.carry_on()?;
        let times = self.incident_times()?;
        self.put_incidents(times.as_slice())
    }

    /// Runs the line up to a time.
    #[tactic(auto, unfolding(crate::specs::Turns::ran))]
    pub fn run(&mut self, end: u64) -> Result<(), Stop>
        ensures { Ends result (ran R.recorder end (state_of self.old)) (state_of self.new) }
    {
        self.set_up()?;
        self.do_turns(end)
    }
}
