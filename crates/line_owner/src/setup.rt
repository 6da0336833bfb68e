//! How a line is set up.
ghost use Rattle.std.specs.Prelude.{◌≡◌, ◌<◌};
ghost use Rattle.line_owner.specs.Setups.{makes, enters, draws_join, span, since_first, round_at, refreshes_before, round_acts, puts_round};
ghost use Rattle.line_owner.specs.Setups.{after_refresh, draws_read};

use crate::owner::Owner;
use crate::settings::Settings;
use crate::{Act, Acts, Command, Task, later, micros, more};
use plan_tables::Way;

// A moment is drawn within this many seconds, in milliseconds.
fn span(seconds: u64) -> u32
    ensures { result ≡ span seconds }
{
    let millis = seconds.saturating_mul(1_000).max(1);
    millis.min(0xffff_ffff) as u32
}

// How long after the first round of readings a round begins.
#[tactic(auto, unfolding(crate::specs::Setups::since_first))]
fn since_first(settings: &Settings, round: u32) -> u64
    ensures { result ≡ since_first settings.now round }
{
    let before = u64::from(round).saturating_sub(1);
    before.saturating_mul(micros(settings.readings.every))
}

// When a round of readings begins.
fn round_at(settings: &Settings, round: u32) -> u64
    ensures { result ≡ round_at settings.now round }
{
    later(micros(settings.readings.from), since_first(settings, round))
}

// Whether the coordinator gives routes anew before a round.
#[tactic(auto, unfolding(crate::specs::Setups::refreshes_before))]
fn refreshes_before(settings: &Settings, round: u32) -> bool
    ensures { result ≡ refreshes_before settings.now round }
{
    if !settings.readings.refresh {
        return false;
    }
    let span = micros(settings.readings.refresh_every);
    if span == 0 {
        return true;
    }
    if round <= 1 {
        return true;
    }
    since_first(settings, round - 1) / span < since_first(settings, round) / span
}

// Who begins a reading.
fn round_acts(settings: &Settings, round: u32, at: u64) -> Acts
    ensures { result ≡ round_acts settings.now round at }
{
    let refresh = Act::Put(at, Task::Refresh);
    let refreshes = refreshes_before(settings, round);
    match settings.readings.way {
        Way::Push => {
            let draw = Act::Do(Task::DrawReads(round, 1));
            if refreshes {
                return Acts::Two(refresh, draw);
            }
            Acts::One(draw)
        }
        Way::Poll => {
            let polls = Act::Put(at, Task::BeginPolls(round));
            let next = Act::Do(Task::PutRounds(more(round)));
            if refreshes {
                return Acts::Three(refresh, polls, next);
            }
            Acts::Two(polls, next)
        }
    }
}

// How much later readings of a round are sent.
fn after_refresh(settings: &Settings, round: u32) -> u64
    ensures { result ≡ after_refresh settings.now round }
{
    if refreshes_before(settings, round) {
        return 30_000_000;
    }
    0
}

impl Owner {
    // The nodes from this one on are made.
    #[tactic(auto, unfolding(crate::specs::Setups::makes))]
    pub(crate) fn make(&mut self, node: u32) -> Acts
        ensures owner { self.new ≡ (makes node self.old).owner }
        ensures acts { result ≡ (makes node self.old).acts }
    {
        if (node as usize) < self.members.count() {
            let next = Act::Do(Task::Make(more(node)));
            let key = self.draw_key();
            if node > 0 {
                return Acts::Two(Act::Step(Command::Meter(node, key)), next);
            }
            return Acts::Two(Act::Step(Command::Coordinator(key)), next);
        }
        let enter = Act::Do(Task::Enter(1));
        if !self.settings.readings.refresh {
            return Acts::One(enter);
        }
        let key = self.draw_key();
        Acts::Three(
            Act::Step(Command::Meter(node, key)),
            Act::Step(Command::Depot(node)),
            enter,
        )
    }

    // The meters from this one on are joined in the workshop, or allowed.
    #[tactic(auto, unfolding(crate::specs::Setups::enters))]
    pub(crate) fn enter(&mut self, node: u32) -> Acts
        ensures owner { self.new ≡ (enters node self.old).owner }
        ensures acts { result ≡ (enters node self.old).acts }
    {
        let depot = self.settings.joining.depot;
        if (node as usize) < self.members.count() {
            let next = Act::Do(Task::Enter(more(node)));
            if depot {
                return Acts::Two(Act::Step(Command::Depot(node)), next);
            }
            return Acts::Two(Act::Step(Command::Allow(node)), next);
        }
        if depot {
            return Acts::One(Act::Do(Task::PutRounds(1)));
        }
        Acts::One(Act::Do(Task::DrawJoins(1)))
    }

    // The meters from this one on draw when they join.
    #[tactic(auto, unfolding(crate::specs::Setups::draws_join))]
    pub(crate) fn draw_join(&mut self, node: u32) -> Acts
        ensures owner { self.new ≡ (draws_join node self.old).owner }
        ensures acts { result ≡ (draws_join node self.old).acts }
    {
        if node as usize >= self.members.count() {
            return Acts::One(Act::Do(Task::PutRounds(1)));
        }
        let millis = self.draw_time(span(self.settings.joining.within));
        let at = later(
            micros(self.settings.joining.from),
            u64::from(millis) * 1_000,
        );
        Acts::Two(
            Act::Put(at, Task::TryJoin(node)),
            Act::Do(Task::DrawJoins(more(node))),
        )
    }

    // The rounds of readings from this one on are put.
    #[tactic(auto, unfolding(crate::specs::Setups::puts_round))]
    pub(crate) fn put_round(&mut self, round: u32) -> Acts
        ensures owner { self.new ≡ (puts_round round self.old).owner }
        ensures acts { result ≡ (puts_round round self.old).acts }
    {
        if u64::from(round) > self.settings.readings.times {
            return Acts::Nothing;
        }
        let at = round_at(&self.settings, round);
        if at >= micros(self.settings.length) {
            return Acts::Nothing;
        }
        round_acts(&self.settings, round, at)
    }

    // The meters from this one on draw when they send.
    #[tactic(auto, unfolding(crate::specs::Setups::draws_read))]
    pub(crate) fn draw_read(&mut self, round: u32, node: u32) -> Acts
        ensures owner { self.new ≡ (draws_read round node self.old).owner }
        ensures acts { result ≡ (draws_read round node self.old).acts }
    {
        if node as usize >= self.members.count() {
            return Acts::One(Act::Do(Task::PutRounds(more(round))));
        }
        let millis = self.draw_time(span(self.settings.readings.within));
        let begin = later(
            round_at(&self.settings, round),
            after_refresh(&self.settings, round),
        );
        let at = later(begin, u64::from(millis) * 1_000);
        Acts::Two(
            Act::Put(at, Task::Read(node, round)),
            Act::Do(Task::DrawReads(round, more(node))),
        )
    }
}
