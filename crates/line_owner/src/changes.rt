//! How the group key of a line is changed.
ghost use Rattle.std.specs.Prelude.{◌≡◌};
ghost use Rattle.line_owner.specs.Changes.{begins_change, change_acts, has_drawn, opens_challenges, with_phase, begins_orders};
ghost use Rattle.line_owner.specs.Changes.{challenges_next};
ghost use Rattle.line_owner.specs.Changes.{is_open_in, is_open, challenge_acts, challenges, done_acts, ends_challenge, orders};
ghost use Rattle.line_owner.specs.Changes.{ends_change};

use crate::owner::{Change, Owner};
use crate::{Act, Acts, Choice, Command, Phase, Saying, Task, later, micros, more};
use plan_tables::Order;

fn change_acts(order: Order, index: u8, count: u64) -> Acts
    ensures { result ≡ change_acts order index count }
{
    let said = Act::Say(Saying::KeyDrawn(index));
    let open = Act::Do(Task::OpenChallenges(count));
    match order {
        Order::CoordinatorFirst => {
            Acts::Three(said, Act::Step(Command::Activate(0, index)), open)
        }
        Order::CoordinatorLast => Acts::Two(said, open),
        Order::MeterByMeter => Acts::Two(said, open),
    }
}

fn challenge_acts(at: u64, node: u32, powered: bool) -> Acts
    ensures { result ≡ challenge_acts at node powered }
{
    let give = Act::Do(Task::Give(0, 2));
    let challenge = Act::Step(Command::Challenge(node));
    let again = Act::Put(at, Task::Challenge(node));
    if powered {
        return Acts::Four(give, Act::Do(Task::Give(node, 1)), challenge, again);
    }
    Acts::Three(give, challenge, again)
}

fn is_open_in(change: Option<Change>, phase: Phase) -> bool
    ensures { result ≡ is_open_in change phase }
{
    match change {
        None => false,
        Some(_) => match phase {
            Phase::Open => true,
            Phase::Out => false,
            Phase::Waits => false,
            Phase::Done => false,
            Phase::Unreached => false,
        },
    }
}

fn done_acts(order: Order, node: u32, change: Option<Change>) -> Acts
    ensures { result ≡ done_acts order node change }
{
    let next = Act::Do(Task::NextChallenge);
    match order {
        Order::MeterByMeter => match change {
            Some(change) => Acts::Two(Act::Step(Command::Activate(node, change.index)), next),
            None => Acts::One(next),
        },
        Order::CoordinatorFirst => Acts::One(next),
        Order::CoordinatorLast => Acts::One(next),
    }
}

impl Owner {
    // A key is drawn.
    #[tactic(auto, unfolding(crate::specs::Changes::begins_change))]
    pub(crate) fn begin_change(&mut self, index: u8) -> Acts
        ensures owner { self.new ≡ (begins_change index self.old).owner }
        ensures acts { result ≡ (begins_change index self.old).acts }
    {
        let key = self.draw_key();
        Acts::One(Act::Step(Command::Rekey(index, key)))
    }

    // The key was drawn.
    #[tactic(auto, unfolding(crate::specs::Changes::has_drawn))]
    pub(crate) fn key_drawn(&mut self, index: u8) -> Acts
        ensures owner { self.new ≡ (has_drawn index self.old).owner }
        ensures acts { result ≡ (has_drawn index self.old).acts }
    {
        let count = self
            .settings
            .rotation
            .at_once
            .min(self.members.count() as u64);
        self.members.begin_change();
        self.change = Some(Change {
            index,
            ordering: false,
        });
        change_acts(self.settings.rotation.order, index, count)
    }

    // This many meters more are challenged.
    #[tactic(auto, unfolding(crate::specs::Changes::opens_challenges))]
    pub(crate) fn open_challenges(&mut self, count: u64) -> Acts
        ensures owner { self.new ≡ (opens_challenges count self.old).owner }
        ensures acts { result ≡ (opens_challenges count self.old).acts }
    {
        if count == 0 {
            return Acts::Nothing;
        }
        Acts::Two(
            Act::Do(Task::NextChallenge),
            Act::Do(Task::OpenChallenges(count - 1)),
        )
    }

    fn set_phase(&mut self, node: u32, phase: Phase)
        ensures { self.new ≡ with_phase node phase self.old }
    {
        let mut member = self.member(node);
        member.phase = phase;
        self.set_member(node, member);
    }

    // All were challenged.
    fn begin_orders(&mut self, now: u64, change: Change) -> Acts
        ensures owner { self.new ≡ (begins_orders now change self.old).owner }
        ensures acts { result ≡ (begins_orders now change self.old).acts }
    {
        if self.members.nth(Choice::Challenged, 0).is_some() {
            return Acts::Nothing;
        }
        if change.ordering {
            return Acts::Nothing;
        }
        self.change = Some(Change {
            index: change.index,
            ordering: true,
        });
        let at = later(now, micros(self.settings.rotation.gap));
        Acts::One(Act::Put(at, Task::Order(0, 0)))
    }

    // The next meter that was not challenged yet.
    #[tactic(auto, unfolding(crate::specs::Changes::challenges_next))]
    pub(crate) fn challenge_next(&mut self, now: u64) -> Acts
        ensures owner { self.new ≡ (challenges_next now self.old).owner }
        ensures acts { result ≡ (challenges_next now self.old).acts }
    {
        let Some(change) = self.change else {
            return Acts::Nothing;
        };
        match self.members.nth(Choice::Waiting, 0) {
            Some(node) => {
                self.set_phase(node, Phase::Open);
                Acts::One(Act::Do(Task::Challenge(node)))
            }
            None => self.begin_orders(now, change),
        }
    }

    fn is_open(&self, node: u32) -> bool
        ensures { result ≡ is_open node self.now }
    {
        is_open_in(self.change, self.member(node).phase)
    }

    // A meter is challenged.
    #[tactic(auto, unfolding(crate::specs::Changes::challenges))]
    pub(crate) fn challenge(&mut self, now: u64, node: u32) -> Acts
        ensures owner { self.new ≡ (challenges now node self.old).owner }
        ensures acts { result ≡ (challenges now node self.old).acts }
    {
        if !self.is_open(node) {
            return Acts::Nothing;
        }
        let mut member = self.member(node);
        if member.challenges >= self.settings.rotation.tries {
            self.set_phase(node, Phase::Unreached);
            return Acts::Two(
                Act::Say(Saying::Unreached(node, member.challenges)),
                Act::Do(Task::NextChallenge),
            );
        }
        let wait = later(now, micros(self.settings.rotation.retry));
        let at = later(wait, u64::from(self.draw_time(10_000_000)));
        member.challenges += 1;
        self.set_member(node, member);
        challenge_acts(at, node, member.powered)
    }

    // A meter has the new key.
    #[tactic(auto, unfolding(crate::specs::Changes::ends_challenge))]
    pub(crate) fn end_challenge(&mut self, node: u32) -> Acts
        ensures owner { self.new ≡ (ends_challenge node self.old).owner }
        ensures acts { result ≡ (ends_challenge node self.old).acts }
    {
        if !self.is_open(node) {
            return Acts::Nothing;
        }
        self.set_phase(node, Phase::Done);
        done_acts(self.settings.rotation.order, node, self.change)
    }

    // A meter is ordered to the new key.
    #[tactic(auto, unfolding(crate::specs::Changes::orders))]
    pub(crate) fn order(&mut self, now: u64, k: u32, nth: u64) -> Acts
        ensures owner { self.new ≡ (orders now k nth self.old).owner }
        ensures acts { result ≡ (orders now k nth self.old).acts }
    {
        let Some(change) = self.change else {
            return Acts::Nothing;
        };
        if let Some(node) = self.members.nth(Choice::Settled, k) {
            let at = later(now, micros(self.settings.rotation.gap));
            return Acts::Two(
                Act::Step(Command::Order(node, change.index)),
                Act::Put(at, Task::Order(more(k), nth)),
            );
        }
        let at = later(now, 31_000_000);
        let next = nth.saturating_add(1);
        if next >= self.settings.rotation.orders {
            return Acts::One(Act::Put(at, Task::EndChange));
        }
        Acts::One(Act::Put(at, Task::Order(0, next)))
    }

    // Last the coordinator seals with the new key.
    #[tactic(auto, unfolding(crate::specs::Changes::ends_change))]
    pub(crate) fn end_change(&mut self) -> Acts
        ensures owner { self.new ≡ (ends_change self.old).owner }
        ensures acts { result ≡ (ends_change self.old).acts }
    {
        let Some(change) = self.change else {
            return Acts::Nothing;
        };
        self.change = None;
        Acts::One(Act::Step(Command::Activate(0, change.index)))
    }
}
