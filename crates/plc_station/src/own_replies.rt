//! What a station makes of route replies for its own address.
ghost use Rattle.std.specs.Prelude.{◌+◌, ◌<◌, ◌≤◌, true, false, Ok, Err, IfSome, length};
ghost use Rattle.node_rules.specs.Drafts as drafts;
ghost use Rattle.node_rules.specs.HearingRules as hearing_rules;
ghost use Rattle.fragment_buffers.specs.WaitingBodies.{leaving};
ghost use Rattle.node_rules.specs.CarriedPlans.{Carries};
ghost use Rattle.plc_station.specs.Ready.{After, ReadyToSend};
ghost use Rattle.plc_station.specs.Offers.{CanBeKept, offered_rank};
ghost use Rattle.plc_base.specs.declared.limits.TheConstants.{GREATEST_COUNTER};

use crate::offers::{LastHop, Offer, Offered};
use crate::station::Station;
use node_rules::{Dropped, Heard};
use plc_base::{Grant, Keeper, Out};

impl<K: Keeper + Drop> Station<K> {
    // Keeps the rank that a reply for the own address offers, and what waits for the origin leaves.
    fn learn(&mut self, grant: &Grant, offer: &Offer, out: &mut Out) -> Result<(), Dropped>
        requires ready { ReadyToSend self.old grant.now out.old }
        requires offer { IfSome self.old.memory (λ l. CanBeKept l.routing offer.now) }
        requires left { IfSome self.old.memory
            (λ l. l.counter.next + length (leaving grant.now.address offer.now.origin offer.now.by l.waiting) ≤ GREATEST_COUNTER) }
        ensures carries { IfSome self.old.memory (λ l. Carries self.old (drafts.sealing drafts.alone hearing_rules.dropped
            (hearing_rules.offers grant.now.address offer.now.origin offer.now.rank offer.now.by offer.now.time l) tt) result out.new self.new) }
        ensures after { After self.old self.new }
    {
        self.halted = true;
        let Ok(()) = self.parts.routing.keep(
            &mut self.keeper,
            offer.origin,
            offer.rank,
            offer.by,
            offer.time,
        )
        else {
            return Err(Dropped::Store);
        };
        let units = self.bodies.units_for(offer.origin);
        let Ok(first) = self.parts.counter.reserve(&mut self.keeper, units) else {
            return Err(Dropped::Store);
        };
        let key = grant.sealing_key();
        self.cipher.renew(&key);
        self.bodies.seal_leaving(
            offer.origin,
            grant,
            &key,
            &self.cipher,
            first,
            offer.by,
            &mut *self.buffer,
            out,
        );
        self.bodies.drop_for(offer.origin);
        self.halted = false;
        Ok(())
    }

    // Hears a reply for the own address.
    pub(crate) fn hear_own_reply(
        &mut self,
        grant: &Grant,
        last: &LastHop,
        offered: &Offered,
        out: &mut Out,
    ) -> Result<Heard<'static>, Dropped>
        requires ready { ReadyToSend self.old grant.now out.old }
        requires valid { 1 ≤ offered.now.number }
        ensures carries { IfSome self.old.memory (λ l. Carries self.old
            (drafts.checked hearing_rules.dropped l
            (hearing_rules.rank_fault l grant.now.address offered.now.origin (offered_rank offered.now) last.now.time)
            (hearing_rules.learns l grant.now.address last.now.by offered.now.origin
            (offered_rank offered.now) last.now.time)) result out.new self.new) }
        ensures after { After self.old self.new }
    {
        let offer = self.take_offer(grant, last, offered)?;
        let units = self.bodies.units_for(offered.origin);
        let left = self.parts.counter.left();
        if left < units {
            return Err(Dropped::CounterSpent);
        }
        match self.learn(grant, &offer, out) {
            Ok(()) => Ok(Heard::Learned),
            Err(reason) => Err(reason),
        }
    }
}
