//! What a station makes of route replies.
ghost use Rattle.std.specs.Prelude.{◌≡◌, ◌==◌, ◌+◌, ◌<◌, ◌≤◌, Some, None, Ok, Err, IfSome, length};
ghost use Rattle.loadng_messages.specs.declared.message.Message.TheVariants as message;
ghost use Rattle.node_rules.specs.Drafts as drafts;
ghost use Rattle.node_rules.specs.HearingRules as hearing_rules;
ghost use Rattle.fragment_buffers.specs.WaitingBodies.{leaving};
ghost use Rattle.node_rules.specs.CarriedPlans.{Carries};
ghost use Rattle.plc_station.specs.Hears.{Hears, reply_sent_by};
ghost use Rattle.node_rules.specs.Agreement.{Agrees};
ghost use Rattle.plc_station.specs.Ready.{ReadyToSend};
ghost use Rattle.plc_station.specs.Offers.{CanBeKept, offered_rank};
ghost use Rattle.plc_base.specs.declared.limits.TheConstants.{GREATEST_COUNTER};

use crate::offers::{LastHop, Offer, Offered};
use crate::station::Station;
use loadng_messages::Message;
use node_rules::{Dropped, Heard, Reply};
use plc_base::{Destination, Grant, Keeper, Out, Short};

impl<K: Keeper + Drop> Station<K> {
    // Sends a reply for another address on, to the hop.
    fn pass_on(
        &mut self,
        grant: &Grant,
        offer: &Offer,
        hop: Short,
        to: Short,
        out: &mut Out,
    ) -> Result<(), Dropped>
        requires ready { ReadyToSend self.old grant.now out.old }
        requires offer { IfSome self.old.memory (λ l. CanBeKept l.routing offer.now) }
        requires left { IfSome self.old.memory
            (λ l. l.counter.next + (length (leaving grant.now.address offer.now.origin offer.now.by l.waiting) + 1) ≤ GREATEST_COUNTER) }
        requires fresh { self.old.replied ≡ None }
        ensures carries { IfSome self.old.memory (λ l. Carries self.old (drafts.sealing drafts.alone hearing_rules.dropped
            (drafts.send_message hop (message.Rrep offer.now.rank.number offer.now.rank.cost offer.now.origin to)
            (hearing_rules.offers grant.now.address offer.now.origin offer.now.rank offer.now.by offer.now.time l)) tt) result out.new self.new) }
        ensures agrees { Agrees self.new }
        ensures replied { IfSome self.old.memory (λ l. self.new.replied ≡ reply_sent_by
            (drafts.send_message hop (message.Rrep offer.now.rank.number offer.now.rank.cost offer.now.origin to)
            (hearing_rules.offers grant.now.address offer.now.origin offer.now.rank offer.now.by offer.now.time l)) self.new.memory) }
    {
        let reply = Message::Rrep {
            number: offer.rank.number,
            cost: offer.rank.cost,
            origin: offer.origin,
            to,
        };
        self.relay(grant, offer, Destination::one(hop), &reply, out)?;
        self.replied = Some(Reply {
            to: hop,
            number: offer.rank.number,
            origin: offer.origin,
        });
        Ok(())
    }

    // Hears a reply for another address, to which this hop leads.
    fn hear_reply_for(
        &mut self,
        grant: &Grant,
        last: &LastHop,
        hop: Short,
        offered: &Offered,
        to: Short,
        out: &mut Out,
    ) -> Result<Heard<'static>, Dropped>
        requires ready { ReadyToSend self.old grant.now out.old }
        requires valid { 1 ≤ offered.now.number }
        requires fresh { self.old.replied ≡ None }
        ensures hears { IfSome self.old.memory (λ l. Hears self.old
            (hearing_rules.hear_reply_for l grant.now.address last.now.by offered.now.origin to (offered_rank offered.now) last.now.time
            (Some hop)) result out.new self.new) }
        ensures agrees { Agrees self.new }
    {
        let offer = self.take_offer(grant, last, offered)?;
        let units = self.bodies.units_for(offered.origin);
        let left = self.parts.counter.left();
        if left < units + 1 {
            return Err(Dropped::CounterSpent);
        }
        match self.pass_on(grant, &offer, hop, to, out) {
            Ok(()) => Ok(Heard::Relayed),
            Err(reason) => Err(reason),
        }
    }

    // Hears a route reply, whose cost is that of the message and of the link that it came over.
    pub(crate) fn hear_reply(
        &mut self,
        grant: &Grant,
        last: &LastHop,
        offered: &Offered,
        to: Short,
        out: &mut Out,
    ) -> Result<Heard<'static>, Dropped>
        requires ready { ReadyToSend self.old grant.now out.old }
        requires valid { 1 ≤ offered.now.number }
        requires fresh { self.old.replied ≡ None }
        ensures hears { IfSome self.old.memory
            (λ l. Hears self.old (hearing_rules.hear_reply l grant.now.address last.now.by offered.now.origin to
            (offered_rank offered.now) last.now.time) result out.new self.new) }
        ensures agrees { Agrees self.new }
    {
        if to.number() == grant.address.number() {
            return self.hear_own_reply(grant, last, offered, out);
        }
        let Some(hop) = self.parts.routing.route(to) else {
            return Err(Dropped::NoRoute);
        };
        self.hear_reply_for(grant, last, hop, offered, to, out)
    }
}
