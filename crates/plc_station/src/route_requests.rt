//! What a station makes of route requests.
ghost use Rattle.std.specs.Prelude.{◌≡◌, ◌==◌, ◌+◌, ◌<◌, ◌≤◌, true, false, Some, None, Ok, Err, IfSome, length};
ghost use Rattle.loadng_messages.specs.declared.message.Message.TheVariants as message;
ghost use Rattle.node_rules.specs.Drafts as drafts;
ghost use Rattle.node_rules.specs.HearingRules as hearing_rules;
ghost use Rattle.fragment_buffers.specs.WaitingBodies.{leaving};
ghost use Rattle.node_rules.specs.CarriedPlans.{Carries};
ghost use Rattle.plc_station.specs.Hears.{Hears, reply_sent_by};
ghost use Rattle.node_rules.specs.Agreement.{Agrees};
ghost use Rattle.plc_station.specs.Ready.{ReadyToSend};
ghost use Rattle.plc_station.specs.Offers.{CanBeKept, offered_rank};
ghost use Rattle.plc_base.specs.declared.limits.TheConstants.{GREATEST_COUNTER};

use crate::offers::{LastHop, Offer, Offered};
use crate::sealing::seal_waiting_then;
use crate::station::Station;
use loadng_messages::Message;
use node_rules::{Dropped, Heard, Reply};
use plc_base::{Destination, Grant, Keeper, Out, Short};

impl<K: Keeper + Drop> Station<K> {
    // Answers a request for the own address: the rank is kept, an own number is taken, what waits for the origin leaves, and the
    // reply goes to the neighbour.
    fn answer(&mut self, grant: &Grant, offer: &Offer, out: &mut Out) -> Result<(), Dropped>
        requires ready { ReadyToSend self.old grant.now out.old }
        requires offer { IfSome self.old.memory (λ l. CanBeKept l.routing offer.now) }
        requires number { IfSome self.old.memory (λ l. l.own_number.last < 65535) }
        requires left { IfSome self.old.memory
            (λ l. l.counter.next + (length (leaving grant.now.address offer.now.origin offer.now.by l.waiting) + 1) ≤ GREATEST_COUNTER) }
        requires fresh { self.old.replied ≡ None }
        ensures carries { IfSome self.old.memory (λ l. Carries self.old (drafts.sealing drafts.alone hearing_rules.dropped
            (drafts.send_message offer.now.by (message.Rrep (l.own_number.last + 1) 0 grant.now.address offer.now.origin)
            (hearing_rules.offers_numbered grant.now.address offer.now.origin offer.now.rank offer.now.by offer.now.time l)) tt) result out.new self.new) }
        ensures agrees { Agrees self.new }
        ensures replied { IfSome self.old.memory (λ l. self.new.replied ≡ reply_sent_by
            (drafts.send_message offer.now.by (message.Rrep (l.own_number.last + 1) 0 grant.now.address offer.now.origin)
            (hearing_rules.offers_numbered grant.now.address offer.now.origin offer.now.rank offer.now.by offer.now.time l)) self.new.memory) }
    {
        self.halted = true;
        let Ok(()) = self.parts.routing.keep(
            &mut self.keeper,
            offer.origin,
            offer.rank,
            offer.by,
            offer.time,
        )
        else {
            return Err(Dropped::Store);
        };
        let Ok(number) = self.parts.own_number.advance(&mut self.keeper) else {
            return Err(Dropped::Store);
        };
        let units = self.bodies.units_for(offer.origin);
        let Ok(first) = self.parts.counter.reserve(&mut self.keeper, units + 1) else {
            return Err(Dropped::Store);
        };
        let reply = Message::Rrep {
            number,
            cost: 0,
            origin: grant.address,
            to: offer.origin,
        };
        seal_waiting_then(
            &mut self.bodies,
            &mut *self.buffer,
            &mut self.cipher,
            grant,
            offer,
            first,
            Destination::one(offer.by),
            &reply,
            out,
        );
        self.replied = Some(Reply {
            to: offer.by,
            number,
            origin: grant.address,
        });
        self.halted = false;
        Ok(())
    }

    // Hears a route request, whose cost is that of the message and of the link that it came over.
    pub(crate) fn hear_request(
        &mut self,
        grant: &Grant,
        last: &LastHop,
        offered: &Offered,
        dest: Short,
        out: &mut Out,
    ) -> Result<Heard<'static>, Dropped>
        requires ready { ReadyToSend self.old grant.now out.old }
        requires valid { 1 ≤ offered.now.number }
        requires fresh { self.old.replied ≡ None }
        ensures hears { IfSome self.old.memory
            (λ l. Hears self.old (hearing_rules.hear_request l grant.now.address last.now.by offered.now.origin dest
            (offered_rank offered.now) last.now.time) result out.new self.new) }
        ensures agrees { Agrees self.new }
    {
        let offer = self.take_offer(grant, last, offered)?;
        let units = self.bodies.units_for(offered.origin);
        let left = self.parts.counter.left();
        if dest.number() == grant.address.number() {
            if self.parts.own_number.last() == u16::MAX {
                return Err(Dropped::SeqSpent);
            }
            if left < units + 1 {
                return Err(Dropped::CounterSpent);
            }
            return match self.answer(grant, &offer, out) {
                Ok(()) => Ok(Heard::Answered),
                Err(reason) => Err(reason),
            };
        }
        if left < units + 1 {
            return Err(Dropped::CounterSpent);
        }
        match self.send_on(grant, &offer, dest, out) {
            Ok(()) => Ok(Heard::Relayed),
            Err(reason) => Err(reason),
        }
    }
}
