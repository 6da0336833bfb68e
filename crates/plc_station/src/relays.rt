//! How a station sends route messages on.
ghost use Rattle.std.specs.Prelude.{◌+◌, ◌<◌, ◌≤◌, true, false, Ok, Err, IfOk, IfSome, IsSome, length};
ghost use Rattle.loadng_messages.specs.Grammar as messages;
ghost use Rattle.loadng_messages.specs.declared.message.Message.TheVariants as message;
ghost use Rattle.node_rules.specs.Drafts as drafts;
ghost use Rattle.node_rules.specs.HearingRules as hearing_rules;
ghost use Rattle.fragment_buffers.specs.WaitingBodies.{leaving};
ghost use Rattle.node_rules.specs.CarriedPlans.{Carries};
ghost use Rattle.plc_station.specs.Ready.{After, ReadyToSend};
ghost use Rattle.plc_station.specs.Offers.{CanBeKept};
ghost use Rattle.node_rules.specs.Frames.{to_all};
ghost use Rattle.plc_base.specs.declared.limits.TheConstants.{GREATEST_COUNTER};

use crate::offers::Offer;
use crate::sealing::seal_waiting_then;
use crate::station::Station;
use loadng_messages::Message;
use node_rules::Dropped;
use plc_base::{Destination, Grant, Keeper, Out, Short};

impl<K: Keeper + Drop> Station<K> {
    // Sends a route message on, to a neighbour or to all. Before, the rank that it offers is kept, and what waits for its
    // origin leaves.
    pub(crate) fn relay(
        &mut self,
        grant: &Grant,
        offer: &Offer,
        to: Destination,
        message: &Message,
        out: &mut Out,
    ) -> Result<(), Dropped>
        requires ready { ReadyToSend self.old grant.now out.old }
        requires allowed { messages.IsAllowed message.now }
        requires offer { IfSome self.old.memory (λ l. CanBeKept l.routing offer.now) }
        requires left { IfSome self.old.memory
            (λ l. l.counter.next + (length (leaving grant.now.address offer.now.origin offer.now.by l.waiting) + 1) ≤ GREATEST_COUNTER) }
        ensures carries { IfSome self.old.memory (λ l. Carries self.old (drafts.sealing drafts.alone hearing_rules.dropped
            (drafts.send_message to message.now (hearing_rules.offers grant.now.address offer.now.origin offer.now.rank offer.now.by offer.now.time l)) tt)
            result out.new self.new) }
        ensures after { After self.old self.new }
        ensures message { IfOk result (λ u. messages.IsMessage message.now) }
        ensures key { IfOk result (λ u. IsSome (drafts.sealing_key grant.now)) }
    {
        self.halted = true;
        let Ok(()) = self.parts.routing.keep(
            &mut self.keeper,
            offer.origin,
            offer.rank,
            offer.by,
            offer.time,
        )
        else {
            return Err(Dropped::Store);
        };
        let units = self.bodies.units_for(offer.origin);
        let Ok(first) = self.parts.counter.reserve(&mut self.keeper, units + 1) else {
            return Err(Dropped::Store);
        };
        seal_waiting_then(
            &mut self.bodies,
            &mut *self.buffer,
            &mut self.cipher,
            grant,
            offer,
            first,
            to,
            message,
            out,
        );
        self.halted = false;
        Ok(())
    }

    // Sends a request for another address on, to all.
    pub(crate) fn send_on(
        &mut self,
        grant: &Grant,
        offer: &Offer,
        dest: Short,
        out: &mut Out,
    ) -> Result<(), Dropped>
        requires ready { ReadyToSend self.old grant.now out.old }
        requires offer { IfSome self.old.memory (λ l. CanBeKept l.routing offer.now) }
        requires left { IfSome self.old.memory
            (λ l. l.counter.next + (length (leaving grant.now.address offer.now.origin offer.now.by l.waiting) + 1) ≤ GREATEST_COUNTER) }
        ensures carries { IfSome self.old.memory (λ l. Carries self.old (drafts.sealing drafts.alone hearing_rules.dropped
            (drafts.send_message to_all (message.Rreq offer.now.rank.number offer.now.rank.cost offer.now.origin dest)
            (hearing_rules.offers grant.now.address offer.now.origin offer.now.rank offer.now.by offer.now.time l)) tt) result out.new self.new) }
        ensures after { After self.old self.new }
    {
        let request = Message::Rreq {
            number: offer.rank.number,
            cost: offer.rank.cost,
            origin: offer.origin,
            dest,
        };
        self.relay(grant, offer, Destination::all(), &request, out)
    }
}
