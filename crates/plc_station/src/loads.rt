//! What a station sends by itself, a datagram or a command, on its way.
ghost use Rattle.std.specs.Prelude.{◌≡◌, ◌+◌, ◌<◌, ◌≤◌, false, IfOk, IfSome, OnOk, OnErr, is_ok, length};
ghost use Rattle.plc_base.specs.Keeper.{Stores, OutsideStays};
ghost use Rattle.fragment_buffers.specs.NextTag.{AgreesWith};
ghost use Rattle.node_rules.specs.Drafts as drafts;
ghost use Rattle.node_rules.specs.Calls as calls;
ghost use Rattle.node_rules.specs.declared.heard.SentHow.TheVariants as how;
ghost use Rattle.node_rules.specs.CarriedPlans.{Carries};
ghost use Rattle.plc_station.specs.OwnLoads.{IsLoad, own_tag, own_load, own_frames, own_write, own_tag_left, own_draft};
ghost use Rattle.plc_station.specs.NextSteps.{next_step, stepping};
ghost use Rattle.plc_station.specs.Ready.{After, ReadyToAnswer, ReadyToSend};
ghost use Rattle.plc_base.specs.declared.limits.TheConstants.{GREATEST_COUNTER, LONGEST_DATAGRAM};

use crate::next_steps::NextStep;
use crate::sealing::{seal_own, seal_request};
use crate::station::Station;
use fragment_buffers::{NextTag, pieces};
use node_rules::{SendRefusal, SentHow};
use plc_base::{Failed, Grant, Keeper, Out, Short};

/// What a station sends by itself: a datagram, which has a tag, or a command, which has none and whose code stands first.
#[derive(Clone, Copy)]
pub enum LoadKind {
    Datagram,
    Command,
}

// In how many frames a load of this many octets goes out.
fn frames_in(kind: LoadKind, octets: usize) -> u32
    requires some { 1 ≤ octets }
    requires fits { octets ≤ LONGEST_DATAGRAM }
    ensures { result ≡ own_frames kind octets }
{
    match kind {
        LoadKind::Datagram => u32::from(pieces(octets as u16)),
        LoadKind::Command => 1,
    }
}

// The tag of a load of this many octets, if it has one. Where a datagram goes in pieces, the tag after its own is stored and then held.
//
// Only a failed put is an error. The tag is then as it was, but may not be used until it is opened again.
fn take_tag<K: Keeper>(
    next: &mut NextTag,
    keeper: &mut K,
    kind: LoadKind,
    octets: usize,
) -> Result<Option<u16>, Failed>
    requires kept { AgreesWith next.old (K.store keeper.old).records }
    ensures tag { IfOk result (λ tag. tag ≡ own_tag kind next.old) }
    ensures next { OnOk result (next.new ≡ own_tag_left kind octets next.old) }
    ensures same { OnErr result (next.new ≡ next.old) }
    ensures store { Stores (K.store keeper.old) (own_write kind octets next.old) (is_ok result) (K.store keeper.new) }
    ensures kept { OnOk result (AgreesWith next.new (K.store keeper.new).records) }
    ensures elsewhere { OutsideStays 4 4 (K.store keeper.old) (K.store keeper.new) }
{
    match kind {
        LoadKind::Datagram => {
            let tag = next.take(keeper, octets)?;
            Ok(Some(tag))
        }
        LoadKind::Command => Ok(None),
    }
}

impl<K: Keeper + Drop> Station<K> {
    // A load goes to a next hop.
    fn goes(
        &mut self,
        grant: &Grant,
        hop: Short,
        to: Short,
        kind: LoadKind,
        octets: &[u8],
        note: u32,
        out: &mut Out,
    ) -> Result<SentHow, SendRefusal>
        requires ready { ReadyToSend self.old grant.now out.old }
        requires load { IsLoad kind (length octets.now) }
        requires left { IfSome self.old.memory (λ l. l.counter.next + own_frames kind (length octets.now) ≤ GREATEST_COUNTER) }
        ensures carries { IfSome self.old.memory (λ l. Carries self.old (drafts.sealing drafts.alone calls.sending_ends
            (drafts.body_goes grant.now.address hop to note (own_load kind octets.now l.next_tag) (own_draft kind octets.now l)) how.Sent)
            result out.new self.new) }
        ensures after { After self.old self.new }
    {
        self.halted = true;
        let Ok(tag) = take_tag(
            &mut self.parts.next_tag,
            &mut self.keeper,
            kind,
            octets.len(),
        ) else {
            return Err(SendRefusal::Store);
        };
        let count = frames_in(kind, octets.len());
        let Ok(first) = self.parts.counter.reserve(&mut self.keeper, count) else {
            return Err(SendRefusal::Store);
        };
        seal_own(
            &mut self.cipher,
            grant,
            first,
            hop,
            to,
            note,
            tag,
            octets,
            out,
        );
        self.halted = false;
        Ok(SentHow::Sent)
    }

    // A load waits for a route that something else waits for already.
    fn waits(
        &mut self,
        to: Short,
        kind: LoadKind,
        octets: &[u8],
        note: u32,
        now: u64,
        out: &Out,
    ) -> Result<SentHow, SendRefusal>
        requires ready { ReadyToAnswer self.old out.now }
        requires load { IsLoad kind (length octets.now) }
        requires room { IfSome self.old.memory (λ l. drafts.no_room l (length octets.now) ≡ false) }
        ensures carries { IfSome self.old.memory (λ l. Carries self.old (drafts.sealing drafts.alone calls.sending_ends
            (drafts.waits to note (own_load kind octets.now l.next_tag) now (own_draft kind octets.now l)) how.Waiting)
            result out.now self.new) }
        ensures after { After self.old self.new }
    {
        self.halted = true;
        let Ok(tag) = take_tag(
            &mut self.parts.next_tag,
            &mut self.keeper,
            kind,
            octets.len(),
        ) else {
            return Err(SendRefusal::Store);
        };
        self.bodies.push(to, note, now, tag, octets);
        self.halted = false;
        Ok(SentHow::Waiting)
    }

    // A load waits for a route, and the route is sought.
    fn seeks(
        &mut self,
        grant: &Grant,
        to: Short,
        kind: LoadKind,
        octets: &[u8],
        note: u32,
        now: u64,
        out: &mut Out,
    ) -> Result<SentHow, SendRefusal>
        requires ready { ReadyToSend self.old grant.now out.old }
        requires load { IsLoad kind (length octets.now) }
        requires room { IfSome self.old.memory (λ l. drafts.no_room l (length octets.now) ≡ false) }
        requires number { IfSome self.old.memory (λ l. l.own_number.last < 65535) }
        requires left { IfSome self.old.memory (λ l. l.counter.next + 1 ≤ GREATEST_COUNTER) }
        ensures carries { IfSome self.old.memory (λ l. Carries self.old (drafts.sealing drafts.alone calls.sending_ends
            (drafts.waits to note (own_load kind octets.now l.next_tag) now (drafts.seeks grant.now.address to (own_draft kind octets.now l)))
            how.Waiting) result out.new self.new) }
        ensures after { After self.old self.new }
    {
        self.halted = true;
        let Ok(tag) = take_tag(
            &mut self.parts.next_tag,
            &mut self.keeper,
            kind,
            octets.len(),
        ) else {
            return Err(SendRefusal::Store);
        };
        let Ok(number) = self.parts.own_number.advance(&mut self.keeper) else {
            return Err(SendRefusal::Store);
        };
        let Ok(counter) = self.parts.counter.reserve(&mut self.keeper, 1) else {
            return Err(SendRefusal::Store);
        };
        seal_request(&mut self.cipher, grant, counter, number, to, out);
        self.bodies.push(to, note, now, tag, octets);
        self.halted = false;
        Ok(SentHow::Waiting)
    }

    // A load sets out for an address: it goes to the next hop, or waits for a route. WaitingFull, SeqSpent, CounterSpent, Store, in this
    // order.
    pub(crate) fn sets_out(
        &mut self,
        grant: &Grant,
        to: Short,
        kind: LoadKind,
        octets: &[u8],
        note: u32,
        now: u64,
        out: &mut Out,
    ) -> Result<SentHow, SendRefusal>
        requires ready { ReadyToSend self.old grant.now out.old }
        requires load { IsLoad kind (length octets.now) }
        ensures carries { IfSome self.old.memory (λ l. Carries self.old (stepping l grant.now.address to note now
            (own_load kind octets.now l.next_tag) (own_draft kind octets.now l)
            (next_step l to (length octets.now) (own_frames kind (length octets.now)))) result out.new self.new) }
        ensures after { After self.old self.new }
    {
        let count = frames_in(kind, octets.len());
        let step = self.next_step(to, octets.len(), count)?;
        match step {
            NextStep::Goes(hop) => self.goes(grant, hop, to, kind, octets, note, out),
            NextStep::Waits => self.waits(to, kind, octets, note, now, out),
            NextStep::Seeks => self.seeks(grant, to, kind, octets, note, now, out),
        }
    }
}
