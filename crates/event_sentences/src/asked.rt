//! Sentences of events that somebody asked for, and that were answered ok.
ghost use Rattle.std.specs.Prelude.{◌≡◌, IfOk, string_bytes};
ghost use Rattle.event_sentences.specs.Scenes.{scene_of};
ghost use Rattle.event_sentences.specs.Asked as spec_asked;

use crate::flights::Meant;
use crate::moment::Moment;
use line_events::Answer;
use line_record::Act;
use line_script::answer_word;
use plc_base::GREATEST_COUNTER;
use sentence_parts::{Part, node, number, place, words};
use std::alloc::AllocError;

fn address_or_0(address: Option<u16>) -> u16
    ensures { result ≡ spec_asked.address_or_0 address }
{
    match address {
        Some(address) => address,
        None => 0,
    }
}

impl<'a> Moment<'a> {
    fn sent_at_once(&self) -> Result<String, AllocError>
        ensures { IfOk result (λ text. string_bytes text ≡ spec_asked.sent_at_once_text (scene_of self.now)) }
    {
        let named = self.named(Meant::All)?;
        self.say(&[
            node(self.node),
            words(" has a route and sends "),
            words(named.as_str()),
            words(" to "),
            place(self.target(Meant::All)),
        ])
    }

    fn waits_first(&self, to: u32) -> Result<String, AllocError>
        ensures { IfOk result (λ text. string_bytes text ≡ spec_asked.waits_first_text to (scene_of self.now)) }
    {
        self.with_flights(&[
            node(self.node),
            words(" has no route to "),
            node(to),
            words(": the datagram waits, and a route request goes to all"),
        ])
    }

    fn waits(&self, to: u32) -> Result<String, AllocError>
        ensures { IfOk result (λ text. string_bytes text ≡ spec_asked.waits_text to (scene_of self.now)) }
    {
        if self.flights.len() == 0 {
            return self.say(&[
                node(self.node),
                words(" has no route to "),
                node(to),
                words(": the datagram waits with what waited before"),
            ]);
        }
        self.waits_first(to)
    }

    fn sent(&self, to: u32) -> Result<String, AllocError>
        ensures { IfOk result (λ text. string_bytes text ≡ spec_asked.sent_text self.now.recorded.answer to (scene_of self.now)) }
    {
        match self.recorded.answer {
            Answer::Sent => self.sent_at_once(),
            _ => self.waits(to),
        }
    }

    fn allowed(&self, meter: u32) -> Result<String, AllocError>
        ensures { IfOk result (λ text. string_bytes text ≡ spec_asked.allowed_text meter self.now.recorded.address) }
    {
        self.say(&[
            node(meter),
            words(" may join, and has address "),
            Part::Short {
                address: address_or_0(self.recorded.address),
            },
        ])
    }

    fn challenged(&self, meter: u32) -> Result<String, AllocError>
        ensures { IfOk result (λ text. string_bytes text ≡ spec_asked.challenged_text meter (scene_of self.now)) }
    {
        if self.flights.len() == 0 {
            return self.say(&[words("the coordinator opens a session with "), node(meter)]);
        }
        let named = self.named(Meant::All)?;
        self.say(&[
            words("the coordinator opens a session with "),
            node(meter),
            words(": "),
            words(named.as_str()),
        ])
    }

    fn tells_to_seal(&self, meter: u32, index: u8) -> Result<String, AllocError>
        ensures { IfOk result (λ text. string_bytes text ≡ spec_asked.tells_to_seal_text meter index (scene_of self.now)) }
    {
        self.with_flights(&[
            words("the coordinator tells "),
            node(meter),
            words(" to seal with key "),
            number(index as usize),
        ])
    }

    fn activated(&self, meter: u32, index: u8) -> Result<String, AllocError>
        ensures { IfOk result (λ text. string_bytes text ≡ spec_asked.activated_text meter index (scene_of self.now)) }
    {
        if meter == 0 {
            return self.say(&[
                words("the coordinator seals with key "),
                number(index as usize),
                words(" from now"),
            ]);
        }
        self.tells_to_seal(meter, index)
    }

    // A meter is shut out, and no command says so to it.
    fn kicked_silently(&self, meter: u32) -> Result<String, AllocError>
        ensures { IfOk result (λ text. string_bytes text ≡ spec_asked.kicked_silently_text meter (scene_of self.now)) }
    {
        if self.shown.next_counter >= GREATEST_COUNTER {
            return self.say(&[
                node(meter),
                words(" is shut out; no counter is left, so it is not told"),
            ]);
        }
        self.say(&[
            node(meter),
            words(" is shut out; no route to it, so it is not told"),
        ])
    }

    fn kicked(&self, meter: u32) -> Result<String, AllocError>
        ensures { IfOk result (λ text. string_bytes text ≡ spec_asked.kicked_text meter (scene_of self.now)) }
    {
        if self.flights.len() == 0 {
            return self.kicked_silently(meter);
        }
        let named = self.named(Meant::All)?;
        self.say(&[
            node(meter),
            words(" is shut out; "),
            words(named.as_str()),
            words(" tells it"),
        ])
    }

    fn asks_to_join(&self, agent: u32) -> Result<String, AllocError>
        ensures { IfOk result (λ text. string_bytes text ≡ spec_asked.asks_to_join_text agent (scene_of self.now)) }
    {
        self.with_flights(&[
            node(self.node),
            words(" asks "),
            node(agent),
            words(" to join"),
        ])
    }

    fn chooses(&self, k: u8) -> Result<String, AllocError>
        ensures { IfOk result (λ text. string_bytes text ≡ spec_asked.chooses_text k (scene_of self.now)) }
    {
        self.with_flights(&[
            node(self.node),
            words(" asks the agent of rank "),
            number(k as usize),
            words(" to join"),
        ])
    }

    // Of an event of further reach.
    fn asked_further(&self) -> Result<String, AllocError>
        ensures { IfOk result (λ text. string_bytes text ≡ spec_asked.asked_further_text self.now.recorded.act (scene_of self.now)) }
    {
        match &self.recorded.act {
            Act::Bcast { .. } => {
                self.with_flights(&[node(self.node), words(" sends a datagram to all")])
            }
            Act::Scan { .. } => self.with_flights(&[node(self.node), words(" looks for agents")]),
            Act::Choose { k, .. } => self.chooses(*k),
            Act::Path { to, .. } => self.with_flights(&[
                node(self.node),
                words(" asks for the way to "),
                node(*to),
            ]),
            _ => self.say(&[words(answer_word(self.recorded.answer))]),
        }
    }

    // Of an order to a meter.
    fn ordered(&self) -> Result<String, AllocError>
        ensures { IfOk result (λ text. string_bytes text ≡ spec_asked.ordered_text self.now.recorded.act (scene_of self.now)) }
    {
        match &self.recorded.act {
            Act::Challenge { node } => self.challenged(*node),
            Act::Activate { node, index } => self.activated(*node, *index),
            Act::Kick { node } => self.kicked(*node),
            _ => self.asked_further(),
        }
    }

    /// Of an event that somebody asked for.
    pub fn asked(&self) -> Result<String, AllocError>
        ensures { IfOk result (λ text. string_bytes text ≡ spec_asked.asked_text self.now.recorded.act (scene_of self.now)) }
    {
        match &self.recorded.act {
            Act::Send { to, .. } => self.sent(*to),
            Act::Allow { node } => self.allowed(*node),
            Act::RandomOctets { .. } => self.say(&[
                node(self.node),
                words(" has one more random value"),
            ]),
            Act::Join { agent, .. } => self.asks_to_join(*agent),
            Act::Leave { .. } => {
                self.say(&[node(self.node), words(" forgets its address and keys")])
            }
            Act::Lose { flight } => self.say(&[
                words("flight "),
                number(*flight as usize),
                words(" is lost"),
            ]),
            _ => self.ordered(),
        }
    }
}
